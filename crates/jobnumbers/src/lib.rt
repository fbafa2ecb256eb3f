// The answers about a job as structs of numbers, for C: Open, Body, the job written, the running sum, and the formula read. Each struct is made of what
// an operation answers. They stand apart from the C functions since they need no job, and in five crates since an edit checks its whole crate again.
// Each has fields of its own, so each has a `From` of its own.
// Refusal 0 is none; beside a refusal, and where an answer does not use a field, the field is 0.

#![tactic(auto)]

ghost use Rattle.std.specs.Prelude.{◌≡◌};
ghost use Rattle.paper.specs.Answers.{opened_as, summed_as};
ghost use Rattle.jobnumbers.specs.Numbers.{open_numbers, write_numbers, sum_numbers, handed_in};
ghost use Rattle.assembly.specs.Answers.{written_as};
ghost use Rattle.formula.specs.Answers.{handed_as};

use formula::TermList;
use paper::{Opened, Refusal};

#[repr(C)]
#[derive(Clone, Copy, Debug, PartialEq, Eq, Default)]
pub struct OpenAnswer {
    pub refusal: u64,
    pub n: u64,
    pub terms1: u64,
    pub terms2: u64,
    pub terms3: u64,
}

impl From<Result<Opened, Refusal>> for OpenAnswer {
    ghost from_gives = { λ answer numbers. numbers ≡ open_numbers (opened_as answer) };

    #[tactic(auto, unfolding(crate::specs::Numbers::open_numbers, paper::specs::Answers::opened_as, paper::specs::Answers::opened_list, paper::specs::Refusals::answer_by))]
    fn from(answer: Result<Opened, Refusal>) -> OpenAnswer {
        match answer {
            Ok(opened) => OpenAnswer {
                refusal: 0,
                n: opened.n,
                terms1: opened.terms[0],
                terms2: opened.terms[1],
                terms3: opened.terms[2],
            },
            Err(refusal) => OpenAnswer {
                refusal: refusal.number(),
                ..OpenAnswer::default()
            },
        }
    }
}

#[repr(C)]
#[derive(Clone, Copy, Debug, PartialEq, Eq, Default)]
pub struct BodyAnswer {
    pub refusal: u64,
    pub offset: u64,
    pub length: u64,
}

// The length of the job written.
#[repr(C)]
#[derive(Clone, Copy, Debug, PartialEq, Eq, Default)]
pub struct WriteAnswer {
    pub refusal: u64,
    pub length: u64,
}

impl From<Result<u64, Refusal>> for WriteAnswer {
    ghost from_gives = { λ answer numbers. numbers ≡ write_numbers (written_as answer) };

    #[tactic(auto, unfolding(crate::specs::Numbers::write_numbers, assembly::specs::Answers::written_as, paper::specs::Refusals::answer_by))]
    fn from(answer: Result<u64, Refusal>) -> WriteAnswer {
        match answer {
            Ok(length) => WriteAnswer { refusal: 0, length },
            Err(refusal) => WriteAnswer {
                refusal: refusal.number(),
                ..WriteAnswer::default()
            },
        }
    }
}

#[repr(C)]
#[derive(Clone, Copy, Debug, PartialEq, Eq, Default)]
pub struct SumAnswer {
    pub refusal: u64,
    pub sum: i64,
}

impl From<Result<i64, Refusal>> for SumAnswer {
    ghost from_gives = { λ answer numbers. numbers ≡ sum_numbers (summed_as answer) };

    #[tactic(auto, unfolding(crate::specs::Numbers::sum_numbers, paper::specs::Answers::summed_as, paper::specs::Refusals::answer_by))]
    fn from(answer: Result<i64, Refusal>) -> SumAnswer {
        match answer {
            Ok(sum) => SumAnswer { refusal: 0, sum },
            Err(refusal) => SumAnswer {
                refusal: refusal.number(),
                ..SumAnswer::default()
            },
        }
    }
}

// The count of terms, and the terms, 8 bytes each as in a job. Bytes behind them are 0, as is everything beside a refusal.
#[repr(C)]
#[derive(Clone, Copy, Debug, PartialEq, Eq)]
pub struct FormulaAnswer {
    pub refusal: u64,
    pub count: u64,
    pub bytes: [u8; 560],
}

impl From<Result<TermList, Refusal>> for FormulaAnswer {
    ghost from_gives = { λ answer numbers. handed_in numbers ≡ handed_as answer };

    #[tactic(auto, unfolding(crate::specs::Numbers::handed_in, formula::specs::Answers::handed_as))]
    fn from(answer: Result<TermList, Refusal>) -> FormulaAnswer {
        match answer {
            Ok(terms) => {
                let bytes = terms.bytes;
                FormulaAnswer {
                    refusal: 0,
                    count: terms.count,
                    bytes,
                }
            }
            Err(refusal) => {
                let bytes = TermList::default().bytes;
                FormulaAnswer {
                    refusal: refusal.number(),
                    count: 0,
                    bytes,
                }
            }
        }
    }
}
