// The answers about the seams of a box, every seam and the order of cutting, as structs of numbers, for C. Refusal 0 is none; beside a refusal, and
// where an answer does not use a field, the field is 0.

#![tactic(auto)]

ghost use Rattle.std.specs.Prelude.{◌≡◌};
ghost use Rattle.seamlist.specs.Answers.{seamed_as};
ghost use Rattle.nesting.specs.Answers.{ordered_as};
ghost use Rattle.seamnumbers.specs.Numbers.{seams_numbers, order_numbers};

use paper::Refusal;
use seamlist::Seamed;

// The seams: 1 full or 0 complete, and the count of places written.
#[repr(C)]
#[derive(Clone, Copy, Debug, PartialEq, Eq, Default)]
pub struct SeamsAnswer {
    pub refusal: u64,
    pub full: u64,
    pub count: u64,
}

impl From<Result<Seamed, Refusal>> for SeamsAnswer {
    ghost from_gives = { λ answer numbers. numbers ≡ seams_numbers (seamed_as answer) };

    #[tactic(auto, unfolding(crate::specs::Numbers::extent_number, crate::specs::Numbers::seams_numbers, seamlist::specs::Answers::extent_of, seamlist::specs::Answers::extent_count, seamlist::specs::Answers::seamed_as, paper::specs::Refusals::answer_by))]
    fn from(answer: Result<Seamed, Refusal>) -> SeamsAnswer {
        match answer {
            Ok(seams) => SeamsAnswer {
                refusal: 0,
                full: seams.extent as u64,
                count: seams.count,
            },
            Err(refusal) => SeamsAnswer {
                refusal: refusal.number(),
                ..SeamsAnswer::default()
            },
        }
    }
}

// Stands 1: the order stands; 0: it does not, and `position` is the first whose loop has a later listed loop inside it.
#[repr(C)]
#[derive(Clone, Copy, Debug, PartialEq, Eq, Default)]
pub struct OrderAnswer {
    pub refusal: u64,
    pub stands: u64,
    pub position: u64,
}

impl From<Result<Option<u64>, Refusal>> for OrderAnswer {
    ghost from_gives = { λ answer numbers. numbers ≡ order_numbers (ordered_as answer) };

    #[tactic(auto, unfolding(crate::specs::Numbers::order_numbers, nesting::specs::Answers::standing_of, nesting::specs::Answers::ordered_as, paper::specs::Refusals::answer_by))]
    fn from(answer: Result<Option<u64>, Refusal>) -> OrderAnswer {
        match answer {
            Ok(None) => OrderAnswer {
                stands: 1,
                ..OrderAnswer::default()
            },
            Ok(Some(position)) => OrderAnswer {
                position,
                ..OrderAnswer::default()
            },
            Err(refusal) => OrderAnswer {
                refusal: refusal.number(),
                ..OrderAnswer::default()
            },
        }
    }
}
