// The answers of Judge, with and without its ground, as structs of numbers, for C. Refusal 0 is none; beside a refusal, and where an answer does
// not use a field, the field is 0.

#![tactic(auto)]

ghost use Rattle.std.specs.Prelude.{◌≡◌, ◌<◌, get_or, take};
ghost use Rattle.paper.specs.Answers.{judged_as};
ghost use Rattle.grounds.specs.Judged.{judged_by_as};
ghost use Rattle.judgenumbers.specs.Numbers.{judge_numbers, ground_numbers};

use grounds::{NamedGround, Powers};
use paper::Refusal;

#[repr(C)]
#[derive(Clone, Copy, Debug, PartialEq, Eq, Default)]
pub struct JudgeAnswer {
    pub refusal: u64,
    pub crossed: u64,
}

impl From<Result<bool, Refusal>> for JudgeAnswer {
    ghost from_gives = { λ answer numbers. numbers ≡ judge_numbers (judged_as answer) };

    #[tactic(auto, unfolding(crate::specs::Numbers::judge_numbers, paper::specs::Answers::judged_as, paper::specs::Refusals::answer_by))]
    fn from(answer: Result<bool, Refusal>) -> JudgeAnswer {
        match answer {
            Ok(crossed) => JudgeAnswer {
                refusal: 0,
                crossed: crossed as u64,
            },
            Err(refusal) => JudgeAnswer {
                refusal: refusal.number(),
                ..JudgeAnswer::default()
            },
        }
    }
}

// Kind 0: not crossed, D is 0; 1: not crossed, the sign of `vertex` is against D by `power`; 2: crossed, the first n of power0 to power3.
#[repr(C)]
#[derive(Clone, Copy, Debug, PartialEq, Eq, Default)]
pub struct GroundAnswer {
    pub refusal: u64,
    pub kind: u64,
    pub n: u64,
    pub vertex: u64,
    pub power: u64,
    pub power0: u64,
    pub power1: u64,
    pub power2: u64,
    pub power3: u64,
}

// The power of vertex k; 0 from n on.
fn power_of(named: Powers, k: usize) -> u64
    requires { k < 4 }
    ensures { result ≡ get_or (take named.n named.powers) k 0 }
{
    if (k as u64) < named.n {
        named.powers[k]
    } else {
        0
    }
}

impl From<Result<NamedGround, Refusal>> for GroundAnswer {
    ghost from_gives = { λ answer numbers. numbers ≡ ground_numbers (judged_by_as answer) };

    #[tactic(auto, unfolding(crate::specs::Numbers::ground_numbers, crate::specs::Numbers::without_powers, crate::specs::Numbers::with_powers, grounds::specs::Judged::named_as, grounds::specs::Judged::judged_by_as, paper::specs::Refusals::answer_by))]
    fn from(answer: Result<NamedGround, Refusal>) -> GroundAnswer {
        match answer {
            Ok(NamedGround::ZeroDeterminant) => GroundAnswer::default(),
            Ok(NamedGround::Against { vertex, power }) => GroundAnswer {
                kind: 1,
                vertex,
                power,
                ..GroundAnswer::default()
            },
            Ok(NamedGround::Crossed(named)) => GroundAnswer {
                kind: 2,
                n: named.n,
                power0: power_of(named, 0),
                power1: power_of(named, 1),
                power2: power_of(named, 2),
                power3: power_of(named, 3),
                ..GroundAnswer::default()
            },
            Err(refusal) => GroundAnswer {
                refusal: refusal.number(),
                ..GroundAnswer::default()
            },
        }
    }
}
