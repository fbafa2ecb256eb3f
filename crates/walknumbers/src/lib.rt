// The answers of Step and Trace as structs of numbers, for C. Refusal 0 is none; beside a refusal, and where an answer does not use a field, the
// field is 0.

#![tactic(auto)]

ghost use Rattle.std.specs.Prelude.{◌≡◌};
ghost use Rattle.paper.specs.Answers.{stepped_as, traced_as};
ghost use Rattle.walknumbers.specs.Numbers.{step_numbers, trace_numbers};

use paper::{HeldPlace, Refusal, Stop, Traced};

// Outcome 0: the next place; 1: edge; 2: limit.
#[repr(C)]
#[derive(Clone, Copy, Debug, PartialEq, Eq, Default)]
pub struct StepAnswer {
    pub refusal: u64,
    pub outcome: u64,
    pub x: i64,
    pub y: i64,
    pub z: i64,
    pub w: i64,
    pub mask1: u64,
    pub mask2: u64,
    pub mask3: u64,
    pub side: u64,
}

impl From<Result<Result<HeldPlace, Stop>, Refusal>> for StepAnswer {
    ghost from_gives = { λ answer numbers. numbers ≡ step_numbers (stepped_as answer) };

    #[tactic(auto, unfolding(crate::specs::Numbers::without_place, crate::specs::Numbers::step_numbers, paper::specs::Answers::placed_as, paper::specs::Answers::stop_as, paper::specs::Answers::next_as, paper::specs::Answers::stepped_as, paper::specs::Refusals::answer_by))]
    fn from(answer: Result<Result<HeldPlace, Stop>, Refusal>) -> StepAnswer {
        match answer {
            Ok(Ok(p)) => StepAnswer {
                refusal: 0,
                outcome: 0,
                x: p.low.coordinates[0],
                y: p.low.coordinates[1],
                z: p.low.coordinates[2],
                w: p.low.coordinates[3],
                mask1: p.masks[0],
                mask2: p.masks[1],
                mask3: p.masks[2],
                side: p.side,
            },
            Ok(Err(Stop::Edge)) => StepAnswer {
                outcome: 1,
                ..StepAnswer::default()
            },
            Ok(Err(Stop::Limit)) => StepAnswer {
                outcome: 2,
                ..StepAnswer::default()
            },
            Err(refusal) => StepAnswer {
                refusal: refusal.number(),
                ..StepAnswer::default()
            },
        }
    }
}

// Verdict 0: loop; 1: edge; 2: limit; 3: full.
#[repr(C)]
#[derive(Clone, Copy, Debug, PartialEq, Eq, Default)]
pub struct TraceAnswer {
    pub refusal: u64,
    pub verdict: u64,
    pub count: u64,
}

impl From<Result<Traced, Refusal>> for TraceAnswer {
    ghost from_gives = { λ answer numbers. numbers ≡ trace_numbers (traced_as answer) };

    #[tactic(auto, unfolding(crate::specs::Numbers::verdict_number, crate::specs::Numbers::trace_numbers, paper::specs::Answers::verdict_as, paper::specs::Answers::verdict_count, paper::specs::Answers::traced_as, paper::specs::Refusals::answer_by))]
    fn from(answer: Result<Traced, Refusal>) -> TraceAnswer {
        match answer {
            Ok(traced) => TraceAnswer {
                refusal: 0,
                verdict: traced.verdict as u64,
                count: traced.count,
            },
            Err(refusal) => TraceAnswer {
                refusal: refusal.number(),
                ..TraceAnswer::default()
            },
        }
    }
}
