// The answers of Point and Pen as structs of numbers, for C. Refusal 0 is none; beside a refusal, and where an answer does not use a field, the
// field is 0.

#![tactic(auto)]

ghost use Rattle.std.specs.Prelude.{◌≡◌};
ghost use Rattle.paper.specs.Answers.{pointed_as};
ghost use Rattle.paper.specs.Pen.{millimetres_as, penned_as};
ghost use Rattle.pointnumbers.specs.Numbers.{point_numbers, with_point, pen_numbers};

use paper::{Millimetres, PenMove, Refusal, StepPoint};

// In steps of 1/1024.
#[repr(C)]
#[derive(Clone, Copy, Debug, PartialEq, Eq, Default)]
pub struct PointAnswer {
    pub refusal: u64,
    pub x: i64,
    pub y: i64,
    pub z: i64,
    pub w: i64,
}

impl From<Result<StepPoint, Refusal>> for PointAnswer {
    ghost from_gives = { λ answer numbers. numbers ≡ point_numbers (pointed_as answer) };

    #[tactic(auto, unfolding(crate::specs::Numbers::point_numbers, paper::specs::Answers::pointed_as, paper::specs::Refusals::answer_by))]
    fn from(answer: Result<StepPoint, Refusal>) -> PointAnswer {
        match answer {
            Ok(point) => PointAnswer {
                refusal: 0,
                x: point.steps[0],
                y: point.steps[1],
                z: point.steps[2],
                w: point.steps[3],
            },
            Err(refusal) => PointAnswer {
                refusal: refusal.number(),
                ..PointAnswer::default()
            },
        }
    }
}

// Kind 0: lift; 1: draw; 2: close. In millimetres.
#[repr(C)]
#[derive(Clone, Copy, Debug, Default)]
pub struct PenAnswer {
    pub refusal: u64,
    pub kind: u64,
    pub x: f64,
    pub y: f64,
    pub z: f64,
}

// A move to a point.
#[tactic(auto, unfolding(crate::specs::Numbers::with_point, paper::specs::Pen::millimetres_as))]
fn move_to(kind: u64, p: Millimetres) -> PenAnswer
    ensures { result ≡ with_point kind (millimetres_as p) }
{
    PenAnswer {
        refusal: 0,
        kind,
        x: p.x,
        y: p.y,
        z: p.z,
    }
}

impl From<Result<PenMove, Refusal>> for PenAnswer {
    ghost from_gives = { λ answer numbers. numbers ≡ pen_numbers (penned_as answer) };

    #[tactic(auto, unfolding(crate::specs::Numbers::without_point, crate::specs::Numbers::pen_numbers, paper::specs::Pen::move_as, paper::specs::Pen::penned_as, paper::specs::Refusals::answer_by))]
    fn from(answer: Result<PenMove, Refusal>) -> PenAnswer {
        match answer {
            Ok(PenMove::Lift(p)) => move_to(0, p),
            Ok(PenMove::Draw(p)) => move_to(1, p),
            Ok(PenMove::Close) => PenAnswer {
                kind: 2,
                ..PenAnswer::default()
            },
            Err(refusal) => PenAnswer {
                refusal: refusal.number(),
                ..PenAnswer::default()
            },
        }
    }
}
