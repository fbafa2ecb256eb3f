// The public answers of the operations, as document 01 and the requests word them. What each case means, its number and its values, is
// said in specs/Refusals.antt and specs/Answers.antt; what an operation answers is defined in specs/Operations.antt, Pen.antt and RunningSum.antt.

#![tactic(auto)]

ghost use Rattle.std.specs.Prelude.{◌≡◌};
ghost use Rattle.paper.specs.Refusals.{refusal_number};
ghost use Rattle.paper.specs.Stops.{refusal_of, verdict_of};

// Why an operation refuses; the numbers are the paper's.
#[derive(Clone, Copy, Debug, PartialEq, Eq)]
pub enum Refusal {
    // fewer than 4 bytes
    Short = 1,
    // byte 0
    Version = 2,
    Dimension = 3,
    EntryCount = 4,
    // the contents cut short, bodies not adjacent, or a length wrong for its kind
    Contents = 5,
    Bounds = 6,
    // a term or the order of terms
    Terms = 7,
    // the start's chain or side
    Start = 8,
    // a vertex outside the box
    Outside = 9,
    // a vertex value not readable
    Unreadable = 10,
    NotCrossed = 11,
    // no such body, polynomial, count of terms or index of a place
    Index = 12,
    // the length or the form of places
    Place = 13,
    // a text outside the language of formulas
    Language = 14,
    // a formula nested too deep, over a limit of a term, or zero
    Formula = 15,
    // the buffer is shorter than the job
    Room = 16,
    // the small bench cutter does not take the job
    SmallCutter = 17,
    // no loop, or one that already came
    NoNewLoop = 18,
}

impl Refusal {
    pub fn number(self) -> u64
        ensures { result ≡ refusal_number self }
    {
        self as u64
    }
}

// Open: the dimension and each polynomial's count of terms, 0 for one that the dimension does not have.
#[derive(Clone, Copy, Debug, PartialEq, Eq)]
pub struct Opened {
    pub n: u64,
    pub terms: [u64; 3],
}

// A lattice vertex: its coordinates on axes 1 to 4, of which the first n count.
#[derive(Clone, Copy, Debug, PartialEq, Eq)]
pub struct Vertex {
    pub coordinates: [i64; 4],
}

// A place: the lowest vertex, the masks, of which the first n − 1 count, and the side. In an answer numbers that do not count are 0. The side is
// a number of the place's bytes as the masks are: a place that is read may have any, and the test of its form says which are right.
#[derive(Clone, Copy, Debug, PartialEq, Eq)]
pub struct HeldPlace {
    pub low: Vertex,
    pub masks: [u64; 3],
    pub side: u64,
}

// A point in steps of 1/1024, axis by axis; 0 from axis n on.
#[derive(Clone, Copy, Debug, PartialEq, Eq)]
pub struct StepPoint {
    pub steps: [i64; 4],
}

// Why a step has no next place: a vertex of the simplex lies outside the box, or a value is not readable.
#[derive(Clone, Copy, Debug, PartialEq, Eq)]
pub enum Stop {
    Edge,
    Limit,
}

// Of a facet it is a refusal.
impl From<Stop> for Refusal {
    ghost from_gives = { λ stop refusal. refusal ≡ refusal_of stop };

    fn from(stop: Stop) -> Refusal {
        match stop {
            Stop::Edge => Refusal::Outside,
            Stop::Limit => Refusal::Unreadable,
        }
    }
}

// The verdicts of Trace.
#[derive(Clone, Copy, Debug, PartialEq, Eq)]
pub enum Verdict {
    Loop,
    Edge,
    Limit,
    Full,
}

impl From<Stop> for Verdict {
    ghost from_gives = { λ stop verdict. verdict ≡ verdict_of stop };

    fn from(stop: Stop) -> Verdict {
        match stop {
            Stop::Edge => Verdict::Edge,
            Stop::Limit => Verdict::Limit,
        }
    }
}

// Trace: the verdict and the count of places written.
#[derive(Clone, Copy, Debug, PartialEq, Eq)]
pub struct Traced {
    pub verdict: Verdict,
    pub count: u64,
}

// A point in millimetres, on axes 1 to 3; z is 0 in dimension 2.
#[derive(Clone, Copy, Debug)]
pub struct Millimetres {
    pub x: f64,
    pub y: f64,
    pub z: f64,
}

// The moves of the pen.
#[derive(Clone, Copy, Debug)]
pub enum PenMove {
    Lift(Millimetres),
    Draw(Millimetres),
    Close,
}
