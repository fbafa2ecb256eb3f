// Pen of document 01: the pen's move at an index of a list of places, with its point in millimetres.

#![tactic(auto)]

ghost use Rattle.std.specs.Prelude.{◌≡◌, map, take};
ghost use Rattle.exact.specs.Size.{Size};
ghost use Rattle.paper.specs.Pen.{millimetre, millimetres_as, penned, penned_as};
ghost use Rattle.pen.specs.Moves.{whole_limit, StepSizes, closes_at, moved_to};

use job::OpenJob;
use paper::{Millimetres, PenMove, Refusal, StepPoint};

// A number of steps in millimetres: cast without loss, then divided by 1024 without rounding.
fn millimetre(steps: i64) -> f64
    requires { Size whole_limit steps }
    ensures { result ≡ millimetre steps }
{
    steps as f64 / 1024.0
}

// A point in millimetres, on axes 1 to 3.
fn millimetres(p: StepPoint) -> Millimetres
    requires { StepSizes p }
    ensures { millimetres_as result ≡ map millimetre (take 3 p.steps) }
{
    let [x, y, z, _] = p.steps;
    Millimetres {
        x: millimetre(x),
        y: millimetre(y),
        z: millimetre(z),
    }
}

// The index is the count of places, which is above 0, and the mark is set.
fn closes(count: usize, closed: bool, k: usize) -> bool
    ensures { result ≡ closes_at count closed k }
{
    k == count && (0 < count && closed)
}

// Place k: 13, 9, 10, 11, else a lift to its point for k = 0 and a draw for any other.
fn move_to(job: OpenJob<'_>, place: &[u8], k: usize) -> Result<PenMove, Refusal>
    ensures { penned_as result ≡ moved_to job.entry.bytes.now place.now k }
{
    let point = millimetres(judge::point_in(job, place)?);
    if k == 0 {
        Ok(PenMove::Lift(point))
    } else {
        Ok(PenMove::Draw(point))
    }
}

// Open's refusals; 13 if the length is not a multiple of 3n; a close, which looks at no place; 12; then place k.
pub fn pen(job: &[u8], places: &[u8], closed: bool, k: usize) -> Result<PenMove, Refusal>
    ensures { penned_as result ≡ penned job.now places.now closed k }
{
    let job = OpenJob::open(job)?;
    let size = 3 * job.n;
    let count = places.len() / size;
    if places.len() % size != 0 {
        Err(Refusal::Place)
    } else if closes(count, closed, k) {
        Ok(PenMove::Close)
    } else if count <= k {
        Err(Refusal::Index)
    } else {
        let from = size * k;
        move_to(job, &places[from..from + size], k)
    }
}
