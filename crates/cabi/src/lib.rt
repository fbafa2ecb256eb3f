// The C interface: each function hands on what an operation of document 01 or of a request answers, as a struct of numbers. A slice is a
// pointer and a length. Refusal 0 is none; beside a refusal, and where an answer does not use a field, the field is 0.

#![tactic(auto)]

ghost use Rattle.std.specs.Prelude.{◌≡◌, [], ◌∷◌, ◌+◌, ◌≤◌, length, take, drop};
ghost use Rattle.paper.specs.Operations.{opened, body_part, judged, pointed, stepped, traced, space_of, verdict_and_count, buffer_after};
ghost use Rattle.paper.specs.Pen.{penned};
ghost use Rattle.paper.specs.RunningSum.{running_summed};
ghost use Rattle.grounds.specs.Judged.{judged_by};
ghost use Rattle.small.specs.Small.{small_opened, small_traced};
ghost use Rattle.jobnumbers.specs.Numbers.{open_numbers, body_entry, body_numbers, write_numbers, sum_numbers, handed_in};
ghost use Rattle.judgenumbers.specs.Numbers.{judge_numbers, ground_numbers};
ghost use Rattle.pointnumbers.specs.Numbers.{point_numbers, is_set, pen_numbers};
ghost use Rattle.walknumbers.specs.Numbers.{step_numbers, trace_numbers};
ghost use Rattle.seamlist.specs.JobSeams.{seamed, extent_and_count, seams_after};
ghost use Rattle.nesting.specs.CutOrder.{ordered};
ghost use Rattle.assembly.specs.Assembled.{handed};
ghost use Rattle.assembly.specs.Written.{written, buffer_written};
ghost use Rattle.formula.specs.Read.{formula_terms, handed_back};
ghost use Rattle.seamnumbers.specs.Numbers.{seams_numbers, order_numbers};

use jobnumbers::{BodyAnswer, FormulaAnswer, OpenAnswer, SumAnswer, WriteAnswer};
use judgenumbers::{GroundAnswer, JudgeAnswer};
use paper::Vertex;
use pointnumbers::{PenAnswer, PointAnswer};
use seamnumbers::{OrderAnswer, SeamsAnswer};
use walknumbers::{StepAnswer, TraceAnswer};

// Open.
#[unsafe(no_mangle)]
pub extern "C" fn gethwapiko_open(job: &[u8]) -> OpenAnswer
    ensures { result ≡ open_numbers (opened job.now) }
{
    OpenAnswer::from(job::open(job))
}

// Body: where in the job the body lies; it is never outside the job.
#[unsafe(no_mangle)]
pub extern "C" fn gethwapiko_body(job: &[u8], index: u64) -> BodyAnswer
    ensures numbers { result ≡ body_numbers (body_entry job.now index) }
    ensures part { take result.length (drop result.offset job.now) ≡ body_part job.now index }
    ensures inside { result.offset + result.length ≤ length job.now }
{
    bodyentry::body_entry(job, index)
}

// Judge.
#[unsafe(no_mangle)]
pub extern "C" fn gethwapiko_judge(job: &[u8], place: &[u8]) -> JudgeAnswer
    ensures { result ≡ judge_numbers (judged job.now place.now) }
{
    JudgeAnswer::from(judge::judge(job, place))
}

// Judge with its ground.
#[unsafe(no_mangle)]
pub extern "C" fn gethwapiko_judge_ground(job: &[u8], place: &[u8]) -> GroundAnswer
    ensures { result ≡ ground_numbers (judged_by job.now place.now) }
{
    GroundAnswer::from(deciding::judge_ground(job, place))
}

// Point.
#[tactic(auto, using(crate::proofs::Padding::point_unpadded))]
#[unsafe(no_mangle)]
pub extern "C" fn gethwapiko_point(job: &[u8], place: &[u8]) -> PointAnswer
    ensures { result ≡ point_numbers (pointed job.now place.now) }
{
    PointAnswer::from(judge::point(job, place))
}

// Step.
#[tactic(auto, using(crate::proofs::Padding::step_unpadded))]
#[unsafe(no_mangle)]
pub extern "C" fn gethwapiko_step(job: &[u8], place: &[u8]) -> StepAnswer
    ensures { result ≡ step_numbers (stepped job.now place.now) }
{
    StepAnswer::from(step::step(job, place))
}

// Trace: the places are written to the buffer from its front on; a refusal touches nothing.
#[unsafe(no_mangle)]
pub extern "C" fn gethwapiko_trace(job: &[u8], buffer: &mut [u8]) -> TraceAnswer
    ensures answer { result ≡ trace_numbers (verdict_and_count (traced job.now (space_of job.now buffer.old))) }
    ensures written { buffer.new ≡ buffer_after (traced job.now (space_of job.now buffer.old)) buffer.old }
{
    TraceAnswer::from(trace::trace(job, buffer))
}

// Every seam in the box: one place for each is written to the buffer from its front on; a refusal touches nothing.
#[unsafe(no_mangle)]
pub extern "C" fn gethwapiko_seams(job: &[u8], buffer: &mut [u8]) -> SeamsAnswer
    ensures answer { result ≡ seams_numbers (extent_and_count (seamed job.now (space_of job.now buffer.old))) }
    ensures written { buffer.new ≡ seams_after (seamed job.now (space_of job.now buffer.old)) buffer.old }
{
    SeamsAnswer::from(scan::seams(job, buffer))
}

// The order of cutting: whether inner loops come before outer ones.
#[unsafe(no_mangle)]
pub extern "C" fn gethwapiko_cut_order(job: &[u8], places: &[u8]) -> OrderAnswer
    ensures { result ≡ order_numbers (ordered job.now places.now) }
{
    OrderAnswer::from(cutorder::cut_order(job, places))
}

// Writing a job from loose bodies: it stands in the buffer from its front on; a refusal touches nothing.
#[unsafe(no_mangle)]
pub extern "C" fn gethwapiko_write_job<'a>(
    n: u64,
    bias: u8,
    bounds: &'a [u8],
    polynomial1: &'a [u8],
    polynomial2: &'a [u8],
    polynomial3: &'a [u8],
    start: &'a [u8],
    buffer: &mut [u8],
) -> WriteAnswer
    ensures answer { result ≡ write_numbers (written (handed n bias bounds.now polynomial1.now polynomial2.now polynomial3.now start.now) buffer.old) }
    ensures written { buffer.new ≡ buffer_written (handed n bias bounds.now polynomial1.now polynomial2.now polynomial3.now start.now) buffer.old }
{
    WriteAnswer::from(assemble::write_job(
        n as usize,
        bias,
        bounds,
        polynomial1,
        polynomial2,
        polynomial3,
        start,
        buffer,
    ))
}

// Reading a formula.
#[unsafe(no_mangle)]
pub extern "C" fn gethwapiko_formula(n: u64, text: &[u8]) -> FormulaAnswer
    ensures { handed_in result ≡ handed_back (formula_terms n text.now) }
{
    FormulaAnswer::from(termlist::read_formula(n as usize, text))
}

// The small bench cutter's Open.
#[unsafe(no_mangle)]
pub extern "C" fn gethwapiko_small_open(job: &[u8]) -> OpenAnswer
    ensures { result ≡ open_numbers (small_opened job.now) }
{
    OpenAnswer::from(benchtop::open(job))
}

// The small bench cutter's Trace; a refusal touches nothing.
#[unsafe(no_mangle)]
pub extern "C" fn gethwapiko_small_trace(job: &[u8], buffer: &mut [u8]) -> TraceAnswer
    ensures answer { result ≡ trace_numbers (verdict_and_count (small_traced job.now (space_of job.now buffer.old))) }
    ensures written { buffer.new ≡ buffer_after (small_traced job.now (space_of job.now buffer.old)) buffer.old }
{
    TraceAnswer::from(benchtop::trace(job, buffer))
}

// Pen: move k of a list of places; any number but 0 marks the list as closed.
#[tactic(auto, unfolding(pointnumbers::specs::Numbers::is_set))]
#[unsafe(no_mangle)]
pub extern "C" fn gethwapiko_pen(job: &[u8], places: &[u8], closed: u8, k: u64) -> PenAnswer
    ensures { result ≡ pen_numbers (penned job.now places.now (is_set closed) k) }
{
    PenAnswer::from(pen::pen(job, places, closed != 0, k as usize))
}

// The running sum of a polynomial, numbered from 0, at the vertex x y z w, from its last term to its first, after so many terms.
#[unsafe(no_mangle)]
pub extern "C" fn gethwapiko_running_sum(
    job: &[u8],
    polynomial: u64,
    x: i64,
    y: i64,
    z: i64,
    w: i64,
    terms: u64,
) -> SumAnswer
    ensures { result ≡ sum_numbers (running_summed job.now polynomial (x ∷ y ∷ z ∷ w ∷ []) terms) }
{
    let coordinates = [x, y, z, w];
    let v = Vertex { coordinates };
    SumAnswer::from(sums::running_sum(job, polynomial as usize, v, terms as usize))
}
