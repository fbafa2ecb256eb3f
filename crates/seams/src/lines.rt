// Every seam in the box of a job as text: a first line, and a line for each seam.

ghost use Rattle.std.specs.Prelude.{◌≡◌, ◌+◌, ◌*◌, ◌≤◌, length};
ghost use Rattle.paper.specs.Job.{decode_place};
ghost use Rattle.paper.specs.Listing.{listing_space};
ghost use Rattle.paper.specs.Operations.{answered};
ghost use Rattle.paper.specs.Answers.{verdict_as};
ghost use Rattle.paper.specs.Demand3.{read_places};
ghost use Rattle.bits.specs.Axes.{Axes};
ghost use Rattle.places.specs.Held.{place_as};
ghost use Rattle.decimals.specs.Written.{Writes};
ghost use Rattle.seamlist.specs.Answers.{extent_of};
ghost use Rattle.seamlist.specs.JobSeams.{seamed};
ghost use Rattle.seamlist.specs.SeamText.{extent_word, seams_first_line, curve_line, seam_line, seam_lines, seams_lines, seams_text};
ghost use Rattle.seams.specs.Room.{first_limit, seam_limit, places_room, text_room};
ghost use Rattle.seams.specs.Listed.{listed_seams};
ghost use Rattle.seams.specs.Shown.{HasLine, HaveLines};

use decimals::{put_byte, put_decimal, put_signed, put_word};
use job::OpenJob;
use paper::{HeldPlace, Refusal, Traced};
use seamlist::{Extent, Seamed};

// The bytes that a job may have.
const LONGEST_JOB: usize = 2048;

// ---- the first line

// All seams are listed, or one more remains.
fn put_extent(out: &mut [u8], at: usize, extent: Extent) -> usize
    requires { at + 8 ≤ length out.old }
    ensures { Writes 8 (extent_word (extent_of extent)) at out.old out.new result }
{
    match extent {
        Extent::Complete => put_word(out, at, b"complete"),
        Extent::Full => put_word(out, at, b"full"),
    }
}

// n, extent, count. As `text::put_first`, with another word: one function for both would be proved against two definitions of a first line.
fn put_first(out: &mut [u8], at: usize, n: u64, found: Seamed) -> usize
    requires { at + first_limit ≤ length out.old }
    ensures { Writes first_limit (seams_first_line n (extent_of found.extent) found.count) at out.old out.new result }
{
    let a = put_decimal(out, at, n);
    let b = put_byte(out, a, b' ');
    let c = put_extent(out, b, found.extent);
    let d = put_byte(out, c, b' ');
    let e = put_decimal(out, d, found.count);
    put_byte(out, e, b'\n')
}

// ---- a line for each seam

// Lowest vertex and masks, the numbers of each that count; then side, verdict, count.
fn put_curve(out: &mut [u8], at: usize, n: usize, p: HeldPlace, found: Traced) -> usize
    requires { (Axes n) × (at + seam_limit ≤ length out.old) }
    ensures { Writes seam_limit (curve_line (place_as n p) (verdict_as found.verdict) found.count) at out.old out.new result }
{
    let a = put_signed(out, at, p.low.coordinates[0]);
    let b = text::put_numbers(out, a, &p.low.coordinates[1..n]);
    let c = text::put_masks(out, b, &p.masks[..n - 1]);
    let d = put_byte(out, c, b' ');
    text::put_first(out, d, p.side, found.verdict, found.count)
}

// The line of the seam whose place stands in 3n bytes: the curve is walked once more, for its verdict and count.
fn put_seam(job: OpenJob<'_>, place: &[u8], out: &mut [u8], at: usize) -> usize
    requires { (HasLine job.n job.bytes.now place.now) × (at + seam_limit ≤ length out.old) }
    ensures { Writes seam_limit (seam_line job.entry.bytes.now (decode_place job.entry.n place.now)) at out.old out.new result }
{
    let p = places::read_place(job.n, place);
    let found = lengths::trace_length(job, place).unwrap();
    put_curve(out, at, job.n, p, found)
}

// A line for each of the places that stand one after another at the front of the bytes. The loop is that of the program `listing` but for the call, with
// one law for both (crate input): a closure for the call would be no plainer.
fn put_seams(job: OpenJob<'_>, places: &[u8], count: u64, out: &mut [u8], at: usize) -> usize
    requires { (HaveLines job.n job.bytes.now count places.now) × (at + seam_limit * count ≤ length out.old) }
    ensures { Writes (seam_limit * count) (seam_lines job.entry.bytes.now (read_places job.entry.n count places.now)) at out.old out.new result }
{
    let width = 3 * job.n;
    let mut end = at;
    for i in 0..count as usize {
        end = put_seam(job, &places[i * width..i * width + width], out, end);
    }
    end
}

// ---- the whole

// The seams with space for 4,096; their places stand at the front of the bytes.
fn seams_listed(job: OpenJob<'_>, places: &mut [u8]) -> Seamed
    requires { length places.old ≡ places_room }
    ensures { seamed job.entry.bytes.now listing_space ≡ answered (listed_seams job.entry.bytes.now places.new result) }
{
    let room = 12288 * job.n;
    scan::seams_in(job, &mut places[..room])
}

// The text of a job that has opened: n, extent and count, then the seams.
fn put_opened(job: OpenJob<'_>, places: &mut [u8], out: &mut [u8]) -> usize
    requires { (length places.old ≡ places_room) × (text_room ≤ length out.old) }
    ensures { Writes text_room (seams_lines job.entry.bytes.now (seamed job.entry.bytes.now listing_space)) 0 out.old out.new result }
{
    let found = seams_listed(job, places);
    let at = put_first(out, 0, job.n as u64, found);
    put_seams(job, places, found.count, out, at)
}

// The whole text at the front of a buffer: more than 2,048 bytes is refusal 5, before any other test.
pub fn put_text(job: &[u8], places: &mut [u8], out: &mut [u8]) -> usize
    requires { (length places.old ≡ places_room) × (text_room ≤ length out.old) }
    ensures { Writes text_room (seams_text job.now) 0 out.old out.new result }
{
    if job.len() > LONGEST_JOB {
        return text::put_refused(out, 0, Refusal::Contents.number());
    }
    match OpenJob::open(job) {
        Ok(job) => put_opened(job, places, out),
        Err(unopened) => text::put_refused(out, 0, unopened.number()),
    }
}
