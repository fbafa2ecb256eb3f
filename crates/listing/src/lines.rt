// The listing of a job as text: document 01, section "The listing".

ghost use Rattle.std.specs.Prelude.{◌≡◌, ◌+◌, ◌*◌, ◌≤◌, length};
ghost use Rattle.paper.specs.Listing.{place_lines, listing_lines, listing_space, listing};
ghost use Rattle.paper.specs.Operations.{answered, traced, buffer_after};
ghost use Rattle.paper.specs.Demand3.{read_places};
ghost use Rattle.decimals.specs.Written.{Writes};
ghost use Rattle.text.specs.Lines.{line_limit};
ghost use Rattle.listing.specs.Room.{places_room, text_room};
ghost use Rattle.listing.specs.Listed.{listed_trace, listed_as, places_after};
ghost use Rattle.listing.specs.Shown.{line_of, HasLine, HaveLines};

use job::OpenJob;
use paper::{Refusal, Traced};

// The bytes that a job may have.
const LONGEST_JOB: usize = 2048;

// The line of the place in 3n bytes.
fn put_line(job: OpenJob<'_>, place: &[u8], out: &mut [u8], at: usize) -> usize
    requires { (HasLine job.n job.bytes.now place.now) × (at + line_limit ≤ length out.old) }
    ensures { Writes line_limit (line_of job.entry.bytes.now place.now) at out.old out.new result }
{
    let p = places::read_place(job.n, place);
    let q = judge::point_in(job, place).unwrap();
    text::put_place(out, at, job.n, p, q)
}

// A line for each of the places that stand one after another at the front of the bytes. The loop is that of the program `seams` but for the call, with
// one law for both (crate input): a closure for the call would be no plainer.
fn put_places(job: OpenJob<'_>, places: &[u8], count: u64, out: &mut [u8], at: usize) -> usize
    requires { (HaveLines job.n job.bytes.now count places.now) × (at + line_limit * count ≤ length out.old) }
    ensures { Writes (line_limit * count) (place_lines job.entry.bytes.now (read_places job.entry.n count places.now)) at out.old out.new result }
{
    let width = 3 * job.n;
    let mut end = at;
    for i in 0..count as usize {
        end = put_line(job, &places[i * width..i * width + width], out, end);
    }
    end
}

// The trace with space for 4,096 places; the places stand at the front of the bytes.
fn trace_listed(job: OpenJob<'_>, places: &mut [u8]) -> Result<Traced, Refusal>
    requires { length places.old ≡ places_room }
    ensures answer { listed_as job.entry.bytes.now places.new result ≡ traced job.entry.bytes.now listing_space }
    ensures written { places.new ≡ buffer_after (traced job.entry.bytes.now listing_space) places.old }
{
    let room = 12288 * job.n;
    trace::trace_in(job, &mut places[..room])
}

// The lines of a trace: n, verdict and count, then the places.
fn put_trace(job: OpenJob<'_>, places: &[u8], found: Traced, out: &mut [u8]) -> usize
    requires { (traced job.bytes.now listing_space ≡ answered (listed_trace job.bytes.now places.now found)) × ((length places.now ≡ places_room) × (text_room ≤ length out.old)) }
    ensures { Writes text_room (listing_lines job.entry.bytes.now (traced job.entry.bytes.now listing_space)) 0 out.old out.new result }
{
    let at = text::put_first(out, 0, job.n as u64, found.verdict, found.count);
    put_places(job, places, found.count, out, at)
}

// The listing of a job that has opened.
fn put_opened(job: OpenJob<'_>, places: &mut [u8], out: &mut [u8]) -> usize
    requires { (length places.old ≡ places_room) × (text_room ≤ length out.old) }
    ensures text { Writes text_room (listing_lines job.entry.bytes.now (traced job.entry.bytes.now listing_space)) 0 out.old out.new result }
    ensures written { places.new ≡ buffer_after (traced job.entry.bytes.now listing_space) places.old }
{
    match trace_listed(job, places) {
        Ok(found) => put_trace(job, places, found, out),
        Err(refusal) => text::put_refused(out, 0, refusal.number()),
    }
}

// The whole listing at the front of a buffer: more than 2,048 bytes is refusal 5, before any other test.
pub fn put_listing(job: &[u8], places: &mut [u8], out: &mut [u8]) -> usize
    requires { (length places.old ≡ places_room) × (text_room ≤ length out.old) }
    ensures text { Writes text_room (listing job.now) 0 out.old out.new result }
    ensures written { places.new ≡ places_after job.now places.old }
{
    if job.len() > LONGEST_JOB {
        return text::put_refused(out, 0, Refusal::Contents.number());
    }
    match OpenJob::open(job) {
        Ok(job) => put_opened(job, places, out),
        Err(unopened) => text::put_refused(out, 0, unopened.number()),
    }
}
