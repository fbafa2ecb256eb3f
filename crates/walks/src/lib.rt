// A trace: place after place is written, up to the verdict.

#![tactic(auto)]

ghost use Rattle.std.specs.Prelude.{◌+◌, ◌*◌, ◌≤◌, length};
ghost use Rattle.step.specs.Held.{Held};
ghost use Rattle.carried.specs.Carries.{Carries};
ghost use Rattle.walks.specs.Visited.{Visits, Walks};

use carried::Entered;
use job::OpenJob;
use paper::{HeldPlace, Traced, Verdict};

// Writes a place, and looks ahead: edge or limit, then loop, else the next place.
pub fn visit(
    job: OpenJob<'_>,
    start: HeldPlace,
    here: Entered,
    at: usize,
    cells: &mut [i64; 15],
    buffer: &mut [u8],
) -> Result<Entered, Verdict>
    requires { (Held job.bytes.now job.n start) × ((Carries job.bytes.now job.n here cells.old) × (at + 3 * job.n ≤ length buffer.old)) }
    ensures { Visits job.entry.bytes.now job.entry.n start here.place at buffer.old buffer.new result cells.new }
{
    stored::write_place(buffer, at, job.n, here.place);
    ahead::look_ahead(job, start, here, cells)
}

// The trace from a place with what is carried there, with the space that the buffer has.
pub fn walk(job: OpenJob<'_>, start: Entered, cells: &mut [i64; 15], buffer: &mut [u8]) -> Traced
    requires { Carries job.bytes.now job.n start cells.old }
    ensures { Walks job.entry.bytes.now job.entry.n start.place buffer.old buffer.new result }
{
    let size = 3 * job.n;
    let space = buffer.len() / size;
    let mut here = start;
    for count in 0..space {
        match visit(job, start.place, here, count * size, cells, buffer) {
            Ok(next) => here = next,
            Err(verdict) => {
                return Traced {
                    verdict,
                    count: count as u64 + 1,
                };
            }
        }
    }
    Traced {
        verdict: Verdict::Full,
        count: space as u64,
    }
}
