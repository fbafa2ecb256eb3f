// The vertices of a job's box by number, axis 1 weighing most: document 02, request 2.4.

#![tactic(auto)]

ghost use Rattle.std.specs.Prelude.{◌≡◌, ℕ, ◌<◌, List};
ghost use Rattle.curves.specs.Box.{span};
ghost use Rattle.paper.specs.Job.{low_end, high_end};
ghost use Rattle.bits.specs.Axes.{Axes};
ghost use Rattle.places.specs.Held.{vertex_as, VertexSize};
ghost use Rattle.seamlist.specs.BoxIndex.{numbered};
ghost use Rattle.seamlist.specs.JobSeams.{low_ends, high_ends};
ghost use Rattle.numbered.specs.Frame.{BoxOf, AxisSize, FrameFits, BoxFrame, FrameIs};

use bits::read;
use job::OpenJob;
use paper::Vertex;

// The box as a scan goes over it: its lowest vertex, how many vertices it has, and how far apart in number two neighbours on each axis are: the
// vertices that the axes behind it make (`behind`). An axis that the dimension does not have has one vertex, with coordinate 0.
#[derive(Clone, Copy)]
pub struct Frame {
    pub low: Vertex,
    pub size: usize,
    pub behind: [usize; 4],
}

// The vertices of an axis.
fn axis_size(bounds: &[u8], n: usize, a: usize) -> usize
    requires { (BoxOf n bounds.now) × (a < n) }
    ensures { AxisSize (span (low_end bounds.now a) (high_end bounds.now a)) result }
{
    let low = read::signed_word(bounds, 4 * a);
    let high = read::signed_word(bounds, 4 * a + 2);
    (high + 1 - low) as usize
}

// The box in bytes that are right, from the last axis on.
fn box_frame(bounds: &[u8], n: usize) -> Frame
    requires { (Axes n) × (BoxOf n bounds.now) }
    ensures { BoxFrame bounds.now n result }
{
    let mut coordinates = [0; 4];
    let mut behind = [1; 4];
    let mut size = 1;
    for a in (0..n).rev() {
        coordinates[a] = read::signed_word(bounds, 4 * a);
        behind[a] = size;
        size *= axis_size(bounds, n, a);
    }
    Frame {
        low: Vertex { coordinates },
        size,
        behind,
    }
}

// The box of a job that has opened.
pub fn frame_of(job: OpenJob<'_>) -> Frame
    ensures { FrameIs job.entry.bytes.now job.entry.n result }
{
    box_frame(job.body(0), job.n)
}

// The vertex with number i. Behind the last axis is one vertex, so what is left of the number is the steps on it, without a division.
pub fn vertex_at(f: Frame, i: usize) -> Vertex
    requires { (FrameFits f) × (i < f.size) }
    ensures vertex_size { VertexSize 1024 result }
    ensures by_index { (s : List ℕ) (n : ℕ) → FrameIs s n f → vertex_as n result ≡ numbered (low_ends s) (high_ends s) i }
{
    let mut coordinates = f.low.coordinates;
    let mut rest = i;
    for a in 0..3 {
        coordinates[a] += (rest / f.behind[a]) as i64;
        rest %= f.behind[a];
    }
    coordinates[3] += rest as i64;
    Vertex { coordinates }
}
