// Every seam in a job's box: document 02, request 2.4. The lowest vertices are taken in order, at each of them the facets in order, and a facet that
// is the least of its seam is written.

#![tactic(auto)]

ghost use Rattle.std.specs.Prelude.{◌≡◌, map, [], ◌∷◌, ◌≤◌};
ghost use Rattle.curves.specs.Box.{keep, chains};
ghost use Rattle.paper.specs.Operations.{space_of, answered};
ghost use Rattle.seamlist.specs.JobSeams.{seamed, extent_and_count, seams_after};
ghost use Rattle.seamlist.specs.Answers.{seamed_as, extent_count};
ghost use Rattle.places.specs.Held.{vertex_as, facet_as, VertexSize};
ghost use Rattle.least.specs.Search.{least_in};
ghost use Rattle.chains.specs.Chains.{chain_array, facet_on};
ghost use Rattle.scan.specs.Scanned.{space_for, ScannedIs, OnCube, CubeAt, CubeRoom};

use job::OpenJob;
use least::search;
use paper::{HeldPlace, Refusal, Vertex};
use seamlist::{Extent, Seamed};

// The facet is the least of its seam.
fn is_seam(job: OpenJob<'_>, p: HeldPlace, values: &[i64; 48], known: &[bool; 16]) -> bool
    requires { OnCube job.bytes.now job.n p values.now known.now }
    ensures { result ≡ least_in job.entry.bytes.now (facet_as job.entry.n p) }
{
    let mut front = [0i64; 15];
    if !cube::take_facet(job.n, p, values, known, &mut front) {
        return false;
    }
    if !facets::crossed(job.n, &front, job.n) {
        return false;
    }
    let mut back = front;
    search::is_least(job, p, &mut front, &mut back)
}

// One facet: its place is written if it is the least of its seam; the number of places written so far, or none where there is no space for one more.
fn at_facet(
    job: OpenJob<'_>,
    p: HeldPlace,
    values: &[i64; 48],
    known: &[bool; 16],
    count: usize,
    buffer: &mut [u8],
) -> Option<usize>
    requires { (OnCube job.bytes.now job.n p values.now known.now) × (count ≤ space_for job.n buffer.old) }
    ensures { ScannedIs job.entry.n buffer.old count (keep (least_in job.entry.bytes.now) (facet_as job.entry.n p ∷ [])) buffer.new result }
{
    if !is_seam(job, p, values, known) {
        return Some(count);
    }
    let size = 3 * job.n;
    if buffer.len() / size <= count {
        return None;
    }
    stored::write_place(buffer, count * size, job.n, p);
    Some(count + 1)
}

// All facets with a lowest vertex.
fn at_vertex(
    job: OpenJob<'_>,
    v: Vertex,
    table: &[u16; 75],
    values: &[i64; 48],
    known: &[bool; 16],
    count: usize,
    buffer: &mut [u8],
) -> Option<usize>
    requires { (CubeAt job.bytes.now job.n v values.now known.now) × ((table.now ≡ chain_array) × (count ≤ space_for job.n buffer.old)) }
    ensures { ScannedIs job.entry.n buffer.old count (keep (least_in job.entry.bytes.now) (map (facet_on (vertex_as job.entry.n v)) (chains job.entry.n))) buffer.new result }
{
    let begin = chains::first(job.n);
    let mut found = count;
    for chain in &table[begin..begin + chains::count(job.n)] {
        let p = chains::place_on(v, *chain);
        found = at_facet(job, p, values, known, found, buffer)?;
    }
    Some(found)
}

// The values of the cube above a vertex, and then all facets with it as their lowest; none is judged where a polynomial has one side only. What is
// lent for the whole box stays in parameters: a struct of lent arrays would be lent again at each vertex.
fn scan_vertex(
    job: OpenJob<'_>,
    v: Vertex,
    table: &[u16; 75],
    one: &mut [i64; 15],
    values: &mut [i64; 48],
    known: &mut [bool; 16],
    count: usize,
    buffer: &mut [u8],
) -> Option<usize>
    requires vertex { (VertexSize 1024 v) × ((table.now ≡ chain_array) × (count ≤ space_for job.n buffer.old)) }
    requires cube_room { CubeRoom job.n one.old values.old known.old }
    ensures seams { ScannedIs job.entry.n buffer.old count (keep (least_in job.entry.bytes.now) (map (facet_on (vertex_as job.entry.n v)) (chains job.entry.n))) buffer.new result }
    ensures room { CubeRoom job.entry.n one.new values.new known.new }
{
    cube::fill(job, v, one, values, known);
    if cube::one_sided(job.n, values, known) {
        return Some(count);
    }
    at_vertex(job, v, table, values, known, count, buffer)
}

// Every seam, in a job that has opened: the count of places written to the buffer from its front on, one for each seam, and whether these are all.
// Bytes past the last place written keep their values.
pub fn seams_in(job: OpenJob<'_>, buffer: &mut [u8]) -> Seamed
    ensures answer { answered (extent_count result) ≡ extent_and_count (seamed job.entry.bytes.now (space_of job.entry.bytes.now buffer.old)) }
    ensures written { buffer.new ≡ seams_after (seamed job.entry.bytes.now (space_of job.entry.bytes.now buffer.old)) buffer.old }
{
    let frame = numbered::frame_of(job);
    let table = chains::table();
    let mut one = [0i64; 15];
    let mut values = cube::no_values();
    let mut known = cube::none_known();
    let mut count: usize = 0;
    for i in 0..frame.size {
        let v = numbered::vertex_at(frame, i);
        let met = scan_vertex(
            job,
            v,
            &table,
            &mut one,
            &mut values,
            &mut known,
            count,
            buffer,
        );
        match met {
            Some(next) => count = next,
            None => {
                return Seamed {
                    extent: Extent::Full,
                    count: (buffer.len() / (3 * job.n)) as u64,
                };
            }
        }
    }
    Seamed {
        extent: Extent::Complete,
        count: count as u64,
    }
}

// Every seam in a box: the refusal, or what is written. A refusal touches nothing.
pub fn seams(job: &[u8], buffer: &mut [u8]) -> Result<Seamed, Refusal>
    ensures answer { seamed_as result ≡ extent_and_count (seamed job.now (space_of job.now buffer.old)) }
    ensures written { buffer.new ≡ seams_after (seamed job.now (space_of job.now buffer.old)) buffer.old }
{
    let job = OpenJob::open(job)?;
    Ok(seams_in(job, buffer))
}
