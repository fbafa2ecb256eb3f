// The columns of facets and simplices: the values at their vertices, document 01, section "Crossed".

#![tactic(auto)]

ghost use Rattle.std.specs.Prelude.{◌≡◌, ◌∷◌};
ghost use Rattle.places.specs.Held.{facet_as, VertexSize};
ghost use Rattle.determinants.specs.Cells.{Cells};
ghost use Rattle.lattice.specs.Moves.{move_limit};
ghost use Rattle.columns.specs.Vertices.{simplex_vertices};
ghost use Rattle.columns.specs.Found.{FacetFound, SimplexFound};

use job::OpenJob;
use paper::{HeldPlace, Refusal, Stop, Vertex};

// The vertices that a base and masks name, and their columns.
pub mod masks;

// The masks of a facet's vertices, of which the first n count: 0 for the lowest, then the place's.
pub fn facet_masks(p: HeldPlace) -> [u64; 4]
    ensures { result ≡ 0 ∷ p.masks }
{
    let [first, second, third] = p.masks;
    [0, first, second, third]
}

// A facet's columns: refused if a vertex lies outside the box, or a value is not readable.
pub fn facet_values(job: OpenJob<'_>, p: HeldPlace, cells: &mut [i64; 15]) -> Result<(), Refusal>
    requires { (VertexSize move_limit p.low) × (Cells job.n cells.old) }
    ensures { FacetFound job.entry.bytes.now job.entry.n (facet_as job.entry.n p) result cells.new }
{
    masks::values_at(job, p.low, &facet_masks(p)[..job.n], cells)?;
    Ok(())
}

// A simplex's columns: it stops a step if a vertex lies outside the box, or a value is not readable.
pub fn simplex_values(
    job: OpenJob<'_>,
    corner: Vertex,
    masks: [u64; 4],
    cells: &mut [i64; 15],
) -> Result<(), Stop>
    requires { (VertexSize move_limit corner) × (Cells job.n cells.old) }
    ensures { SimplexFound job.entry.bytes.now job.entry.n (simplex_vertices job.entry.n corner masks) result cells.new }
{
    let [first, second, third, fourth] = masks;
    let all = [0, first, second, third, fourth];
    masks::values_at(job, corner, &all[..job.n + 1], cells)
}
