// The point of a crossed facet: the sums of the weights, each rounded to the nearest 1/1024.

#![tactic(auto)]

pub mod rounding;

ghost use Rattle.std.specs.Prelude.{◌≡◌, cond, true, ◌<◌};
ghost use Rattle.exact.specs.Int.{0ℤ};
ghost use Rattle.exact.specs.Size.{Size, Is};
ghost use Rattle.exact.specs.Det.{determinant};
ghost use Rattle.exact.specs.Crossed.{coefficient, crossed};
ghost use Rattle.paper.specs.Values.{has_axis, weight_sum, coordinate_steps, point_from};
ghost use Rattle.paper.specs.Answers.{padded};
ghost use Rattle.places.specs.Held.{vertex_as, masks_as, VertexSize};
ghost use Rattle.determinants.specs.Cells.{Cells, facet_columns};
ghost use Rattle.determinants.specs.Entries.{coefficient_limit, determinant_limit};
ghost use Rattle.points.specs.Shares.{Share, denominator_limit, low_limit};

use bits::read::size;
use determinants::{coefficient, determinant};
use paper::{HeldPlace, StepPoint};
use rounding::share_steps;

// The coefficient of power 0 at vertex i if the vertex's mask has the axis, else 0.
fn weight(n: usize, cells: &[i64; 15], i: usize, mask: u64, axis: usize) -> i64
    requires cells { Cells n cells.now }
    requires i_lt_n { (i < n) × (axis < 4) }
    ensures { Is coefficient_limit (cond (has_axis mask axis) (coefficient n (facet_columns n cells.now n) i 0) 0ℤ) result }
{
    if (mask >> axis) % 2 == 1 {
        coefficient(n, cells, n, i, 0)
    } else {
        0
    }
}

// The sum of the weights, times D, of those vertices whose mask has the axis. A loop, for the reason that `determinant` has.
fn weight_sum(n: usize, p: HeldPlace, cells: &[i64; 15], axis: usize) -> i64
    requires cells { Cells n cells.now }
    requires axis_bound { axis < 4 }
    ensures { Is determinant_limit (weight_sum n (facet_columns n cells.now n) 1 (masks_as n p) axis) result }
{
    let mut sum = 0;
    for i in 1..n {
        sum += weight(n, cells, i, p.masks[i - 1], axis);
    }
    sum
}

// One coordinate of the point: 1024 times the lowest vertex's, plus the steps of the share that the weights make.
pub fn coordinate(low: i64, num: i64, d: i64) -> i64
    requires { (Size low_limit low) × ((Size denominator_limit d) × (Share num d)) }
    ensures { result ≡ coordinate_steps low num d }
{
    let steps = share_steps(size(num), size(d));
    1024 * low + steps as i64
}

// The point of a crossed facet, in steps of 1/1024; a coordinate from n on is 0.
pub fn point(n: usize, p: HeldPlace, cells: &[i64; 15]) -> StepPoint
    requires cells { Cells n cells.now }
    requires n_value { crossed n (facet_columns n cells.now n) ≡ true }
    requires vertex_size { VertexSize low_limit p.low }
    ensures { result.steps ≡ padded 0ℤ 4 (point_from n (facet_columns n cells.now n) (masks_as n p) 0 (vertex_as n p.low)) }
{
    let d = determinant(n, cells, n);
    let mut steps = [0; 4];
    for axis in 0..n {
        steps[axis] = coordinate(p.low.coordinates[axis], weight_sum(n, p, cells, axis), d);
    }
    StepPoint { steps }
}
