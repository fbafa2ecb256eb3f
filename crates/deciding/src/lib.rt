// Judge in the form that names its ground (request 2.9).

#![tactic(auto)]

ghost use Rattle.std.specs.Prelude.{◌≡◌, ◌≢◌, ◌<◌, ◌↔◌, IsTrue, map, take};
ghost use Rattle.exact.specs.Int.{0ℤ};
ghost use Rattle.exact.specs.Sign.{sign};
ghost use Rattle.exact.specs.Det.{determinant};
ghost use Rattle.exact.specs.Crossed.{count_from, coefficient};
ghost use Rattle.paper.specs.Operations.{judged};
ghost use Rattle.grounds.specs.Ground.{deciding_power, ground};
ghost use Rattle.grounds.specs.Judged.{named_as, judged_by, judged_by_as, plainly};
ghost use Rattle.determinants.specs.Cells.{Cells, facet_columns};
ghost use Rattle.facets.specs.Signs.{sign_as};
ghost use Rattle.deciding.specs.Against.{FirstAgainst};

use determinants::{coefficient, determinant};
use facets::sign_of;
use grounds::{NamedGround, Powers};
use job::OpenJob;
use paper::Refusal;
use std::cmp::Ordering;

// The power that decides vertex i of the facet: the lowest whose coefficient is not 0; n, as the request has it, if there is none.
fn deciding_power(n: usize, cells: &[i64; 15], i: usize) -> usize
    requires cells { Cells n cells.now }
    requires i_lt_n { i < n }
    ensures { result ≡ deciding_power n (facet_columns n cells.now n) i }
{
    (0..n)
        .find(|j| coefficient(n, cells, n, i, *j) != 0)
        .unwrap_or(n)
}

// Vertex i is with D, which has the sign `side` and is not 0: so has the coefficient that decides it.
fn is_with(n: usize, cells: &[i64; 15], side: Ordering, i: usize) -> bool
    requires cells { Cells n cells.now }
    requires n_nonzero { determinant n (facet_columns n cells.now n) ≢ 0ℤ }
    requires i_lt_n { i < n }
    ensures { IsTrue result ↔ (sign (coefficient n (facet_columns n cells.now n) i (deciding_power n (facet_columns n cells.now n) i)) ≡ sign_as side) }
{
    sign_of(coefficient(n, cells, n, i, deciding_power(n, cells, i))) == side
}

// The first vertex that is against D, where D has the sign `side` and is not 0.
fn first_against(n: usize, cells: &[i64; 15], side: Ordering) -> Option<usize>
    requires cells { Cells n cells.now }
    requires n_nonzero { determinant n (facet_columns n cells.now n) ≢ 0ℤ }
    requires side_value { sign_as side ≡ sign (determinant n (facet_columns n cells.now n)) }
    ensures { FirstAgainst n (facet_columns n cells.now n) result }
{
    (0..n).find(|i| !is_with(n, cells, side, *i))
}

// The ground of a crossed facet: the power that decides each vertex.
fn crossed_by(n: usize, cells: &[i64; 15]) -> Powers
    requires { Cells n cells.now }
    ensures count { result.n ≡ n }
    ensures powers { take n result.powers ≡ map (deciding_power n (facet_columns n cells.now n)) (count_from 0 n) }
{
    let mut powers = [0; 4];
    for i in 0..n {
        powers[i] = deciding_power(n, cells, i) as u64;
    }
    Powers {
        n: n as u64,
        powers,
    }
}

// The ground of the facet whose columns the cells hold.
fn ground(n: usize, cells: &[i64; 15]) -> NamedGround
    requires { Cells n cells.now }
    ensures { named_as result ≡ ground n (facet_columns n cells.now n) }
{
    let side = sign_of(determinant(n, cells, n));
    if side == Ordering::Equal {
        return NamedGround::ZeroDeterminant;
    }
    match first_against(n, cells, side) {
        Some(i) => NamedGround::Against {
            vertex: i as u64,
            power: deciding_power(n, cells, i) as u64,
        },
        None => NamedGround::Crossed(crossed_by(n, cells)),
    }
}

// Judge with its ground.
#[tactic(auto, using(crate::proofs::Answers::ground_steps), unfolding(grounds::specs::Judged::place_columns))]
pub fn judge_ground(job: &[u8], place: &[u8]) -> Result<NamedGround, Refusal>
    ensures named { judged_by_as result ≡ judged_by job.now place.now }
    ensures agrees { plainly (judged_by_as result) ≡ judged job.now place.now }
{
    let job = OpenJob::open(job)?;
    let mut cells = [0i64; 15];
    located::place_in(job, place, &mut cells)?;
    Ok(ground(job.n, &cells))
}
