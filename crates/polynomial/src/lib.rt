// The exact sum of a polynomial at a vertex, from its last term to its first; the powers of the coordinates are taken from tables.

#![tactic(auto)]

ghost use Rattle.std.specs.Prelude.{◌≡◌, ℕ, ◌^◌, ◌≤◌, ◌<◌};
ghost use Rattle.exact.specs.Size.{Size, Is};
ghost use Rattle.paper.specs.Limits.{coordinate_limit};
ghost use Rattle.paper.specs.Job.{term_count, exponent_of};
ghost use Rattle.paper.specs.Values.{monomial, term_value, raw_sum};
ghost use Rattle.paper.specs.RunningSum.{monomial_limit, term_size, partial_sum_limit, running_sum};
ghost use Rattle.places.specs.Held.{vertex_as};
ghost use Rattle.lattice.specs.Box.{Near};
ghost use Rattle.polynomial.specs.Sums.{sum_limit, Polynomial, PowersOf, Tables, tabled, factor_on};

use bits::read;
use paper::Vertex;

// The powers 0 to 4 of a coordinate.
// Inlined: as a call it would store its five numbers, to be copied into the table, at each turn of a trace.
#[inline(always)]
fn powers_of(x: i64) -> [i64; 5]
    requires { Size coordinate_limit x }
    ensures { PowersOf x result }
{
    let one: i64 = 1;
    let square = x * x;
    let cube = x * square;
    [one, x, square, cube, x * cube]
}

// The powers of a vertex's coordinates, put into a table for each axis that counts; the coordinate of another may be any number. With a bound that is a
// constant the loop is unrolled, and the tables are lent: those of a result would be made in numbers first and then stored, at each turn of a trace.
pub fn put_powers(n: usize, v: Vertex, tables: &mut [[i64; 5]; 4])
    requires { Near n v }
    ensures { (Tables n tables.new) × (tabled n tables.new ≡ vertex_as n v) }
{
    for axis in 0..4 {
        if axis < n {
            tables[axis] = powers_of(v.coordinates[axis]);
        }
    }
}

// The number within the limit of a coordinate that is nearest to x.
fn nearest(x: i64) -> i64
    ensures { (Size coordinate_limit result) × (Size coordinate_limit x → result ≡ x) }
{
    x.clamp(-256, 256)
}

// The tables as a result, for any vertex and each n whose axes are near. The powers of a coordinate past the limit may leave 64 bits, so its table is that
// of the limit on its side.
pub fn powers(v: Vertex) -> [[i64; 5]; 4]
    ensures { (n : ℕ) → Near n v → (Tables n result) × (tabled n result ≡ vertex_as n v) }
{
    let mut near = v;
    for axis in 0..4 {
        near.coordinates[axis] = nearest(v.coordinates[axis]);
    }
    let mut tables = [[0i64; 5]; 4];
    put_powers(4, near, &mut tables);
    tables
}

// The power of one coordinate in term i; 1 from axis n on.
fn factor(body: &[u8], n: usize, i: usize, axis: usize, tables: &[[i64; 5]; 4]) -> i64
    requires polynomial { (Polynomial n body.now) × (i < term_count body.now) }
    requires tables { (Tables n tables.now) × (axis < 4) }
    ensures { Is (coordinate_limit ^ exponent_of body.now i axis) (factor_on n body.now i axis tables.now) result }
{
    if axis < n {
        tables[axis][read::byte(body, 8 * i + 4 + axis) as usize]
    } else {
        1
    }
}

// The product of the powers of the coordinates in term i. A trace spends its time here: with a bound that is a constant the loop is unrolled.
fn monomial(body: &[u8], n: usize, i: usize, tables: &[[i64; 5]; 4]) -> i64
    requires polynomial { (Polynomial n body.now) × (i < term_count body.now) }
    requires tables { Tables n tables.now }
    ensures { Is monomial_limit (monomial body.now i 0 (tabled n tables.now)) result }
{
    let mut product: i64 = 1;
    for axis in (0..4).rev() {
        product = factor(body, n, i, axis, tables) * product;
    }
    product
}

// Term i at a vertex: the coefficient times the powers.
fn term_value(body: &[u8], n: usize, i: usize, tables: &[[i64; 5]; 4]) -> i64
    requires polynomial { (Polynomial n body.now) × (i < term_count body.now) }
    requires tables { Tables n tables.now }
    ensures { Is term_size (term_value body.now (tabled n tables.now) i) result }
{
    read::signed_double_word(body, 8 * i) * monomial(body, n, i, tables)
}

// The running sum of the polynomial at the vertex of the tables, from its last term to its first, after so many terms: that of the last ones.
// Inlined for the sake of `sum_at`, whose loop then ends at 0.
#[inline(always)]
fn sum_of_last(body: &[u8], n: usize, terms: usize, tables: &[[i64; 5]; 4]) -> i64
    requires polynomial { (Polynomial n body.now) × (terms ≤ term_count body.now) }
    requires tables { Tables n tables.now }
    ensures { Is (partial_sum_limit n) (running_sum body.now (tabled n tables.now) terms) result }
{
    let count = body.len() / 8;
    let mut sum: i64 = 0;
    for i in (count - terms..count).rev() {
        sum += term_value(body, n, i, tables);
    }
    sum
}

// The exact sum of the polynomial at the vertex of the tables. Inlined, as `field::put_value` is, which alone calls it: that has its body in two places.
#[inline(always)]
pub fn sum_at(body: &[u8], n: usize, tables: &[[i64; 5]; 4]) -> i64
    requires polynomial { Polynomial n body.now }
    requires tables { Tables n tables.now }
    ensures { Is sum_limit (raw_sum body.now (tabled n tables.now)) result }
{
    sum_of_last(body, n, body.len() / 8, tables)
}

// The running sum of the polynomial at a vertex, from its last term to its first, after so many terms.
pub fn running_sum(body: &[u8], n: usize, v: Vertex, terms: usize) -> i64
    requires polynomial { (Polynomial n body.now) × (Near n v) }
    requires terms_bound { terms ≤ term_count body.now }
    ensures { Is (partial_sum_limit n) (running_sum body.now (vertex_as n v) terms) result }
{
    let mut tables = [[0i64; 5]; 4];
    put_powers(n, v, &mut tables);
    sum_of_last(body, n, terms, &tables)
}

#[cfg(test)]
mod tests;
