// The orders of two, of three and of four axes as one constant table, and the masks of the vertices of a simplex with a row's order.
// A row is one number of four hexadecimal digits. The tables are statics: each use of a `const` array would copy it. They are searched, as
// document 01 wants it: there is no second table of neighbours or of sides.

#![tactic(auto)]

ghost use Rattle.std.specs.Prelude.{◌≡◌, ◌/◌, ◌≤◌, ◌<◌, length};
ghost use Rattle.curves.specs.Grid.{orders};
ghost use Rattle.bits.specs.Axes.{Axes};
ghost use Rattle.table.specs.Table.{first_row, digit_at, order_at, order_word, block_size, found_row, vertex_mask};
ghost use Rattle.table.specs.Table.{InTable, MasksAre};

// Each order of the axes, the first on the left; where it has no further axis, 0.
static ORDERS: [u16; 32] = [
    0x0100, 0x1000, 0x0120, 0x0210, 0x1020, 0x1200, 0x2010, 0x2100, 0x0123, 0x0132, 0x0213, 0x0231,
    0x0312, 0x0321, 0x1023, 0x1032, 0x1203, 0x1230, 0x1302, 0x1320, 0x2013, 0x2031, 0x2103, 0x2130,
    0x2301, 0x2310, 0x3012, 0x3021, 0x3102, 0x3120, 0x3201, 0x3210,
];

// The masks of the vertices behind the corner of a simplex with this order, vertex 1 on the left; where it has no further vertex, 0.
static MASKS: [u16; 32] = [
    0x1300, 0x2300, 0x1370, 0x1570, 0x2370, 0x2670, 0x4570, 0x4670, 0x137F, 0x13BF, 0x157F, 0x15DF,
    0x19BF, 0x19DF, 0x237F, 0x23BF, 0x267F, 0x26EF, 0x2ABF, 0x2AEF, 0x457F, 0x45DF, 0x467F, 0x46EF,
    0x4CDF, 0x4CEF, 0x89BF, 0x89DF, 0x8ABF, 0x8AEF, 0x8CDF, 0x8CEF,
];

// The entry of the table at which the orders of n axes begin, which is where those of n - 1 end: 0, 2, 8 and, behind those of four axes, 32.
// By a formula, so that nothing branches on n.
fn first(n: usize) -> usize
    requires { n < 6 }
    ensures { result ≡ first_row n }
{
    (1usize << (2 * n)) / 32
}

// Digit k of four hexadecimal digits, from the left; 0 for k = 0.
pub fn digit(x: u16, k: usize) -> u64
    requires { k ≤ 4 }
    ensures { result ≡ digit_at x k }
{
    (u64::from(x) >> (16 - 4 * k)) % 16
}

// The rows of the table for n axes.
pub fn rows(n: usize) -> usize
    requires { Axes n }
    ensures { result ≡ length (orders n) }
{
    first(n + 1) - first(n)
}

// The order in a row as digits.
pub fn order(n: usize, row: usize) -> u64
    requires { InTable n row }
    ensures { result ≡ order_word (order_at n row) }
{
    u64::from(ORDERS[first(n) + row])
}

// The rows that begin with one axis: the orders of the other n - 1.
fn block_size(n: usize) -> usize
    requires { Axes n }
    ensures { result ≡ block_size n }
{
    if n == 4 { 6 } else { n - 1 }
}

// The row with an order's digits. Rows that begin with the same axis stand together; the last of them is not looked at, since it is
// what is left.
pub fn find_row(n: usize, order: u64) -> usize
    requires { (Axes n) × (order / 4096 < n) }
    ensures { result ≡ found_row n order }
{
    let size = block_size(n);
    let begin = first(n);
    let block = (order / 4096) as usize * size;
    let last = block + size - 1;
    for row in block..last {
        if u64::from(ORDERS[begin + row]) == order {
            return row;
        }
    }
    last
}

// The masks of a row's vertices as digits, for a caller that wants more than one.
pub fn vertex_masks(n: usize, row: usize) -> u16
    requires { InTable n row }
    ensures { MasksAre n row result }
{
    MASKS[first(n) + row]
}

// The mask of vertex k, its difference from the corner; 0 behind the last.
pub fn vertex_mask(n: usize, row: usize, k: usize) -> u64
    requires { InTable n row }
    ensures { result ≡ vertex_mask (order_at n row) k }
{
    if n < k {
        0
    } else {
        digit(vertex_masks(n, row), k)
    }
}
