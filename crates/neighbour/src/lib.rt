// The row of the simplex on the other side of a facet: the P rule of document 002, section 5, on the order's digits, and a search of the
// table for what comes out.

#![tactic(auto)]

ghost use Rattle.std.specs.Prelude.{◌≡◌, ◌≤◌, ◌<◌};
ghost use Rattle.bits.specs.Axes.{Axes};
ghost use Rattle.table.specs.Table.{InTable, NeighbourRow, order_beyond};

// The neighbour's order as digits: the first axis goes last, the last goes first, or axes e and e + 1 change places.
fn order_beyond(n: usize, order: u64, e: usize) -> u64
    requires { (Axes n) × ((order < 65536) × (e ≤ n)) }
    ensures { result ≡ order_beyond n order e }
{
    if e == 0 {
        (order % 4096) * 16 + ((order / 4096) << (16 - 4 * n))
    } else if e == n {
        let s = 16 - 4 * n;
        let a = (order >> s) % 16;
        (order - (a << s)) / 16 + a * 4096
    } else {
        let s = 12 - 4 * e;
        let a = (order >> (s + 4)) % 16;
        let b = (order >> s) % 16;
        order + ((b * 15) << s) - ((a * 15) << s)
    }
}

// The row of the simplex on the other side of the facet without vertex e.
pub fn neighbour(n: usize, row: usize, e: usize) -> usize
    requires { (InTable n row) × (e ≤ n) }
    ensures { NeighbourRow n row e result }
{
    table::find_row(n, order_beyond(n, table::order(n, row), e))
}
