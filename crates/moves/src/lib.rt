// Columns moved by one vertex in the cells: those of a facet go where the next simplex has its vertices.

#![tactic(auto)]

ghost use Rattle.std.specs.Prelude.{◌≡◌, ◌≤◌};
ghost use Rattle.determinants.specs.Cells.{Cells};
ghost use Rattle.moves.specs.Columns.{new_index, ColumnsMoved};

// The columns from vertex i on move up by one vertex; that of the last goes, and that of vertex i stays behind as it was.
pub fn make_room(n: usize, cells: &mut [i64; 15], i: usize)
    requires { (Cells n cells.old) × (i ≤ n) }
    ensures { ColumnsMoved n n i cells.old cells.new }
{
    cells.copy_within(3 * i..12, 3 * i + 3);
}

// All columns move down by one vertex; that of vertex 0 goes, and that of the last stays behind as it was.
fn drop_first(n: usize, cells: &mut [i64; 15])
    requires { Cells n cells.old }
    ensures { ColumnsMoved n 0 n cells.old cells.new }
{
    cells.copy_within(3..15, 0);
}

// The vertex that is new beyond the facet without vertex e.
pub fn new_index(n: usize, e: usize) -> usize
    ensures { result ≡ new_index n e }
{
    if e == 0 {
        n
    } else if e == n {
        0
    } else {
        e
    }
}

// The columns go where the simplex beyond the facet without vertex e has its vertices.
pub fn move_columns(n: usize, cells: &mut [i64; 15], e: usize)
    requires { (Cells n cells.old) × (e ≤ n) }
    ensures { ColumnsMoved n e (new_index n e) cells.old cells.new }
{
    if e == 0 {
        drop_first(n, cells);
    } else if e == n {
        make_room(n, cells, 0);
    }
}
