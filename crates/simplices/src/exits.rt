// The exit of a simplex: the vertex opposite its other crossed facet.

ghost use Rattle.std.specs.Prelude.{◌≡◌, not, ◌&&◌, ◌≤◌, eqb};
ghost use Rattle.exact.specs.Crossed.{crossed, exit};
ghost use Rattle.determinants.specs.Cells.{Cells, simplex_columns, facet_columns};

// q is another vertex than `out`, and the facet without it is crossed.
pub fn is_other(n: usize, cells: &[i64; 15], out: usize, q: usize) -> bool
    requires { (Cells n cells.now) × (q ≤ n) }
    ensures { result ≡ (not (eqb q out) && crossed n (facet_columns n cells.now q)) }
{
    q != out && facets::crossed(n, cells, q)
}

// The exit for the facet without vertex `out`; n + 1 if no other facet is crossed, as the definition has it, so no `Option`.
pub fn exit(n: usize, cells: &[i64; 15], out: usize) -> usize
    requires { (Cells n cells.now) × (out ≤ n) }
    ensures { result ≡ exit n (simplex_columns n cells.now) out }
{
    for q in 0..=n {
        if is_other(n, cells, out, q) {
            return q;
        }
    }
    n + 1
}
