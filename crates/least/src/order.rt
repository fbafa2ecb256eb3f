// The order of facets: lowest vertex first, axis 1 weighing most, then the masks. The first difference decides.

ghost use Rattle.std.specs.Prelude.{◌≡◌};
ghost use Rattle.bits.specs.Axes.{Axes};
ghost use Rattle.places.specs.Held.{facet_as};
ghost use Rattle.seamlist.specs.Seams.{facet_before};

use paper::HeldPlace;

// The facet of one place comes before that of the other. It is asked at each turn of a walk, and axis 1 decides nearly always: so the comparisons of
// slices, which are calls of the library, are seldom made.
pub fn facet_before(n: usize, p: HeldPlace, q: HeldPlace) -> bool
    requires { Axes n }
    ensures { result ≡ facet_before (facet_as n p) (facet_as n q) }
{
    let x = p.low.coordinates[0];
    let y = q.low.coordinates[0];
    if x != y {
        return x < y;
    }
    let lows = p.low.coordinates[..n].cmp(&q.low.coordinates[..n]);
    let masks = p.masks[..n - 1].cmp(&q.masks[..n - 1]);
    lows.then(masks).is_lt()
}
