// The ground that Judge names (request 2.9). What each case means is said in specs/Judged.antt.

#![tactic(auto)]

mod take;

ghost use Rattle.grounds.specs.Whole.{WholePowers};

// The powers that decide the vertices of a crossed facet, of which the first n count: 0 is a power like others. No heap, so an array with its count;
// behind n it is 0, so that an answer has one form.
#[derive(Clone, Copy, Debug, PartialEq, Eq)]
pub struct Powers {
    pub n: u64,
    pub powers: [u64; 4],
    pub ghost whole: { WholePowers n powers },
}

// Not crossed, since D is 0; not crossed, with the first vertex whose sign is against D and the power that decided it; or crossed, with the power
// that decided each vertex.
#[derive(Clone, Copy, Debug, PartialEq, Eq)]
pub enum NamedGround {
    ZeroDeterminant,
    Against { vertex: u64, power: u64 },
    Crossed(Powers),
}

#[cfg(test)]
mod tests;
