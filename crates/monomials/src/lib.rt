// The 70 monomials of degree at most 4 in four letters, in the order of a job's terms.

#![tactic(auto)]

ghost use Rattle.std.specs.Prelude.{◌≡◌, ◌<◌, MatchOption};
ghost use Rattle.formula.specs.Polynomial.{monomial_count, exponents_at, degree_at, product_slot};
ghost use Rattle.monomials.specs.Weight.{weight};

// The exponents of each as hexadecimal digits, axis 1 weighing most.
static CODES: [u16; 70] = [
    0x0000, 0x0001, 0x0002, 0x0003, 0x0004, 0x0010, 0x0011, 0x0012, 0x0013, 0x0020, 0x0021, 0x0022,
    0x0030, 0x0031, 0x0040, 0x0100, 0x0101, 0x0102, 0x0103, 0x0110, 0x0111, 0x0112, 0x0120, 0x0121,
    0x0130, 0x0200, 0x0201, 0x0202, 0x0210, 0x0211, 0x0220, 0x0300, 0x0301, 0x0310, 0x0400, 0x1000,
    0x1001, 0x1002, 0x1003, 0x1010, 0x1011, 0x1012, 0x1020, 0x1021, 0x1030, 0x1100, 0x1101, 0x1102,
    0x1110, 0x1111, 0x1120, 0x1200, 0x1201, 0x1210, 0x1300, 0x2000, 0x2001, 0x2002, 0x2010, 0x2011,
    0x2020, 0x2100, 0x2101, 0x2110, 0x2200, 0x3000, 0x3001, 0x3010, 0x3100, 0x4000,
];

// The exponents of monomial k as one number.
#[tactic(auto, unfolding(formula::specs::Polynomial::monomial_count))]
pub fn code(k: usize) -> u64
    requires { k < monomial_count }
    ensures { result ≡ weight (exponents_at k) }
{
    CODES[k] as u64
}

// The exponents of monomial k.
#[tactic(auto, using(crate::proofs::Codes::weight_below, crate::proofs::Codes::code_digits))]
pub fn exponents(k: usize) -> [u8; 4]
    requires { k < monomial_count }
    ensures { result ≡ exponents_at k }
{
    let digits = code(k);
    [
        (digits / 4096) as u8,
        (digits / 256 % 16) as u8,
        (digits / 16 % 16) as u8,
        (digits % 16) as u8,
    ]
}

// The degree of monomial k.
#[tactic(auto, using(crate::proofs::Codes::exponents_degree))]
pub fn degree(k: usize) -> u64
    requires { k < monomial_count }
    ensures { result ≡ degree_at k }
{
    let e = exponents(k);
    e[0] as u64 + e[1] as u64 + e[2] as u64 + e[3] as u64
}

// The product of the monomials i and k, which stands behind both of them; none if its degree is above 4.
pub fn product_slot(i: usize, k: usize) -> Option<usize>
    requires { (i < monomial_count) × (k < monomial_count) }
    ensures { MatchOption result (product_slot i k ≡ monomial_count) (λ s. (s ≡ product_slot i k) × (s < monomial_count)) }
{
    let sum = code(i) + code(k);
    (i.max(k)..70).find(|s| CODES[*s] as u64 == sum)
}
