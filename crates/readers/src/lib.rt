// The four readers of a formula: sum, product, power and atom call each other in a cycle. The text is known to be a formula of dimension n whose
// parentheses nest no deeper than 16, so that no reader meets a byte that it cannot read. The dimension and the depth say in the contracts which text
// it is; nothing branches on them. They are no ghost values, since a function of a cycle with such values gets no proof.

#![tactic(auto)]

ghost use Rattle.std.specs.Prelude.{◌≡◌, true, cond, ◌||◌, ◌<◌};
ghost use Rattle.formula.specs.Grammar.{axis_of};
ghost use Rattle.formula.specs.Polynomial.{sum_of, difference_of, product_of};
ghost use Rattle.formula.specs.Meaning.{on_result, on_results, power_of};
ghost use Rattle.coefficients.specs.Result.{result_as};
ghost use Rattle.readers.specs.Ahead.{byte_is, is_digit, AtomAhead, ProductAhead, SumAhead, AtomRead, PowerRead, ProductRead, SumRead, NumberRead, signed_by};

use coefficients::{joined, multiplied, negated, raised};
use rows::Polynomial;

// What was read: where the text goes on, and the inner result. There is none if a limit was broken; the reading goes on to the end all the same.
#[derive(Clone, Copy)]
pub struct Part {
    pub next: usize,
    pub result: Option<Polynomial>,
}

// A number: where the text goes on, and its value.
#[derive(Clone, Copy)]
struct NumberPart {
    next: usize,
    value: u64,
}

// Byte i of the text is b.
#[tactic(auto, using(crate::proofs::Machine::byte_past), unfolding(crate::specs::Ahead::byte_is))]
fn byte_is(text: &[u8], i: usize, b: u8) -> bool
    requires { 0 < b }
    ensures { result ≡ byte_is text.now i b }
{
    i < text.len() && text[i] == b
}

// Byte i of the text is a digit.
#[tactic(auto, using(crate::proofs::Machine::byte_past), unfolding(crate::specs::Ahead::is_digit))]
fn is_digit(text: &[u8], i: usize) -> bool
    ensures { result ≡ is_digit text.now i }
{
    i < text.len() && text[i].is_ascii_digit()
}

// Byte i of the text is a sign.
fn is_sign(text: &[u8], i: usize) -> bool
    ensures { result ≡ (byte_is text.now i 43 || byte_is text.now i 45) }
{
    byte_is(text, i, b'+') || byte_is(text, i, b'-')
}

// The axis of a letter.
#[tactic(auto, unfolding(formula::specs::Grammar::axis_of))]
fn axis_of(b: u8) -> usize
    ensures { result ≡ axis_of b }
{
    match b {
        b'x' => 0,
        b'y' => 1,
        b'z' => 2,
        _ => 3,
    }
}

// The first product of a sum, with its optional minus. What is read says whether there is one, so that no
// closure is known at the call.
#[tactic(auto, unfolding(coefficients::specs::Result::result_as, formula::specs::Meaning::on_result, crate::specs::Ahead::signed_by))]
fn signed(p: Option<Polynomial>, minus: bool) -> Option<Polynomial>
    ensures { result_as result ≡ signed_by minus (result_as p) }
{
    if minus { negated(p) } else { p }
}

// A number of 1 to 7 digits. The loop is by hand: the value fits since the text has no more digits, which the closure of a fold would not know.
fn read_number(text: &[u8], at: usize, n: usize, depth: usize) -> NumberPart
    requires { (AtomAhead n text.now at depth) × (is_digit text.now at ≡ true) }
    ensures { NumberRead n text.now at depth result.next result.value }
{
    let mut value = u64::from(text[at] - b'0');
    let mut next = at + 1;
    while is_digit(text, next) {
        value = 10 * value + u64::from(text[next] - b'0');
        next += 1;
    }
    NumberPart { next, value }
}

// An atom: a number, a letter or a sum in parentheses.
#[cycle(read_atom_read_power_read_product_read_sum)]
fn read_atom(text: &[u8], at: usize, n: usize, depth: usize) -> Part
    requires { AtomAhead n text.now at depth }
    ensures { AtomRead n text.now at depth result.next (result_as result.result) }
{
    if byte_is(text, at, b'(') {
        let inner = read_sum(text, at + 1, n, depth + 1);
        return Part {
            next: inner.next + 1,
            result: inner.result,
        };
    }
    if is_digit(text, at) {
        let number = read_number(text, at, n, depth);
        let result = coefficients::constant(number.value);
        return Part {
            next: number.next,
            result,
        };
    }
    let letter = coefficients::variable(axis_of(text[at]));
    Part {
        next: at + 1,
        result: Some(letter),
    }
}

// A power: an atom with an optional exponent.
#[cycle(read_atom_read_power_read_product_read_sum)]
fn read_power(text: &[u8], at: usize, n: usize, depth: usize) -> Part
    requires { AtomAhead n text.now at depth }
    ensures { PowerRead n text.now at depth result.next (result_as result.result) }
{
    let base = read_atom(text, at, n, depth);
    if !byte_is(text, base.next, b'^') {
        return base;
    }
    let exponent = u64::from(text[base.next + 1] - b'0');
    let result = raised(base.result, exponent);
    Part {
        next: base.next + 2,
        result,
    }
}

// A product: powers joined by stars.
#[cycle(read_atom_read_power_read_product_read_sum)]
fn read_product(text: &[u8], at: usize, n: usize, depth: usize) -> Part
    requires { ProductAhead n text.now at depth }
    ensures { ProductRead n text.now at depth result.next (result_as result.result) }
{
    let mut product = read_power(text, at, n, depth);
    while byte_is(text, product.next, b'*') {
        let factor = read_power(text, product.next + 1, n, depth);
        let result = multiplied(product.result, factor.result);
        product = Part {
            next: factor.next,
            result,
        };
    }
    product
}

// A sum: an optional minus, and products joined by plus or minus.
#[cycle(read_atom_read_power_read_product_read_sum)]
pub fn read_sum(text: &[u8], at: usize, n: usize, depth: usize) -> Part
    requires { SumAhead n text.now at depth }
    ensures { SumRead n text.now at depth result.next (result_as result.result) }
{
    let negative = byte_is(text, at, b'-');
    let first = read_product(text, at + usize::from(negative), n, depth);
    let mut sum = Part {
        next: first.next,
        result: signed(first.result, negative),
    };
    while is_sign(text, sum.next) {
        let minus = byte_is(text, sum.next, b'-');
        let term = read_product(text, sum.next + 1, n, depth);
        let result = joined(sum.result, minus, term.result);
        sum = Part {
            next: term.next,
            result,
        };
    }
    sum
}
