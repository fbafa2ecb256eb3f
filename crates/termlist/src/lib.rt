// Reading a formula: document 02, request 2.1. The language is decided first, at any depth; so the readers meet no text outside it.

#![tactic(auto)]

ghost use Rattle.std.specs.Prelude.{◌≡◌};
ghost use Rattle.formula.specs.Read.{formula_terms, handed_back};
ghost use Rattle.formula.specs.Answers.{handed_as};

use formula::TermList;
use paper::Refusal;

// The deepest nesting of parentheses.
const NESTING: usize = 16;

// Reading a formula of dimension n: its terms.
pub fn read_formula(n: usize, text: &[u8]) -> Result<TermList, Refusal>
    ensures { handed_as result ≡ handed_back (formula_terms n text.now) }
{
    if !limits::dimension_ok(n) {
        return Err(Refusal::Dimension);
    }
    if !language::passes(text, n, text.len()) {
        return Err(Refusal::Language);
    }
    if !language::passes(text, n, NESTING) {
        return Err(Refusal::Formula);
    }
    let sum = readers::read_sum(text, 0, n, 0);
    let result = sum.result.ok_or(Refusal::Formula)?;
    termbytes::terms_of(&result)
}
