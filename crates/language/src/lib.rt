// The language of formulas, decided by one pass over the text. Of what the reader holds, only where it stands and how many parentheses are open
// decide: the pass keeps these two (specs/Pass.antt).

#![tactic(auto)]

ghost use Rattle.std.specs.Prelude.{◌≡◌, ℕ, leb};
ghost use Rattle.formula.specs.Grammar.{is_letter};
ghost use Rattle.formula.specs.Reader.{token, reading_of};
ghost use Rattle.formula.specs.Read.{is_read};
ghost use Rattle.language.specs.Pass.{sum_next, power_read, atom_read, expects_atom, after_digit, next_mode, next_depth};
ghost use Rattle.language.specs.Modes.{mode_number, mode_as, token_as};

// What a byte is.
#[derive(Clone, Copy)]
enum Token {
    // with its value
    Digit(u8),
    // of the dimension
    Letter,
    Opening,
    Closing,
    Star,
    Plus,
    Minus,
    Caret,
    Foreign,
}

// Where the pass stands; outside the language it stands nowhere.
#[derive(Clone, Copy)]
enum Mode {
    // behind ^
    ExponentNext,
    // before an atom
    AtomNext,
    // before a sum, where a minus may stand
    SumNext,
    // behind an exponent
    PowerRead,
    // behind a letter or a closing parenthesis
    AtomRead,
    // behind so many digits of a number
    DigitsRead(u8),
}

impl Mode {
    // An atom may begin.
    #[tactic(auto, unfolding(crate::specs::Pass::expects_atom, crate::specs::Pass::atom_next, crate::specs::Pass::sum_next))]
    fn expects_atom(self) -> bool
        ensures { result ≡ expects_atom (mode_number self) }
    {
        matches!(self, Mode::AtomNext | Mode::SumNext)
    }

    // An atom ends here.
    #[tactic(auto, using(crate::proofs::ModeLaws::digits_end), unfolding(crate::specs::Pass::atom_read))]
    fn ends_atom(self) -> bool
        ensures { result ≡ leb atom_read (mode_number self) }
    {
        matches!(self, Mode::AtomRead | Mode::DigitsRead(_))
    }

    // A power ends here, and so may the text.
    fn ends_power(self) -> bool
        ensures { result ≡ leb power_read (mode_number self) }
    {
        self.ends_atom() || matches!(self, Mode::PowerRead)
    }

    // A minus may stand.
    fn takes_minus(self) -> bool
        ensures { result ≡ leb sum_next (mode_number self) }
    {
        self.ends_power() || matches!(self, Mode::SumNext)
    }
}

// x, y, z or w, if dimension n has its axis.
#[tactic(auto, unfolding(formula::specs::Grammar::is_letter, formula::specs::Grammar::axis_of))]
fn is_letter(n: usize, b: u8) -> bool
    ensures { result ≡ is_letter n b }
{
    match b {
        b'x' => 0 < n,
        b'y' => 1 < n,
        b'z' => 2 < n,
        b'w' => 3 < n,
        _ => false,
    }
}

// What the byte is in dimension n.
#[tactic(auto, unfolding(formula::specs::Reader::token, formula::specs::Grammar::is_letter))]
fn token_of(n: usize, b: u8) -> Token
    ensures { token_as b result ≡ token n b }
{
    match b {
        b'0'..=b'9' => Token::Digit(b - b'0'),
        b'(' => Token::Opening,
        b')' => Token::Closing,
        b'*' => Token::Star,
        b'+' => Token::Plus,
        b'-' => Token::Minus,
        b'^' => Token::Caret,
        _ if is_letter(n, b) => Token::Letter,
        _ => Token::Foreign,
    }
}

// A number has no more digits.
const MOST_DIGITS: u8 = 7;

// The mode behind a digit: an exponent of at most 4, or one of at most 7 digits of a number.
fn after_digit(mode: Mode, digit: u8) -> Option<Mode>
    ensures { mode_as result ≡ after_digit (mode_number mode) digit }
{
    match mode {
        Mode::ExponentNext => (digit <= 4).then_some(Mode::PowerRead),
        Mode::AtomNext | Mode::SumNext => Some(Mode::DigitsRead(1)),
        Mode::DigitsRead(k) => if k < MOST_DIGITS {
            Some(Mode::DigitsRead(k + 1))
        } else {
            None
        },
        Mode::PowerRead | Mode::AtomRead => None,
    }
}

// The mode behind a token; none if it may not stand here.
#[tactic(auto, unfolding(crate::specs::Pass::next_mode))]
fn next_mode(limit: usize, depth: usize, mode: Mode, token: Token) -> Option<Mode>
    ensures { (b : ℕ) → mode_as result ≡ next_mode limit depth (mode_number mode) (token_as b token) }
{
    match token {
        Token::Digit(digit) => after_digit(mode, digit),
        Token::Letter => mode.expects_atom().then_some(Mode::AtomRead),
        Token::Opening => (mode.expects_atom() && depth < limit).then_some(Mode::SumNext),
        Token::Closing => (mode.ends_power() && 0 < depth).then_some(Mode::AtomRead),
        Token::Star | Token::Plus => mode.ends_power().then_some(Mode::AtomNext),
        Token::Minus => mode.takes_minus().then_some(Mode::AtomNext),
        Token::Caret => mode.ends_atom().then_some(Mode::ExponentNext),
        Token::Foreign => None,
    }
}

// How many parentheses are open behind a token. Where one more is too many, or there is none to close, the mode says so.
#[tactic(auto, unfolding(crate::specs::Pass::next_depth))]
fn next_depth(limit: usize, depth: usize, token: Token) -> usize
    ensures { (b : ℕ) → result ≡ next_depth limit depth (token_as b token) }
{
    match token {
        Token::Opening => if depth < limit { depth + 1 } else { depth },
        Token::Closing => depth.saturating_sub(1),
        _ => depth,
    }
}

// The text is a formula of dimension n whose parentheses nest no deeper than the limit.
pub fn passes(text: &[u8], n: usize, limit: usize) -> bool
    ensures { result ≡ is_read (reading_of limit n text.now) }
{
    let mut mode = Mode::SumNext;
    let mut depth = 0;
    for b in text {
        let token = token_of(n, *b);
        let Some(next) = next_mode(limit, depth, mode, token) else {
            return false;
        };
        mode = next;
        depth = next_depth(limit, depth, token);
    }
    mode.ends_power() && depth == 0
}
