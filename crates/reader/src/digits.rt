// The bytes of a number: digits of a base, and what they are worth.
ghost use Rattle.std.specs.Prelude.{◌≡◌, ◌+◌, length, drop};
ghost use Rattle.reader.specs.Reading.{digit, run, worth, marked};
ghost use Rattle.reader.specs.inner.Steps.{cut, digit_in};

use paper::bytes::byte;

// Digits that were read: where the first byte stands that is none, and what they are worth, cut at 4294967296. No Option for the value: a
// cut one is compared as the true one is, as a base too.
#[derive(Clone, Copy)]
pub struct Run {
    pub value: u64,
    pub end: usize,
}

// A byte as a digit; 36, which is no digit of any base, where it is none, as the definition has it. So a base needs no test here.
#[tactic(auto, using(std::proofs::lemmas::Bool::Decides::nat_tests), unfolding(crate::specs::Reading::digit))]
fn digit(c: u8) -> u8
    ensures { result ≡ digit c }
{
    if c.is_ascii_digit() {
        return c - b'0';
    }
    match c.to_ascii_uppercase() {
        letter @ b'A'..=b'Z' => letter - b'A' + 10,
        _ => 36,
    }
}

// A byte as a digit of a base.
fn digit_in(c: u8, base: u8) -> Option<u8>
    ensures { result ≡ digit_in base c }
{
    let digit = digit(c);
    if digit < base { Some(digit) } else { None }
}

// The first place from `first` on whose byte is no digit of a base. A `while`: of a `for` over places the compiler makes a loop of nine
// instructions for seven, which took 3.5 of the time over 60,000 nines. It is not `paper`'s `skip`: a digit goes by its base, a number beside
// the byte, and a kind of bytes has none.
fn digits_end(text: &[u8], first: usize, base: u8) -> usize
    ensures { result ≡ first + length (run base (drop first text.now)) }
{
    let mut at = first;
    while at < text.len() {
        if digit_in(text[at], base).is_none() {
            return at;
        }
        at += 1;
    }
    at
}

// The digits of a base from the place `first` on. 4294967296 stands for every value above 4294967295, so nothing wraps; once it is
// reached no digit changes it, and only their end is looked for. That branch is hardly ever taken, where a cut at every digit
// would make the next digit wait for it.
pub(crate) fn run_from(text: &[u8], first: usize, base: u8) -> Run
    ensures end { result.end ≡ first + length (run base (drop first text.now)) }
    ensures value { result.value ≡ cut (worth base 0 (run base (drop first text.now))) }
{
    let mut value: u64 = 0;
    for at in first..text.len() {
        let Some(d) = digit_in(text[at], base) else {
            return Run { value, end: at };
        };
        let next = value * u64::from(base) + u64::from(d);
        if 4294967296 <= next {
            return Run {
                value: 4294967296,
                end: digits_end(text, at + 1, base),
            };
        }
        value = next;
    }
    Run {
        value,
        end: first.max(text.len()),
    }
}

// Whether digits stand from `start` up to `mark`, and "_" directly behind them.
pub(crate) fn marked(text: &[u8], start: usize, mark: usize) -> bool
    ensures { result ≡ marked text.now start mark }
{
    start < mark && byte(text, mark) == b'_'
}
