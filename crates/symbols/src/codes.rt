// The codes behind "|".
ghost use Rattle.std.specs.Prelude.{◌≡◌};
ghost use Rattle.symbols.specs.inner.SymbolSteps.{bare};
ghost use Rattle.symbols.specs.Symbols.{punctuation, code, coded, topped, topped_code, topped_symbol, barred};

use crate::bytes::is_ending_space;
use crate::flags::Flags;
use crate::forms::{Mode, Symbol, faulty};
use paper::bytes::{among, is_end};
use paper::faults::Fault;
use paper::inside::Inside;

// What a code that is no letter stands for, if it is one.
#[tactic(auto, unfolding(crate::specs::Symbols::punctuation))]
fn punctuation(c: u8) -> Option<u8>
    ensures { result ≡ punctuation c }
{
    match c {
        b'[' | b'{' => Some(27),
        b'\\' => Some(28),
        b']' | b'}' => Some(29),
        b'^' | b'~' => Some(30),
        b'_' | b'\'' => Some(31),
        b'?' => Some(127),
        b'|' | b'<' | b'"' => Some(c),
        _ => None,
    }
}

// From "@" up to "_" every byte is 64 over its code, so that the marks among them need no test of their own: the function is then small
// enough to be compiled into both of its callers.
#[tactic(auto, unfolding(crate::specs::Symbols::code, crate::specs::Symbols::punctuation))]
fn code(c: u8) -> Option<u8>
    ensures { result ≡ code c }
{
    if among(b'@', b'_', c) {
        return Some(c - 64);
    }
    if among(b'a', b'z', c) {
        return Some(c - 96);
    }
    punctuation(c)
}

// What a code makes: its byte, or the fault of a symbol that stands at `at`.
#[tactic(auto, unfolding(crate::specs::Symbols::coded))]
fn coded(value: Option<u8>, at: usize, next: usize) -> Symbol
    ensures { result ≡ coded value at next }
{
    match value {
        Some(c) => Symbol::Byte(c, next),
        None => faulty(Fault::BadCode, at),
    }
}

fn topped(c: u8) -> u8
    ensures { result ≡ topped c }
{
    if c < 128 { c + 128 } else { c }
}

// Behind "|!|": a code, and "!" has none.
#[tactic(auto, unfolding(crate::specs::Symbols::topped_code, crate::specs::Symbols::code, crate::specs::Symbols::punctuation, crate::specs::Symbols::coded))]
fn topped_code(here: &Inside) -> Symbol
    ensures { result ≡ topped_code here.now.text.now here.now.at }
{
    let value = code(here.byte(3));
    coded(value.map(topped), here.at, here.at + 4)
}

// Whether no top bit can be set on a byte.
fn is_bare(flags: Flags, mode: Mode, c: u8) -> bool
    ensures { result ≡ bare flags.0 mode c }
{
    is_end(c) || (is_ending_space(flags, mode, c) || (c == b'<' || c == b'"'))
}

// Behind "|!": a code, or an ordinary byte.
#[tactic(auto, unfolding(crate::specs::Symbols::topped_symbol))]
fn topped_symbol(here: &Inside, flags: Flags, mode: Mode) -> Symbol
    ensures { result ≡ topped_symbol here.now.text.now flags.0 mode here.now.at }
{
    let c = here.byte(2);
    if is_bare(flags, mode, c) {
        return faulty(Fault::BadCode, here.at);
    }
    if c == b'|' {
        return topped_code(here);
    }
    Symbol::Byte(topped(c), here.at + 3)
}

// The symbol of a "|" that stands here.
#[tactic(auto, unfolding(crate::specs::Symbols::barred))]
pub(crate) fn barred(here: &Inside, flags: Flags, mode: Mode) -> Symbol
    ensures { result ≡ barred here.now.text.now flags.0 mode here.now.at }
{
    let c = here.byte(1);
    if c == b'!' {
        return topped_symbol(here, flags, mode);
    }
    coded(code(c), here.at, here.at + 2)
}
