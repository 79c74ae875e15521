// One symbol of a text: where the text ends, a byte, a reference, or a fault.
ghost use Rattle.std.specs.Prelude.{◌≡◌};
ghost use Rattle.symbols.specs.inner.SymbolSteps.{ended_at, at_end, other};
ghost use Rattle.symbols.specs.Symbols.{referred, closed, quoted_other, symbol_at, first_at, mode_of};

use crate::bytes::{is_ending_space, is_mark, is_stop, is_unmarked};
use crate::codes::barred;
use crate::flags::Flags;
use crate::forms::{Mode, Symbol, faulty};
use paper::TextPlace;
use paper::bytes::{ByteKind, byte, is_end, skip};
use paper::faults::Fault;
use paper::inside::Inside;

// Where the first symbol stands, and how the text is read.
#[derive(Clone, Copy)]
pub struct Opening {
    pub at: usize,
    pub mode: Mode,
}

// Flags and mode go side by side: `Determined` of `promises` has two public functions of both, and a mode is known once a text is open.

// The symbol of a "<" that stands here.
#[tactic(auto, unfolding(crate::specs::Symbols::referred))]
fn referred(here: &Inside) -> Symbol
    ensures { result ≡ referred here.now.text.now here.now.at }
{
    let start = here.at + 1;
    let end = skip(ByteKind::Name, here.text, start);
    if end == start {
        return faulty(Fault::BadReference, here.at);
    }
    if byte(here.text, end) == b'>' {
        return Symbol::Reference {
            start,
            end,
            next: end + 1,
        };
    }
    faulty(Fault::BadReference, here.at)
}

// The end of a quoted string at a place, or the fault of one that goes on there.
fn ended(ends: bool, at: usize) -> Symbol
    ensures { result ≡ ended_at ends at }
{
    if ends {
        Symbol::End(TextPlace(at))
    } else {
        faulty(Fault::BadString, at)
    }
}

// Behind the closing quote.
#[tactic(auto, unfolding(crate::specs::Symbols::closed))]
fn closed(text: &[u8], flags: Flags, behind: usize) -> Symbol
    ensures { result ≡ closed text.now flags.0 behind }
{
    if flags.has(Flags::SPACE_ENDS) {
        return ended(is_stop(byte(text, behind)), behind);
    }
    let end = skip(ByteKind::Space, text, behind);
    ended(is_end(byte(text, end)), end)
}

// In a quoted string, a byte that is no end and starts neither a code nor a reference.
#[tactic(auto, unfolding(crate::specs::Symbols::quoted_other))]
fn quoted_other(here: &Inside, flags: Flags) -> Symbol
    ensures { result ≡ quoted_other here.now.text.now flags.0 here.now.at }
{
    let c = here.byte(0);
    if c != b'"' {
        return Symbol::Byte(c, here.at + 1);
    }
    if here.byte(1) == b'"' {
        return Symbol::Byte(b'"', here.at + 2);
    }
    closed(here.text, flags, here.at + 1)
}

// The symbol of the text's end.
fn at_end(mode: Mode, at: usize) -> Symbol
    ensures { result ≡ at_end mode at }
{
    match mode {
        Mode::Plain => Symbol::End(TextPlace(at)),
        Mode::Quoted(quote) => faulty(Fault::BadString, quote.0),
    }
}

// A byte that is no end and starts neither a code nor a reference.
fn other(here: &Inside, flags: Flags, mode: Mode) -> Symbol
    ensures { result ≡ other here.now.text.now flags.0 mode here.now.at }
{
    match mode {
        Mode::Plain => Symbol::Byte(here.byte(0), here.at + 1),
        Mode::Quoted(_) => quoted_other(here, flags),
    }
}

// The symbol at a place, any place: past the slice's end the text has ended, so that nothing behind such a place is read or counted.
#[tactic(auto, using(crate::proofs::Laws::symbol_tested, crate::proofs::Laws::unmarked_byte), unfolding(crate::specs::Symbols::active))]
pub fn symbol_at(text: &[u8], flags: Flags, mode: Mode, at: usize) -> Symbol
    ensures { result ≡ symbol_at text.now flags.0 mode at }
{
    let c = byte(text, at);
    if is_unmarked(c) {
        return Symbol::Byte(c, at + 1);
    }
    if is_end(c) {
        return at_end(mode, at);
    }
    if is_ending_space(flags, mode, c) {
        return Symbol::End(TextPlace(at));
    }
    let here = Inside { text, at };
    if is_mark(b'|', flags, Flags::BAR_PLAIN, c) {
        return barred(&here, flags, mode);
    }
    if c == b'<' {
        return referred(&here);
    }
    other(&here, flags, mode)
}

// Leading spaces are skipped. A quote next opens a quoted string, unless a flag makes it ordinary.
#[tactic(auto, unfolding(crate::specs::Symbols::first_at, crate::specs::Symbols::mode_of))]
pub fn open(text: &[u8], flags: Flags) -> Opening
    ensures { (result.at ≡ first_at text.now flags.0) × (result.mode ≡ mode_of text.now flags.0) }
{
    let start = skip(ByteKind::Space, text, 0);
    if is_mark(b'"', flags, Flags::QUOTE_PLAIN, byte(text, start)) {
        return Opening {
            at: start + 1,
            mode: Mode::Quoted(TextPlace(start)),
        };
    }
    Opening {
        at: start,
        mode: Mode::Plain,
    }
}
