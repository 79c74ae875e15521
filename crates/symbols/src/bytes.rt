// What a byte of a text is, by its flags and its mode.
ghost use Rattle.std.specs.Prelude.{◌≡◌};
ghost use Rattle.symbols.specs.inner.SymbolSteps.{unmarked, stops, marks};
ghost use Rattle.symbols.specs.Symbols.{ending_space};

use crate::flags::Flags;
use crate::forms::Mode;
use paper::bytes::is_end;

// Whether a byte is itself in every text: most are, and this is the quickest test that finds those.
pub(crate) fn is_unmarked(c: u8) -> bool
    ensures { result ≡ unmarked c }
{
    b'"' < c && (c != b'<' && c != b'|')
}

// Whether an end or a space.
pub(crate) fn is_stop(c: u8) -> bool
    ensures { result ≡ stops c }
{
    is_end(c) || c == b' '
}

// Whether a space at which the text ends.
pub fn is_ending_space(flags: Flags, mode: Mode, c: u8) -> bool
    ensures { result ≡ ending_space flags.0 mode c }
{
    match mode {
        Mode::Plain => flags.has(Flags::SPACE_ENDS) && c == b' ',
        Mode::Quoted(_) => false,
    }
}

// Whether a byte is a mark, and no bit makes it an ordinary one.
pub(crate) fn is_mark(mark: u8, flags: Flags, bit: u32, c: u8) -> bool
    ensures { result ≡ marks mark flags.0 bit c }
{
    c == mark && !flags.has(bit)
}
