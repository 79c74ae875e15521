// What a symbol can be, and how a text is read.
ghost use Rattle.std.specs.Prelude.{◌≡◌};
ghost use Rattle.symbols.specs.Symbols.{faulty};

use paper::TextPlace;
use paper::faults::Fault;

// How a text is read: as it stands, or as a quoted string whose open quote stands at a place. In an Option of a place the names of both would
// be lost, and nothing be shorter.
#[derive(Clone, Copy)]
pub enum Mode {
    Plain,
    Quoted(TextPlace),
}

// A fault is a symbol and no Err: the one reader meets all four in one match, and in a Result each function of this crate would wrap the
// other three in Ok.
#[derive(Clone, Copy)]
pub enum Symbol {
    // The text ends here.
    End(TextPlace),
    // A byte of the output, and the place of the next symbol.
    Byte(u8, usize),
    // The content of a reference from `start` up to `end`, and the place of the next symbol.
    Reference {
        start: usize,
        end: usize,
        next: usize,
    },
    // What is wrong, and its place.
    Faulty {
        fault: Fault,
        at: TextPlace,
    },
}

// A fault, with its place in the text.
pub(crate) fn faulty(fault: Fault, at: usize) -> Symbol
    ensures { result ≡ faulty fault at }
{
    Symbol::Faulty {
        fault,
        at: TextPlace(at),
    }
}
