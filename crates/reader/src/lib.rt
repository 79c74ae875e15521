// The unsigned reader: a number behind spaces, as "&" and hex digits, as digits behind a base and "_", or as decimal digits.
#![tactic(auto)]

ghost use Rattle.std.specs.Prelude.{◌≡◌};
ghost use Rattle.reader.specs.Reading.{reading};

mod digits;
mod judge;

use digits::{marked, run_from};
use judge::{Asked, refused};
use paper::bytes::{ByteKind, byte, skip};
use paper::refusals::{Refusal, Refused};
use paper::{LONGEST, TextPlace};

// The limit that refuses nothing.
pub const NO_LIMIT: u32 = 4294967295;

// A value that was read, and the place of the first byte behind it.
#[derive(Clone, Copy, PartialEq, Eq)]
pub struct Number {
    pub value: u32,
    pub end: TextPlace,
}

// Whole: the byte behind the number must be at most 32, or the slice ends there.
pub fn read_unsigned(text: &[u8], whole: bool, limit: u32) -> Result<Number, Refused>
    ensures { result ≡ reading text.now whole limit }
{
    if LONGEST < text.len() {
        return refused(Refusal::OverLength, 0);
    }
    let start = skip(ByteKind::Space, text, 0);
    let asked = Asked {
        text,
        whole,
        limit,
        start,
    };
    if byte(text, start) == b'&' {
        return asked.based(start + 1, 16);
    }
    let lead = run_from(text, start, 10);
    let mark = lead.end;
    if marked(text, start, mark) {
        return asked.in_base(mark + 1, lead.value);
    }
    asked.judge(start, lead)
}
