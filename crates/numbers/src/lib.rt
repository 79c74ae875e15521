// Numbers to strings: the 26 calls of the chapter, and the signed decimal that other chapters write.
#![tactic(auto)]

ghost use Rattle.std.specs.Prelude.{◌≡◌, ◌++◌, ◌≤◌, length, drop};
ghost use Rattle.paper.specs.Layings.{laying, laid_in, converted_by};
ghost use Rattle.forms.specs.Digits.{digit_count};
ghost use Rattle.forms.specs.Strings.{radix, largest};
ghost use Rattle.forms.specs.Calls.{fixed, decimal, decimal_of, known};
ghost use Rattle.numbers.specs.Conversions.{answer_in, buffer_in, answer_of, buffer_of};
ghost use Rattle.numbers.specs.inner.Steps.{string_of, decimal_figures};

mod digits;

use digits::Figures;
use forms::calls::Family;
use forms::forms::{Base, Width};
use forms::size::Number;
use forms::{calls, counts, size};
use paper::TextPlace;
use paper::layings::{Converted, NotWritten, claim};
use paper::refusals::Refusal;

// One of the calls by its number: the string of `value` at the start of `buf`, or a refusal that changes nothing. Each family has
// a call of its own, and what it calls is inlined, so that the compiler makes code for each, with no test of what its form is.
#[tactic(auto, using(crate::proofs::Bounds::hex_digits, crate::proofs::Bounds::binary_digits), unfolding(crate::specs::Conversions::answer_of, crate::specs::Conversions::buffer_of))]
pub fn convert(call: u32, value: u32, buf: &mut [u8]) -> Converted
    ensures answer { result ≡ converted_by (answer_of call value (length buf.old)) }
    ensures buffer { buf.new ≡ buffer_of call value buf.old }
{
    let Some(family) = calls::family_of(call) else {
        return Err(NotWritten {
            why: Refusal::UnknownCall,
            at: TextPlace(0),
            need: 0,
            free: buf.len(),
        });
    };
    match family {
        Family::Hex(width) => write_fixed(Base::Sixteen, width.bits() / 4, width, value, buf),
        Family::Binary(width) => write_fixed(Base::Two, width.bits(), width, value, buf),
        Family::Unsigned(width) => write_decimal(false, false, true, width, value, buf),
        Family::Signed(width) => write_decimal(true, false, true, width, value, buf),
        Family::SpacedUnsigned(width) => write_decimal(false, true, true, width, value, buf),
        Family::SpacedSigned(width) => write_decimal(true, true, true, width, value, buf),
        Family::Bare => write_decimal(true, false, false, Width::Word, value, buf),
    }
}

// The signed decimal of a 32-bit pattern at the start of `out`, which has room for the longest: a minus and ten digits. The answer
// is how many characters it has.
pub fn signed_decimal(value: u32, out: &mut [u8; 11]) -> usize
    ensures length { (result ≡ length (decimal_of value)) × (result ≤ 11) }
    ensures buffer { out.new ≡ decimal_of value ++ drop (length (decimal_of value)) out.old }
{
    let figures = decimal_figures(true, false, Width::Word, value);
    let length = figures.characters();
    figures.lay(length, out);
    length
}

// All the digits of a number in decimal.
fn decimal_figures(signed: bool, spaced: bool, width: Width, value: u32) -> Figures
    ensures { result ≡ decimal_figures signed spaced width value }
{
    let number = size::number_in(signed, width, value);
    Figures {
        number,
        base: Base::Ten,
        count: counts::count_decimal(number.magnitude) as u8,
        spaced,
    }
}

// A string of every digit of a width, with its zero byte.
#[inline(always)]
fn write_fixed(base: Base, count: u8, width: Width, value: u32, buf: &mut [u8]) -> Converted
    requires { count ≡ digit_count (radix base) (largest width) }
    ensures answer { result ≡ converted_by (answer_in (known (fixed base width)) value (length buf.old)) }
    ensures buffer { buf.new ≡ buffer_in (known (fixed base width)) value buf.old }
{
    let number = Number {
        negative: false,
        magnitude: width.low_bits(value),
    };
    let figures = Figures {
        number,
        base,
        count,
        spaced: false,
    };
    write(figures, true, buf)
}

// A decimal string, with its zero byte where it is terminated.
fn write_decimal(
    signed: bool,
    spaced: bool,
    terminated: bool,
    width: Width,
    value: u32,
    buf: &mut [u8],
) -> Converted
    ensures answer { result ≡ converted_by (answer_in (known (decimal signed spaced terminated width)) value (length buf.old)) }
    ensures buffer { buf.new ≡ buffer_in (known (decimal signed spaced terminated width)) value buf.old }
{
    write(
        decimal_figures(signed, spaced, width, value),
        terminated,
        buf,
    )
}

// A number's figures at the start of a buffer, with a zero byte where they are terminated: whole or not at all.
#[inline(always)]
fn write(figures: Figures, terminated: bool, buf: &mut [u8]) -> Converted
    ensures answer { result ≡ converted_by (laying (string_of figures) terminated (length buf.old)) }
    ensures buffer { buf.new ≡ laid_in (string_of figures) terminated buf.old }
{
    let end = figures.characters();
    let written = claim(end as u32, terminated, buf)?;
    figures.lay(end, buf);
    Ok(written)
}
