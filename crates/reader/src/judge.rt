// What a run of digits comes to: its value, or the first refusal that it meets.
ghost use Rattle.std.specs.Prelude.{◌≡◌};
ghost use Rattle.reader.specs.Reading.{refused, goes_on, judged, based, in_base};

use crate::Number;
use crate::digits::{Run, run_from};
use paper::TextPlace;
use paper::bytes::byte;
use paper::refusals::{Refusal, Refused};

// An `Err` at once, as every caller here returns it.
pub(crate) fn refused(why: Refusal, at: usize) -> Result<Number, Refused>
    ensures { result ≡ refused why at }
{
    Err(Refused {
        why,
        at: TextPlace(at),
    })
}

// A text with what is asked of the number in it, which starts at `start`.
#[derive(Clone, Copy)]
pub(crate) struct Asked<'a> {
    pub(crate) text: &'a [u8],
    pub(crate) whole: bool,
    pub(crate) limit: u32,
    pub(crate) start: usize,
}

impl Asked<'_> {
    // Whether a whole number is wanted and the byte at `end` does not end one.
    fn goes_on(self, end: usize) -> bool
        ensures { result ≡ goes_on self.entry.text.now self.entry.whole end }
    {
        self.whole && 32 < byte(self.text, end)
    }

    // The digits of `run` stand from `first` on.
    #[tactic(auto, using(std::proofs::lemmas::Bool::Decides::nat_tests), unfolding(crate::specs::Reading::judged))]
    pub(crate) fn judge(self, first: usize, run: Run) -> Result<Number, Refused>
        ensures { result ≡ judged self.entry.text.now self.entry.whole self.entry.limit self.entry.start first run.end run.value }
    {
        let end = run.end;
        if end == first {
            return refused(Refusal::NoDigit, first);
        }
        let Ok(value) = u32::try_from(run.value) else {
            return refused(Refusal::TooBig, self.start);
        };
        if self.goes_on(end) {
            return refused(Refusal::NotEnded, end);
        }
        if self.limit < value {
            return refused(Refusal::OverLimit, self.start);
        }
        Ok(Number {
            value,
            end: TextPlace(end),
        })
    }

    // The digits of a base from the place `first` on. Where it is not inlined at its two calls, which the compiler by itself doesn't do, the
    // reader of short numbers takes an eighth longer.
    #[inline]
    pub(crate) fn based(self, first: usize, base: u8) -> Result<Number, Refused>
        ensures { result ≡ based self.entry.text.now self.entry.whole self.entry.limit self.entry.start first base }
    {
        self.judge(first, run_from(self.text, first, base))
    }

    // The same in a base that was read before "_", and may be none.
    #[tactic(auto, using(std::proofs::lemmas::Bool::Decides::nat_tests), unfolding(crate::specs::Reading::in_base))]
    pub(crate) fn in_base(self, first: usize, base: u64) -> Result<Number, Refused>
        ensures { result ≡ in_base self.entry.text.now self.entry.whole self.entry.limit self.entry.start first base }
    {
        if base < 2 || 36 < base {
            return refused(Refusal::BadBase, self.start);
        }
        self.based(first, base as u8)
    }
}
