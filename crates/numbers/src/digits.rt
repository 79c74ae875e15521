// A number's digits: how far they spread with their spaces and a minus, and the writing of them. This is no Display: they are written into a
// lent buffer, from the right, and in groups. That they end inside it is in the contracts: the buffer is written to, so that no type can hold
// it and the fact.
ghost use Rattle.std.specs.Prelude.{◌≡◌, cond, ◌&&◌, ◌++◌, ◌+◌, ◌-◌, ◌≤◌, eqb, length, take, drop};
ghost use Rattle.std.proofs.lemmas.List.Edits.{sets};
ghost use Rattle.forms.specs.Digits.{digits};
ghost use Rattle.forms.specs.Strings.{radix};
ghost use Rattle.numbers.specs.inner.Steps.{spread_of, gap_before, characters_of, string_of};

use forms::forms::Base;
use forms::size::Number;
use paper::layings::put_if;
use paper::one_if;

// A number as it is to be written: with its minus, the last `count` of its digits in a base, and spaces between groups of three of them
// where it is spaced.
#[derive(Clone, Copy)]
pub(crate) struct Figures {
    pub number: Number,
    pub base: Base,
    pub count: u8,
    pub spaced: bool,
}

impl Figures {
    // How many characters the digits take with their minus and their spaces.
    pub(crate) fn characters(self) -> usize
        ensures { (result ≡ characters_of self) × (result ≤ 341) }
    {
        one_if(self.number.negative) + self.spread()
    }

    // The room that the digits take with their spaces.
    pub(crate) fn spread(self) -> usize
        ensures { (result ≡ spread_of self.spaced self.count) × (result ≤ 340) }
    {
        let count = usize::from(self.count);
        if self.spaced && 0 < count {
            return count + (count - 1) / 3;
        }
        count
    }

    // Writes the digits and their minus, from the start of `buf` up to `end`. Inlined, the base and the spaces are known.
    #[inline(always)]
    pub(crate) fn lay(self, end: usize, buf: &mut [u8])
        requires { (end ≡ characters_of self) × (end ≤ length buf.old) }
        ensures { buf.new ≡ string_of self ++ drop end buf.old }
    {
        self.put_digits(end, buf);
        put_if(self.number.negative, b'-', 0, buf);
    }

    // Writes the digits from the right, so that they end at `end`. Those of a group are counted along, which is quicker than a remainder
    // for every digit.
    #[inline(always)]
    fn put_digits(self, end: usize, buf: &mut [u8])
        requires { (spread_of self.spaced self.count ≤ end) × (end ≤ length buf.old) }
        ensures { buf.new ≡ take (end - spread_of self.spaced self.count) buf.old ++ (digits (radix self.base) self.spaced self.count self.number.magnitude ++ drop end buf.old) }
    {
        let mut rest = self.number.magnitude;
        let mut at = end;
        let mut group = 0;
        for _done in 0..self.count {
            at = put_gap(self.spaced, group, at, buf);
            group = next_in_group(group);
            at -= 1;
            buf[at] = self.base.last_glyph(rest);
            rest = self.base.shrink(rest);
        }
    }
}

// Whether a space stands before the digits that are done: the group before which it would stand has `group` of them.
fn gap_before(spaced: bool, group: usize) -> bool
    ensures { result ≡ (spaced && eqb group 3) }
{
    spaced && group == 3
}

// One digit more: in the same group, or the first of the next one.
fn next_in_group(group: usize) -> usize
    requires { group ≤ 3 }
    ensures { result ≡ cond (eqb group 3) 1 (group + 1) }
{
    if group == 3 {
        return 1;
    }
    group + 1
}

// Writes the space before a group that is whole, so that it ends at `end`. The answer is where it starts.
fn put_gap(spaced: bool, group: usize, end: usize, buf: &mut [u8]) -> usize
    requires { (length (gap_before spaced group) ≤ end) × (end ≤ length buf.old) }
    ensures start { result ≡ end - length (gap_before spaced group) }
    ensures buffer { buf.new ≡ sets buf.old result (gap_before spaced group) }
{
    if !gap_before(spaced, group) {
        return end;
    }
    let start = end - 1;
    buf[start] = b' ';
    start
}
