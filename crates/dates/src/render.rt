// The string of a moment by a format, or what is wrong with the format.
ghost use Rattle.std.specs.Prelude.{◌≡◌, ◌+◌, ◌≤◌, length};
ghost use Rattle.std.proofs.lemmas.List.Edits.{sets};
ghost use Rattle.paper.specs.Refusals.{longest};
ghost use Rattle.runs.specs.Output.{laid_at};
ghost use Rattle.dates.specs.Formats.{layout_of, string};
ghost use Rattle.dates.specs.inner.Steps.{glyphs, rendered};

use crate::fields::Glyphs;
use crate::pieces::{Piece, piece_at};
use crate::plain::plain_end;
use calendar::Moment;
use paper::TextPlace;
use runs::output::{copy, put};

// A format's first bad field: the place of its percent sign.
#[derive(Clone, Copy)]
pub(crate) struct BadField {
    pub at: TextPlace,
}

// A moment, and the format that its string is made by.
#[derive(Clone, Copy)]
pub(crate) struct FormattedMoment<'a> {
    pub moment: Moment,
    pub format: &'a [u8],
    ghost short: { length format.now ≤ longest },
    // Months are counted from 1.
    ghost counted: { 1 ≤ moment.month },
}

impl<'a> FormattedMoment<'a> {
    // Writes the string from the start of `out` on, where there is room for all of it; where there is none this measures. Bytes that stand
    // for themselves go over one by one, or run by run, which is slower for runs of one or two bytes: by a flag, since a closure of that
    // step would take the format, both places and `out`, and say all that the loop says of them. The answer is how many characters the
    // string has.
    pub(crate) fn render(&self, by_runs: bool, out: &mut [u8]) -> Result<usize, BadField>
        ensures answer { result ≡ rendered self.now.moment 0 (layout_of self.now.format.now) }
        ensures buffer { length (string self.now.moment (layout_of self.now.format.now)) ≤ length out.old → out.new ≡ sets out.old 0 (string self.now.moment (layout_of self.now.format.now)) }
    {
        let format = self.format;
        let mut at = 0;
        let mut to = 0;
        loop {
            match piece_at(format, at) {
                Piece::End => return Ok(to),
                Piece::Bad => return Err(BadField { at: TextPlace(at) }),
                Piece::Copied(c) => {
                    if by_runs {
                        let end = plain_end(format, at);
                        copy(&format[at..end], to, out);
                        to += end - at;
                        at = end;
                    } else {
                        put(c, to, out);
                        at += 1;
                        to += 1;
                    }
                }
                Piece::Percent => {
                    put(b'%', to, out);
                    at += 2;
                    to += 1;
                }
                Piece::Shown(field) => {
                    to = put_glyphs(field.shown(self.moment), to, out);
                    at += 3;
                }
            }
        }
    }
}

// What a field shows, from `to` on, where all of it fits. The answer is the place behind it.
fn put_glyphs(shown: Glyphs, to: usize, out: &mut [u8]) -> usize
    requires { to ≤ longest }
    ensures behind { result ≡ to + length (glyphs shown) }
    ensures buffer { out.new ≡ laid_at out.old to (glyphs shown) }
{
    match shown {
        Glyphs::Two(two) => {
            copy(&two, to, out);
            to + 2
        }
        Glyphs::Three(three) => {
            copy(&three, to, out);
            to + 3
        }
    }
}
