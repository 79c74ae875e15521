// A place inside a text: what a symbol or a token is read from, once the text is known to go on there.
ghost use Rattle.std.specs.Prelude.{◌≡◌, ◌+◌, ◌≤◌, length, get_or};

use crate::bytes::byte;

// The place is at most the text's length, so that what is counted on from it by a few bytes has room in a word.
#[derive(Clone, Copy)]
pub struct Inside<'a> {
    pub text: &'a [u8],
    pub at: usize,
    pub ghost within: { at ≤ length text.now },
}

impl<'a> Inside<'a> {
    // The byte so many places further on, 0 past the slice's end. In a u8 those are few enough for every place.
    pub fn byte(&self, further: u8) -> u8
        ensures { result ≡ get_or self.now.text.now (self.now.at + further) 0 }
    {
        byte(self.text, self.at + usize::from(further))
    }
}
