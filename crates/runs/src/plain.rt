// The bytes of a text that stand for themselves in every text.
ghost use Rattle.std.specs.Prelude.{◌≡◌, ◌+◌, drop, refl};
ghost use Rattle.std.proofs.Common.{rules};
ghost use Rattle.paper.specs.Bytes.{run_of};
ghost use Rattle.runs.specs.Plain.{also_ends, marked, plain_byte};

use crate::search::{Ends, run_end};
use paper::bytes::is_end;

// Whether a byte always ends a run, for one byte by itself: the compiler makes one bit test of these, and nothing good of a sum.
fn is_marked(c: u8) -> bool
    ensures { result ≡ marked c }
{
    is_end(c) || (c == b'"' || (c == b'<' || c == b'|'))
}

// The bytes that end a run of a text: those that always do, and one besides. Where there is none it is 0, which ends a run anyway: an Option
// would be tested for each byte of a block, which has no branch.
#[derive(Clone, Copy)]
struct Marks {
    also: u8,
}

impl Ends for Marks {
    const BLOCK: usize = 16;

    ghost BLOCK = { 16 };

    ghost plain_byte = { λ marks. plain_byte marks.also };

    fn marks(self, c: u8) -> u8 {
        let lines = u8::from(c == 0) + u8::from(c == 10) + u8::from(c == 13);
        let others = u8::from(c == b'"') + u8::from(c == b'<') + u8::from(c == b'|');
        lines + others + u8::from(c == self.also)
    }

    fn is_plain(self, c: u8) -> bool {
        !is_marked(c) && c != self.also
    }

    ghost some_bytes = { Prim.search rules };

    ghost zero_ends = { λ marks. refl };
}

// The byte that ends a run besides those that always do. The zero, which does so anyway, stands for none.
fn also_ends(spaces_end: bool) -> u8
    ensures { result ≡ also_ends spaces_end }
{
    if spaces_end { b' ' } else { 0 }
}

// The end of a run of bytes from `start` on that stand for themselves in every text, spaces only where they do not end it. From the
// text's end on there is none.
pub fn plain_end(text: &[u8], start: usize, spaces_end: bool) -> usize
    ensures { result ≡ start + run_of (plain_byte (also_ends spaces_end)) (drop start text.now) }
{
    let marks = Marks {
        also: also_ends(spaces_end),
    };
    run_end(marks, text, start)
}
