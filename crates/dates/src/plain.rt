// The bytes of a format that stand for themselves.
ghost use Rattle.std.specs.Prelude.{◌≡◌, ◌+◌, drop, refl};
ghost use Rattle.std.proofs.Common.{rules};
ghost use Rattle.paper.specs.Bytes.{run_of};
ghost use Rattle.dates.specs.inner.Steps.{plain_byte};

use runs::search::{Ends, run_end};

// The bytes that end a run of a format.
#[derive(Clone, Copy)]
struct Marks;

impl Ends for Marks {
    // The sum over a shorter block is unrolled by the compiler before it makes vectors of it, and takes longer.
    const BLOCK: usize = 64;

    ghost BLOCK = { 64 };

    ghost plain_byte = { λ _. plain_byte };

    // A percent sign weighs 2: of a sum of ones alone the compiler makes a count of the bits of a mask, which takes several times as long.
    fn marks(self, c: u8) -> u8 {
        u8::from(c == 0) + 2 * u8::from(c == b'%')
    }

    fn is_plain(self, c: u8) -> bool {
        c != 0 && c != b'%'
    }

    ghost some_bytes = { Prim.search rules };

    ghost zero_ends = { λ _. refl };
}

// The end of a run of bytes from `start` on that stand for themselves. From the format's end on there is none.
pub(crate) fn plain_end(format: &[u8], start: usize) -> usize
    ensures { result ≡ start + run_of plain_byte (drop start format.now) }
{
    run_end(Marks, format, start)
}
