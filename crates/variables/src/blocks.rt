// Lines passed over in blocks: a look-up's first lines, as far as none of them has its key. A block's lines are compared with no branch
// between them: the compiler then makes vector instructions of the comparisons.
ghost use Rattle.std.specs.Prelude.{◌≡◌, ℕ, ◌%◌, ◌<◌, get_or};
ghost use Rattle.variables.specs.inner.Keys.{Without};

// A block's length, in lines.
const BLOCK: usize = 16;

// 1 where a line has a key, else 0: a number to be joined to others, and no branch.
fn hit(line: u32, key: u32) -> u32
    ensures { result ≡ 0 → line % 32768 ≡ key → ⊥ }
{
    u32::from(line % 32768 == key)
}

// 0 where no line of a block has a key.
fn hits(block: &[u32; BLOCK], key: u32) -> u32
    ensures { result ≡ 0 → (k : ℕ) → k < 16 → get_or block.now k 0 % 32768 ≡ key → ⊥ }
{
    let mut any = 0;
    for line in block {
        any |= hit(*line, key);
    }
    any
}

// The end of the first blocks that are whole and none of whose lines has a key.
pub(crate) fn blocks_without(keys: &[u32], key: u32) -> usize
    ensures { Without key keys.now result }
{
    let (blocks, _) = keys.as_chunks::<BLOCK>();
    for (number, block) in blocks.iter().enumerate() {
        if hits(block, key) != 0 {
            return BLOCK * number;
        }
    }
    BLOCK * blocks.len()
}
