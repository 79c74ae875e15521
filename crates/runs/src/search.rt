// Where a run of bytes that pass a test ends. Most of a text is such runs, so they are found block by block, with no branch inside a
// block: the compiler then makes vector instructions of a block's comparisons.
ghost use Rattle.std.specs.Prelude.{◌≡◌, Bool, true, false, ℕ, ◌+◌, ◌*◌, ◌≤◌, ◌<◌, length, get_or, drop};
ghost use Rattle.paper.specs.Bytes.{run_of};
ghost use Rattle.runs.specs.inner.Stretches.{Stretch};

// The bytes at which a run ends.
pub trait Ends: Copy {
    // A block's length. What its bytes weigh together fits a byte.
    const BLOCK: usize;

    ghost BLOCK: { ℕ };

    // Whether a byte ends no run.
    ghost plain_byte: { Self → ℕ → Bool };

    // What a byte weighs: 0 where it ends no run. A number to be summed, made without a branch.
    fn marks(self, c: u8) -> u8
        ensures { (BLOCK * result < 256) × (result ≡ 0 → plain_byte self c ≡ true) };

    // The same for one byte by itself.
    fn is_plain(self, c: u8) -> bool
        ensures { result ≡ plain_byte self c };

    ghost some_bytes: { 0 < BLOCK };

    // Past the end of a text, where a zero stands, no run goes on.
    ghost zero_ends: { (ends : Self) → plain_byte ends 0 ≡ false };
}

// How many bytes are looked at one by one before the first block.
const NEAR: usize = 8;

// 0 where no byte of a block ends a run.
#[tactic(auto, using(crate::proofs::StretchLaws::stretch_none, crate::proofs::StretchLaws::stretch_next, crate::proofs::StretchLaws::weights_fit))]
fn weight<E: Ends>(ends: E, text: &[u8], at: usize) -> u8
    requires { at + E.BLOCK ≤ length text.now }
    ensures { result ≡ 0 → Stretch (E.plain_byte ends) text.now at (at + E.BLOCK) }
{
    let mut sum = 0;
    for c in &text[at..at + E::BLOCK] {
        sum += ends.marks(*c);
    }
    sum
}

// The end of the whole blocks from `start` on in which no byte ends a run. `as_chunks` takes a const argument, and the language takes no
// trait's constant for one; of `chunks_exact` the place, which is the answer, would be counted beside the block all the same.
#[tactic(auto, using(crate::proofs::StretchLaws::stretch_none, crate::proofs::StretchLaws::stretch_more))]
fn blocks_end<E: Ends>(ends: E, text: &[u8], start: usize) -> usize
    requires { start ≤ length text.now }
    ensures { Stretch (E.plain_byte ends) text.now start result }
{
    let mut at = start;
    while E::BLOCK <= text.len() - at {
        if weight(ends, text, at) != 0 {
            return at;
        }
        at += E::BLOCK;
    }
    at
}

// The end of the bytes from `start` up to `stop` that end no run, one by one.
#[tactic(auto, using(crate::proofs::StretchLaws::stretch_none, crate::proofs::StretchLaws::stretch_next))]
fn bytes_end<E: Ends>(ends: E, text: &[u8], start: usize, stop: usize) -> usize
    requires { (start ≤ stop) × (stop ≤ length text.now) }
    ensures run { Stretch (E.plain_byte ends) text.now start result }
    ensures end { (result < stop → E.plain_byte ends (get_or text.now result 0) ≡ false) × (result ≤ stop) }
{
    for at in start..stop {
        if !ends.is_plain(text[at]) {
            return at;
        }
    }
    stop
}

// The first place behind the bytes from `start` on that are looked at one by one, or the text's end where that is nearer.
fn block_behind(length: usize, start: usize) -> usize
    requires { start ≤ length }
    ensures { (start ≤ result) × (result ≤ length) }
{
    if length - start < NEAR {
        length
    } else {
        start + NEAR
    }
}

// The end of a run from `start` on. The first bytes are looked at one by one: where ends are close together, a block's sum would be taken
// in vain. From the text's end on there is none.
#[tactic(auto, using(crate::proofs::StretchLaws::stretch_more, crate::proofs::StretchLaws::stretch_run))]
pub fn run_end<E: Ends>(ends: E, text: &[u8], start: usize) -> usize
    ensures { result ≡ start + run_of (E.plain_byte ends) (drop start text.now) }
{
    if text.len() <= start {
        return start;
    }
    let near = block_behind(text.len(), start);
    let at = bytes_end(ends, text, start, near);
    if at < near {
        return at;
    }
    let far = blocks_end(ends, text, at);
    bytes_end(ends, text, far, text.len())
}
