// Sets of small numbers, in memory of a fixed size: a bit for each number, 32 to a word.
ghost use Rattle.std.specs.Prelude.{◌≡◌, ℕ, false, ◌||◌, ◌*◌, ◌<◌, ◌≤◌, eqb};
ghost use Rattle.paper.specs.inner.Bits.{holds};

// Some of the numbers below 32 * WORDS.
#[derive(Drop)]
pub struct Bits<const WORDS: usize> {
    words: [u32; WORDS],
}

impl<const WORDS: usize> Bits<WORDS> {
    #[tactic(auto, using(crate::proofs::BitLaws::none_held))]
    pub fn none() -> Bits<WORDS>
        ensures { (number : ℕ) → holds result.words number ≡ false }
    {
        Bits { words: [0; WORDS] }
    }

    // No number beyond those of the set is in it.
    #[tactic(auto, unfolding(crate::specs::inner::Bits::holds))]
    pub fn has(&self, number: u32) -> bool
        ensures { result ≡ holds self.now.words number }
    {
        let at = (number / 32) as usize;
        at < WORDS && (self.words[at] >> (number % 32)) % 2 == 1
    }

    // A number beyond those of the set changes nothing.
    pub fn insert(&mut self, number: u32)
        ensures inside { number < 32 * WORDS → (other : ℕ) → holds self.new.words other ≡ (eqb other number || holds self.old.words other) }
        ensures beyond { 32 * WORDS ≤ number → self.new ≡ self.old }
    {
        let at = (number / 32) as usize;
        if at < WORDS {
            self.words[at] = self.words[at] | (1 << (number % 32));
        }
    }
}
