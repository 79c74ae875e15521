// Notes of the keys that lines have: of each the remainder by 2,048. Where a key's is not noted, no line that was noted has that key: so
// the check of a table goes over the lines before a record only where another name has noted that of its name.
ghost use Rattle.std.specs.Prelude.{◌≡◌, ℕ, ◌||◌, ◌%◌, eqb};
ghost use Rattle.variables.specs.inner.Notes.{noted};

use paper::bits::Bits;

pub(crate) type Notes = Bits<64>;

// Whether a line with this line's key can be among those that were noted.
pub(crate) fn is_noted(notes: &Notes, line: u32) -> bool
    ensures { result ≡ noted notes.now line }
{
    notes.has(line % 2048)
}

pub(crate) fn note(notes: &mut Notes, line: u32)
    ensures { (other : ℕ) → noted notes.new other ≡ (eqb (other % 2048) (line % 2048) || noted notes.old other) }
{
    notes.insert(line % 2048);
}
