// What the names of a text mean: the tables, with what leads to the records in them.
ghost use Rattle.std.specs.Prelude.{◌≡◌, List, ℕ, ◌≤◌, get_or};
ghost use Rattle.references.specs.References.{referred_in};
ghost use Rattle.lookups.specs.inner.Through.{Leads};
ghost use Rattle.gs.specs.inner.Steps.{length_in};

use references::{Referred, resolve};
use variables::both::Tables;

// The two tables, some keys, and an index, or no bytes where none is given, as `bytes_given` has it.
#[derive(Clone, Copy)]
pub(crate) struct Names<'a> {
    pub tables: Tables<'a>,
    pub keys: &'a [u32],
    pub index: &'a [u8],
    ghost leads: { Leads tables.farm.now tables.house.now keys.now index.now },
    // A length is one byte of a record.
    ghost short: { (name : List ℕ) → length_in (referred_in tables.farm.now tables.house.now name) ≤ 255 },
}

impl<'a> Names<'a> {
    // What the content of a reference stands for.
    pub(crate) fn referred(&self, content: &[u8]) -> Referred
        ensures meaning { result ≡ referred_in self.now.tables.farm.now self.now.tables.house.now content.now }
        ensures short { length_in result ≤ 255 }
    {
        resolve(content, &self.tables, self.keys, self.index)
    }
}

// What the type of a slice says of its bytes. A proof is told it of a function's parameter, and not of a field behind a reference, as the
// tables' slices are: so this is called for what it ensures, and does nothing.
pub(crate) fn are_bytes(table: &[u8])
    ensures { (k : ℕ) → get_or table.now k 0 ≤ 255 }
{}
