// GS strings: a text with quotes, codes and references, translated whole or refused.
#![tactic(auto)]

ghost use Rattle.std.specs.Prelude.{◌≡◌, ◌≤◌, length};
ghost use Rattle.paper.specs.Traces.{bytes, answer};
ghost use Rattle.indexes.specs.Indexes.{given_as};
ghost use Rattle.gs.specs.inner.Steps.{not_good};
ghost use Rattle.gs.specs.Translations.{reading_of, translated_by, left_by, translated, out_after};

mod expansion;
mod names;
pub mod steps;
mod values;

use lookups::{NotGood, bytes_given, judge};
use names::{Names, are_bytes};
use paper::allowance::cap;
use paper::refusals::{BadTableOf, Refusal};
use paper::{LONGEST, TextPlace};
use steps::Carried;
use symbols::flags::Flags;
use variables::both;
use variables::both::Tables;

// A text that was translated: the place of its end, the bytes written, and the room left.
#[derive(Clone, Copy)]
pub struct Translated {
    pub end: TextPlace,
    pub need: usize,
    pub free: usize,
}

// Why a text was not translated, and the room, which is left as it was.
#[derive(Clone, Copy)]
pub enum NotTranslated {
    // With the room that is enough where there is too little.
    Refused {
        why: Refusal,
        at: TextPlace,
        need: usize,
        free: usize,
    },
    // A table is not good.
    BadTable {
        bad: BadTableOf,
        free: usize,
    },
    // The index is not the house table's.
    BadIndex {
        free: usize,
    },
}

// How deep macros may go: the outer text has depth 0, and none is named in a text of depth 16.
const LEVELS: u8 = 16;

// A text over good tables. The first pass is lent nothing and measures; only when all of it has room does the second write.
fn fill<'a>(
    text: &[u8],
    names: &Names<'a>,
    flags: Flags,
    left: u32,
    out: &mut [u8],
) -> Result<Translated, NotTranslated>
    requires { (length text.now ≤ 65535) × (left ≤ 1024) }
    ensures answer { result ≡ translated_by (answer (reading_of text.now names.now.tables.farm.now names.now.tables.house.now flags.0) left (length out.old)) }
    ensures buffer { out.new ≡ left_by result (bytes (reading_of text.now names.now.tables.farm.now names.now.tables.house.now flags.0)) out.old }
{
    let room = out.len();
    let begun = Carried { to: 0, left };
    let measured = expansion::expand(text, names, flags, LEVELS, begun, &mut out[0..0]).map_err(
        |refused| NotTranslated::Refused {
            why: refused.why,
            at: refused.at,
            need: 0,
            free: room,
        },
    )?;
    let need = measured.carried.to;
    if room < need {
        return Err(NotTranslated::Refused {
            why: Refusal::NoRoom,
            at: TextPlace(0),
            need,
            free: room,
        });
    }
    // The same reading, all of which has room now: it comes to the same end.
    let _ = expansion::expand(text, names, flags, LEVELS, begun, out);
    Ok(Translated {
        end: measured.end,
        need,
        free: room - need,
    })
}

// A text with the references that the variables of the farm's table and the house's resolve, through an index beside the house's where one is
// given, at the start of `out`: whole, or not at all.
pub fn translate<'a>(
    text: &[u8],
    tables: &Tables<'a>,
    index: Option<&[u8]>,
    flags: Flags,
    allowance: u32,
    out: &mut [u8],
) -> Result<Translated, NotTranslated>
    ensures answer { result ≡ translated text.now tables.now.farm.now tables.now.house.now (given_as index.entry) flags.0 allowance (length out.old) }
    ensures buffer { out.new ≡ out_after text.now tables.now.farm.now tables.now.house.now (given_as index.entry) flags.0 allowance out.old }
{
    let room = out.len();
    if LONGEST < text.len() {
        return Err(NotTranslated::Refused {
            why: Refusal::OverLength,
            at: TextPlace(0),
            need: 0,
            free: room,
        });
    }
    // An array with a count beside it: the library has no heap, and the keys of two tables are as many as these at the most.
    let mut keys = both::NO_KEYS;
    let count = judge(tables, index, &mut keys).map_err(|why| not_good(why, room))?;
    let lines: &[u32] = &keys;
    are_bytes(tables.farm);
    are_bytes(tables.house);
    let names = Names {
        tables: *tables,
        keys: &lines[0..count],
        index: bytes_given(index),
    };
    fill(text, &names, flags, cap(allowance), out)
}

// Tables or an index that are not good, as a translation tells it.
fn not_good(why: NotGood, free: usize) -> NotTranslated
    ensures { result ≡ not_good why free }
{
    match why {
        NotGood::Table(bad) => NotTranslated::BadTable { bad, free },
        NotGood::Index => NotTranslated::BadIndex { free },
    }
}
