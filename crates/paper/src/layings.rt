// A string that is laid at the start of a lent buffer: what is answered, and the room that is claimed for it.
ghost use Rattle.std.specs.Prelude.{◌≡◌, cond, length, set};
ghost use Rattle.paper.specs.Layings.{laying_of, converted_by};
ghost use Rattle.paper.specs.inner.Claims.{claimed_in};

use crate::refusals::Refusal;
use crate::{TextPlace, one_if};

// A string that is written: the number of its characters, where the zero byte stands if there is one; the room that the whole string takes;
// and the room behind the characters.
#[derive(Clone, Copy, PartialEq, Eq)]
pub struct Written {
    pub offset: usize,
    pub need: usize,
    pub free: usize,
}

// Why nothing is written, and the place of it in the text; the room that is enough, if that is what lacks; and the room that is free.
#[derive(Clone, Copy, PartialEq, Eq)]
pub struct NotWritten {
    pub why: Refusal,
    pub at: TextPlace,
    pub need: usize,
    pub free: usize,
}

// What a conversion answers.
pub type Converted = Result<Written, NotWritten>;

// Claims the room for a string of so many characters, which the caller then writes: the answer is the whole string's, and its zero byte
// stands where it is to be, if there is one. Where there is no room, nothing changes. Both answers are made at one end: with a `return`
// for one of them, the compiler leaves the answer in memory.
#[tactic(auto, using(std::proofs::lemmas::Bool::Decides::nat_tests, crate::proofs::Stores::sets_if), unfolding(crate::specs::Layings::laying_of, crate::specs::inner::Claims::claimed_in))]
pub fn claim(characters: u32, terminated: bool, buf: &mut [u8]) -> Converted
    ensures answer { result ≡ converted_by (laying_of characters terminated (length buf.old)) }
    ensures buffer { buf.new ≡ claimed_in characters terminated buf.old }
{
    let offset = characters as usize;
    let need = offset + one_if(terminated);
    let room = buf.len();
    if room < need {
        Err(NotWritten {
            why: Refusal::NoRoom,
            at: TextPlace(0),
            need,
            free: room,
        })
    } else {
        put_if(terminated, 0, offset, buf);
        let free = room - offset;
        Ok(Written { offset, need, free })
    }
}

// Writes one byte, if it is wanted and lies inside the buffer. The flag stays: `Determined` of `promises` has it (`put_if`).
pub fn put_if(wanted: bool, byte: u8, at: usize, buf: &mut [u8])
    ensures { buf.new ≡ cond wanted (set buf.old at byte) buf.old }
{
    if wanted {
        if at < buf.len() {
            buf[at] = byte;
        }
    }
}
