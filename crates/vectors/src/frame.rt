// A known byte in the room that a case lends and behind it, to show what the case changed and must not.

// How many bytes a case lends at most: more than any translation needs.
pub const MOST: usize = 330000;

// How many bytes behind the room are watched too.
const MARGIN: usize = 16;

pub const ROOM: usize = MOST + MARGIN;

// An array, since no heap is used.
pub type Lent = [u8; ROOM];

pub const FILLER: u8 = 170;

// A room of so many bytes and the margin behind it, filled with the known byte.
pub(crate) fn framed(lent: &mut [u8], size: u32) -> &mut [u8] {
    let end = lent.len().min(size as usize + MARGIN);
    let framed = &mut lent[..end];
    framed.fill(FILLER);
    framed
}

// The room for a case to write in.
pub(crate) fn room(framed: &mut [u8]) -> &mut [u8] {
    let end = framed.len().saturating_sub(MARGIN);
    &mut framed[..end]
}

// What was written to the start of a room, and all that stands behind it.
pub(crate) fn cut(framed: &[u8], end: usize) -> (&[u8], &[u8]) {
    framed.split_at(end.min(framed.len()))
}

// Adds a word to the answer, which no expected answer has, where the first of these bytes is another than `first`, or one behind it
// is not the known byte.
pub(crate) fn watch(rt: &impl Print, kept: &[u8], first: u8) {
    let stays = match kept.split_first() {
        Some((byte, rest)) => *byte == first && rest.iter().all(|b| *b == FILLER),
        None => true,
    };
    if !stays {
        let _ = print!(rt; " touched");
    }
}
