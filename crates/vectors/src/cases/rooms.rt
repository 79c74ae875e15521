// The answers of the operations that write into a room. `framed` is that room and the margin behind it.
use crate::answers::{Hex, Place};
use crate::frame::FILLER;
use crate::{answers, frame};
use paper::refusals::Refusal;

// `ok STRHEX OFFSET FREE` or `ok INDEXHEX NEED FREE`: what was written, up to `end`, and the room that is free behind it. `next` is to stand
// there.
pub(crate) fn written(rt: &impl Print, end: usize, free: usize, next: u8, framed: &[u8]) {
    let (bytes, behind) = frame::cut(framed, end);
    let bytes = Hex(bytes);
    let _ = print!(rt; "ok {bytes} {end} {free}");
    frame::watch(rt, behind, next);
}

// `no N PLACE NEED FREE` or `no N W PLACE NEED FREE`: nothing may have been written.
pub(crate) fn refused(
    rt: &impl Print,
    why: Refusal,
    place: Place,
    need: usize,
    free: usize,
    framed: &[u8],
) {
    answers::refusal(rt, why, place);
    let _ = print!(rt; " {need} {free}");
    frame::watch(rt, framed, FILLER);
}
