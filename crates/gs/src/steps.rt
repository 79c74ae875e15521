// How far a reference and a text come, where neither is refused.
use paper::TextPlace;

// What a translation carries along: the bytes that it has given, where the next one goes, and the look-ups that are left.
#[derive(Clone, Copy)]
pub struct Carried {
    pub to: usize,
    pub left: u32,
}

// The end of a text that was read whole, and what it carried there.
#[derive(Clone, Copy)]
pub struct Expanded {
    pub end: TextPlace,
    pub carried: Carried,
}
