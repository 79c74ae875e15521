// The lines of standard input, by way of a buffer of one size.
ghost use Rattle.std.specs.Prelude.{◌≤◌, length};

use std::io::Read;

// The longest line has a text and two tables in hex.
const ROOM: usize = 524288;

// Stands for the start of a line that the buffer could not hold. No case has it.
const CUT: u8 = 0;

// `end` is how many of the bytes are filled. They are an array, since no heap is used.
#[derive(Drop)]
pub(crate) struct Lines {
    bytes: [u8; ROOM],
    end: usize,
    ghost within: { end ≤ 524288 },
}

impl Lines {
    pub(crate) fn new() -> Lines {
        Lines {
            bytes: [0; ROOM],
            end: 0,
        }
    }

    // Fills the buffer as far as the input goes. A read that fails ends the input. A `while`: each turn goes on behind what its read gave,
    // of which no `for` is plainer.
    pub(crate) fn fill(&mut self, rt: &impl Input) {
        let mut reader = rt.reader();
        while self.end < ROOM {
            match reader.read(&mut self.bytes[self.end..]) {
                Ok(0) => return,
                Ok(more) => self.end += more,
                Err(_) => return,
            }
        }
    }

    pub(crate) fn is_full(&self) -> bool {
        self.end == ROOM
    }

    // The lines that are there whole. A line that has no end in a full buffer goes on behind it; where the buffer isn't full the input
    // has ended, and its last line with it.
    pub(crate) fn whole(&self) -> &[u8]
        ensures { length result.now ≤ self.now.end }
    {
        let filled = &self.bytes[..self.end];
        if !self.is_full() {
            return filled;
        }
        let end = match filled.iter().rposition(|b| *b == b'\n') {
            Some(last) => last + 1,
            None => 0,
        };
        &filled[..end]
    }

    // Leaves the start of the line that goes on behind a full buffer, and nothing else. Where that is all of the buffer the line is too
    // long, and it is dropped.
    pub(crate) fn drop_whole(&mut self) {
        let start = self.whole().len();
        if start == 0 {
            self.bytes[0] = CUT;
            self.end = 1;
            return;
        }
        self.bytes.copy_within(start..self.end, 0);
        self.end -= start;
    }
}
