// Runs the cases of standard input through the proved libraries, and writes a line of answer to each.
#![tactic(auto)]

mod answers;
mod cases;
mod fields;
mod frame;
mod hex;
mod lines;

use lines::Lines;

// Answers each line of the bytes. The two buffers stand here, so that they cost one filling for each buffer of the input and not for each
// line.
fn answer_lines(rt: &impl Print, bytes: &[u8]) {
    let mut held = [0; cases::ROOM];
    let mut lent = [0; frame::ROOM];
    for line in bytes.split_inclusive(|b| *b == b'\n') {
        let case = line.strip_suffix(b"\n").unwrap_or(line);
        cases::answer(rt, case, &mut held, &mut lent);
    }
}

// Where a buffer does not get full the input has ended. A proved loop has to end, and nothing says that the input does: so
// the loop has a number of turns that no run uses up.
fn answer_all(rt: &(impl Input + Print)) {
    let mut lines = Lines::new();
    for _ in 0..u64::MAX {
        lines.fill(rt);
        answer_lines(rt, lines.whole());
        if !lines.is_full() {
            return;
        }
        lines.drop_whole();
    }
}

fn main(rt: HostRuntime) {
    answer_all(&rt);
}
