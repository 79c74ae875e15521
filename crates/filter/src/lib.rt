// From standard input to standard output: a text's translation, or a line that says why there is none.
#![tactic(auto)]

ghost use Rattle.std.specs.Prelude.{◌≡◌, ◌++◌, ◌≤◌, length, drop};
ghost use Rattle.filter.specs.Answers.{line_of, answer_to, Answered};

mod lines;

use gs::NotTranslated;
use paper::refusals::Refusal;
use std::io::Read;
use symbols::flags::Flags;
use variables::both::Tables;

// How many bytes the text has that was read, and how many its answer.
#[derive(Clone, Copy)]
pub struct Lengths {
    pub text: usize,
    pub answer: usize,
}

// How many bytes of the input were read, and whether there is no more of it to read: a read that fails ends it early. No Result: `run`
// goes on with the number either way, and a match would bind the same one in both arms.
#[derive(Clone, Copy)]
struct Taken {
    text: usize,
    whole: bool,
}

// The answer to a text, at the start of `out`: its translation, or the line of its refusal. Both tables are empty, there is no index, no
// flag is set, and no look-up is allowed. What stands behind the answer stays.
pub fn answer(text: &[u8], out: &mut [u8; 65535]) -> usize
    ensures length { result ≡ length (answer_to text.now) }
    ensures buffer { out.new ≡ answer_to text.now ++ drop result out.old }
{
    let no_table = &text[0..0];
    let no_tables = Tables {
        farm: no_table,
        house: no_table,
    };
    let translated = gs::translate(text, &no_tables, None, Flags::none(), 0, out);
    match translated {
        Ok(whole) => whole.need,
        Err(refusal) => explain(refusal, out),
    }
}

// The line of a refusal, at the start of a buffer. What stands behind it stays.
fn explain(refusal: NotTranslated, out: &mut [u8]) -> usize
    requires { 53 ≤ length out.old }
    ensures length { result ≡ length (line_of refusal) }
    ensures buffer { out.new ≡ line_of refusal ++ drop result out.old }
{
    match refusal {
        NotTranslated::Refused {
            why,
            at,
            need: _,
            free: _,
        } => lines::refusal(why, at.0, out),
        NotTranslated::BadTable { bad, free: _ } => lines::refusal(bad.why, bad.at.0, out),
        NotTranslated::BadIndex { free: _ } => lines::refusal(Refusal::BadIndex, 0, out),
    }
}

// Reads standard input to the start of a buffer, until it is full, the input ends or a read fails. A loop over `read`, since `read_exact`
// does not tell how much there was of an input that is shorter than the buffer.
fn take(rt: &impl Input, input: &mut [u8]) -> Taken
    ensures { result.text ≤ length input.new }
{
    let mut reader = rt.reader();
    let mut text = 0;
    while text < input.len() {
        match reader.read(&mut input[text..]) {
            Ok(0) => return Taken { text, whole: true },
            Ok(more) => text += more,
            Err(_) => return Taken { text, whole: false },
        }
    }
    Taken { text, whole: true }
}

// Writes the answer to a text that was read whole. A text that a failed read cut off gets no answer: nobody could tell it from a
// whole one's. The exit status does not tell of it, so standard error does; if that fails too, there is nobody left to tell.
fn send(rt: &(impl Print + Eprint), whole: bool, answer: &[u8]) {
    if !whole {
        let _ = eprintln!(rt; "translate: standard input failed, nothing was translated");
        return;
    }
    if rt.write_all(answer).is_err() {
        let _ = eprintln!(rt; "translate: standard output failed, the answer is cut");
    }
}

// Reads standard input and writes its answer to standard output. What `input` has no room for is not read: a text that
// fills it is too long already. What is read and written this contract does not determine, as none can (docs/GAPS.md): it says
// that `out` holds what `answer` makes of the start of `input`.
pub fn run(
    rt: &(impl Input + Print + Eprint),
    input: &mut [u8; 65536],
    out: &mut [u8; 65535],
) -> Lengths
    ensures { Answered input.new result.text out.old out.new result.answer }
{
    let taken = take(rt, input);
    // an array that is lent is lent on in part by way of a slice
    let read: &[u8] = input;
    let answer = answer(&read[..taken.text], out);
    let written: &[u8] = out;
    send(rt, taken.whole, &written[..answer]);
    Lengths {
        text: taken.text,
        answer,
    }
}
