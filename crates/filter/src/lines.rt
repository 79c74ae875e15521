// A line composed at the start of a buffer. Each function takes the place where the line ends so far and answers the next one.
ghost use Rattle.std.specs.Prelude.{◌≡◌, ◌++◌, ◌+◌, ◌≤◌, length, take, drop};
ghost use Rattle.paper.specs.Refusals.{refusal_number};
ghost use Rattle.filter.specs.Lines.{decimal, refusal_line};

use itoa::Buffer;
use paper::refusals::Refusal;
use runs::output::copy;

// "refused", the number, "at" and the place. What stands behind the line stays.
pub(crate) fn refusal(why: Refusal, place: usize, out: &mut [u8]) -> usize
    requires { 53 ≤ length out.old }
    ensures length { result ≡ length (refusal_line (refusal_number why) place) }
    ensures buffer { out.new ≡ refusal_line (refusal_number why) place ++ drop result out.old }
{
    let said = put(b"refused ", 0, out);
    let numbered = put_decimal(why.number() as u64, said, out);
    let placed = put(b" at ", numbered, out);
    let ended = put_decimal(place as u64, placed, out);
    put(b"\n", ended, out)
}

// A number in decimal, which has at most 20 digits.
fn put_decimal(n: u64, at: usize, out: &mut [u8]) -> usize
    requires { at + 20 ≤ length out.old }
    ensures near { result ≤ at + 20 }
    ensures next { result ≡ at + length (decimal n) }
    ensures buffer { out.new ≡ take at out.old ++ decimal n ++ drop result out.old }
{
    let mut digits = Buffer::new();
    put(digits.format(n).as_bytes(), at, out)
}

fn put(bytes: &[u8], at: usize, out: &mut [u8]) -> usize
    requires { at + length bytes.now ≤ length out.old }
    ensures next { result ≡ at + length bytes.now }
    ensures buffer { out.new ≡ take at out.old ++ bytes.now ++ drop result out.old }
{
    copy(bytes, at, out);
    at + bytes.len()
}
