// The bytes of a name: which ones are allowed, when two names are equal, and which of two comes first.
ghost use Rattle.std.specs.Prelude.{◌≡◌, ◌<◌, eqb};
ghost use Rattle.records.specs.inner.Keys.{key_of};
ghost use Rattle.records.specs.Records.{all_name_bytes, small, same_name, comes_before};

use paper::bytes::is_name_byte;

// No `all`: written so, it proves too, but the check of a table with 256 records took 7 % longer, since that loop tests for the end once
// more where it starts.
#[tactic(auto, using(crate::proofs::Equal::allowed_more))]
pub(crate) fn all_name_bytes(name: &[u8]) -> bool
    ensures { result ≡ all_name_bytes name.now }
{
    for c in name {
        if !is_name_byte(*c) {
            return false;
        }
    }
    true
}

// A letter A to Z as its small one; no other byte has a case.
#[tactic(auto, unfolding(crate::specs::Records::small), using(std::proofs::lemmas::Bool::Decides::nat_tests))]
fn small(c: u8) -> u8
    ensures { result ≡ small c }
{
    c.to_ascii_lowercase()
}

// A number below 32768 for a name: equal names have the same.
#[tactic(auto, using(crate::proofs::KeyLaws::key_more, crate::proofs::KeyLaws::key_end))]
pub fn key_of(name: &[u8]) -> u32
    ensures { (result ≡ key_of name.now) × (result < 32768) }
{
    let mut key = 0;
    for c in name {
        key = (31 * key + u32::from(small(*c))) % 32768;
    }
    key
}

// Whether two bytes differ in nothing but the case of A to Z. Most bytes of equal names are equal as they are: that is tested first, where
// the library's `eq_ignore_ascii_case`, of bytes or of slices, makes every byte of both small.
fn is_alike(x: u8, y: u8) -> bool
    ensures { result ≡ eqb (small x) (small y) }
{
    x == y || small(x) == small(y)
}

// The only place where names are tested for equality: their lengths first, then their bytes, up to the first two that differ. No `zip` here:
// one place goes for both, since the lengths are known to be equal, and a zip would ask once more which name ends first.
#[tactic(auto, using(crate::proofs::Equal::same_more, crate::proofs::Equal::same_end, crate::proofs::Equal::other_length))]
pub fn same_name(a: &[u8], b: &[u8]) -> bool
    ensures { result ≡ same_name a.now b.now }
{
    if a.len() != b.len() {
        return false;
    }
    for at in 0..a.len() {
        if !is_alike(a[at], b[at]) {
            return false;
        }
    }
    true
}

// The only place where names are put in order: by the first two bytes that are not alike, a proper beginning before what goes on.
pub fn comes_before(a: &[u8], b: &[u8]) -> bool
    ensures { result ≡ comes_before a.now b.now }
{
    for (x, y) in a.iter().zip(b) {
        if !is_alike(*x, *y) {
            return small(*x) < small(*y);
        }
    }
    a.len() < b.len()
}
