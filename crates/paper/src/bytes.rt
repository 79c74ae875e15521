// The bytes of a text: one by its place, what kind it is, and where a run of one kind ends.
ghost use Rattle.std.specs.Prelude.{◌≡◌, ◌+◌, get_or, drop};
ghost use Rattle.paper.specs.Bytes.{among, run_of, ends, name_byte, letter, word_byte, of_kind};

// The byte at a place, 0 past the slice's end.
pub fn byte(text: &[u8], at: usize) -> u8
    ensures { result ≡ get_or text.now at 0 }
{
    if at < text.len() { text[at] } else { 0 }
}

pub fn among(low: u8, high: u8, c: u8) -> bool
    ensures { result ≡ among low high c }
{
    low <= c && c <= high
}

pub fn is_end(c: u8) -> bool
    ensures { result ≡ ends c }
{
    matches!(c, 0 | b'\n' | b'\r')
}

// A byte that a name may have. The quote, "<" and ">" mean something in a text.
#[tactic(auto, unfolding(crate::specs::Bytes::name_byte), using(std::proofs::lemmas::Bool::Decides::nat_tests))]
pub fn is_name_byte(c: u8) -> bool
    ensures { result ≡ name_byte c }
{
    matches!(c, b'!'..=b'~') && !matches!(c, b'"' | b'<' | b'>')
}

pub fn is_letter(c: u8) -> bool
    ensures { result ≡ letter c }
{
    matches!(c, b'A'..=b'Z' | b'a'..=b'z')
}

// A byte that a word of an expression may go on with.
#[tactic(auto, unfolding(crate::specs::Bytes::word_byte), using(std::proofs::lemmas::Bool::Decides::nat_tests))]
pub fn is_word_byte(c: u8) -> bool
    ensures { result ≡ word_byte c }
{
    is_letter(c) || matches!(c, b'0'..=b'9' | b'_' | b'$')
}

// The kinds of bytes of which runs are passed over. An enum and no closure: the theorem `Determined` of `promises` has `skip` with a kind, and
// `ByteKind::has`.
#[derive(Clone, Copy)]
pub enum ByteKind {
    Space,
    Name,
    Word,
}

impl ByteKind {
    pub fn has(self, c: u8) -> bool
        ensures { result ≡ of_kind self c }
    {
        match self {
            ByteKind::Space => c == b' ',
            ByteKind::Name => is_name_byte(c),
            ByteKind::Word => is_word_byte(c),
        }
    }
}

// The first place from `start` on whose byte is not of a kind: where there is none the slice's end, or a start that lies behind it.
pub fn skip(kind: ByteKind, text: &[u8], start: usize) -> usize
    ensures { result ≡ start + run_of (of_kind kind) (drop start text.now) }
{
    for at in start..text.len() {
        if !kind.has(text[at]) {
            return at;
        }
    }
    start.max(text.len())
}
