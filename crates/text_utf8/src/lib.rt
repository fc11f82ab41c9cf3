// A text in UTF-8 (RFC 3629): where its first wrong sequence starts. Bytes below 128 are passed by blocks, any other sequence by itself.
#![tactic(auto)]

ghost use Rattle.std.specs.Prelude.{◌≡◌, ◌<◌, ◌≤◌, length};
ghost use Rattle.text_utf8.specs.Largest.{largest};
ghost use Rattle.text_utf8.specs.Utf8.{tail, two, second3, three, second4, four, seq_len, some_len, wrong_from};

use text::peek_char;

// How many bytes are looked at together where no byte from 128 on was met yet.
const BLOCK: usize = 256;

// The largest byte, found with no early exit, many bytes at a time.
fn largest(s: &[u8]) -> u8
    ensures { result ≡ largest 0 s.now }
{
    s.iter().fold(0, |most, b| most.max(*b))
}

// Passes blocks of so many bytes as long as all of a block are below 128. The place is the answer, so a loop over `chunks_exact` would count it too.
fn low_blocks(s: &[u8], at: usize, size: usize) -> usize
    requires { 0 < size }
    ensures { (at ≤ result) × (wrong_from s.now result ≡ wrong_from s.now at) }
{
    let Some(last) = s.len().checked_sub(size) else {
        return at;
    };
    let mut i = at;
    while i <= last {
        if 128 <= largest(&s[i..i + size]) {
            return i;
        }
        i += size;
    }
    i
}

// Passes bytes below 128: large blocks first, for long runs, then small ones, then single bytes.
fn low_end(s: &[u8], at: usize) -> usize
    ensures { (at ≤ result) × (wrong_from s.now result ≡ wrong_from s.now at) }
{
    let near = low_blocks(s, at, BLOCK);
    let nearer = low_blocks(s, near, 16);
    for i in nearer..s.len() {
        if 128 <= s[i] {
            return i;
        }
    }
    nearer.max(s.len())
}

// A byte that goes on with a character: 80 to BF.
#[tactic(auto, unfolding(crate::specs::Utf8::tail))]
fn tail(b: u16) -> bool
    ensures { result ≡ tail b }
{
    matches!(b, 128..=191)
}

// A character of two bytes, of three and of four, by RFC 3629's grammar. The first byte tells which, C0 and C1 begin none.
#[tactic(auto, unfolding(crate::specs::Utf8::two))]
fn two(a: u16, b: u16) -> bool
    ensures { result ≡ two a b }
{
    matches!(a, 194..=223) && tail(b)
}

// The second byte of three: E0, ED and the others each have their own.
#[tactic(auto, unfolding(crate::specs::Utf8::second3))]
fn second3(a: u16, b: u16) -> bool
    ensures { result ≡ second3 a b }
{
    match a {
        224 => matches!(b, 160..=191),
        237 => matches!(b, 128..=159),
        225..=239 => tail(b),
        _ => false,
    }
}

#[tactic(auto, unfolding(crate::specs::Utf8::three))]
fn three(a: u16, b: u16, c: u16) -> bool
    ensures { result ≡ three a b c }
{
    second3(a, b) && tail(c)
}

// The second byte of four: F0, F4 and the others each have their own.
#[tactic(auto, unfolding(crate::specs::Utf8::second4))]
fn second4(a: u16, b: u16) -> bool
    ensures { result ≡ second4 a b }
{
    match a {
        240 => matches!(b, 144..=191),
        244 => matches!(b, 128..=143),
        241..=243 => tail(b),
        _ => false,
    }
}

#[tactic(auto, unfolding(crate::specs::Utf8::four))]
fn four(a: u16, b: u16, c: u16, d: u16) -> bool
    ensures { result ≡ four a b c d }
{
    second4(a, b) && tail(c) && tail(d)
}

// How many bytes the character has that stands at a place, if one does.
fn seq_len(s: &[u8], at: usize) -> Option<usize>
    requires { at < length s.now }
    ensures { result ≡ some_len (seq_len s.now at) }
{
    let a = peek_char(s, at);
    if a < 128 {
        return Some(1);
    }
    let b = peek_char(s, at + 1);
    if two(a, b) {
        return Some(2);
    }
    let c = peek_char(s, at + 2);
    if three(a, b, c) {
        return Some(3);
    }
    let d = peek_char(s, at + 3);
    if four(a, b, c, d) {
        return Some(4);
    }
    None
}

// The place where the first wrong sequence of a text starts, or its end. Most texts are all below 128: these take blocks alone. The last block ends where the
// text does, and overlaps the one before it, so that no single bytes are left over.
pub fn utf8_end(s: &[u8]) -> usize
    ensures { result ≡ wrong_from s.now 0 }
{
    let Some(last) = s.len().checked_sub(BLOCK) else {
        return short_end(s);
    };
    let near = low_blocks(s, 0, BLOCK);
    if last <= near && largest(&s[last..]) < 128 {
        return s.len();
    }
    characters_from(s, near)
}

// The same of a text that is shorter than a block.
fn short_end(s: &[u8]) -> usize
    ensures { result ≡ wrong_from s.now 0 }
{
    if largest(s) < 128 {
        return s.len();
    }
    characters_from(s, 0)
}

// The same from a place on, character by character.
fn characters_from(s: &[u8], from: usize) -> usize
    ensures { result ≡ wrong_from s.now from }
{
    let mut i = from;
    while i < s.len() {
        if s[i] < 128 {
            i = low_end(s, i + 1);
        } else {
            let Some(n) = seq_len(s, i) else {
                return i;
            };
            i += n;
        }
    }
    i
}
