// Quoted strings: where one closes, and its bytes copied into a store that the caller lends.
#![tactic(auto)]

ghost use Rattle.std.specs.Prelude.{◌≡◌, false, ◌+◌, ◌-◌, ◌≤◌, length, drop, take};
ghost use Rattle.std.proofs.lemmas.List.Edits.{sets};
ghost use Rattle.text_string.specs.Str.{is_quote, among, escaped, escapes, str_end, str_bytes, str_at, answer_of, bytes_of};

use text::Cursor;

// Whether a string opens so: a double or a single quote.
#[tactic(auto, unfolding(crate::specs::Str::is_quote))]
pub fn is_quote(b: u16) -> bool
    ensures { result ≡ is_quote b }
{
    matches!(b, text::QUOTE | text::APOSTROPHE)
}

// Reads the string whose opening quote stands here; one that never closes stores nothing. It is the Rust's read_double_quoted_string and
// its read_single_quoted_string: one loop over the kind of quote.
pub fn read_quoted_string(
    here: Cursor,
    s: &[u8],
    store: &mut [u8],
    used: usize,
) -> Option<(Cursor, usize)>
    requires { used + (length s.now - here.at) ≤ length store.old }
    ensures { (result ≡ answer_of used (str_at s.now here.at))
        × (store.new ≡ sets store.old used (bytes_of (str_at s.now here.at))) }
{
    if s.len() <= here.at {
        return None;
    }
    let q = s[here.at];
    let end = close_of(s, here.at + 1, q)?;
    let n = copy_string(s, here.at + 1, q, store, used);
    Some((Cursor { at: end }, n))
}

// Whether the byte b is among the eight at a place.
fn among(s: &[u8], at: usize, b: u8) -> bool
    requires { at + 8 ≤ length s.now }
    ensures { result ≡ among b (take 8 (drop at s.now)) }
{
    s[at..at + 8].contains(&b)
}

// Passes eight bytes at a time that neither close a string in quotes q nor escape. The place is the answer, so a loop over `chunks_exact` would count it too.
fn plain_end(s: &[u8], at: usize, q: u8) -> usize
    ensures { (at ≤ result) × (str_end q false (drop result s.now) result ≡ str_end q false (drop at s.now) at) }
{
    let Some(last) = s.len().checked_sub(8) else {
        return at;
    };
    let mut i = at;
    while i <= last {
        if among(s, i, q) || among(s, i, b'\\') {
            return i;
        }
        i += 8;
    }
    i
}

// Where the string closes whose bytes start at a place, in quotes q.
pub fn close_of(s: &[u8], at: usize, q: u8) -> Option<usize>
    ensures { result ≡ str_end q false (drop at s.now) at }
{
    let mut i = plain_end(s, at, q);
    while i < s.len() {
        let b = s[i];
        if b == q {
            return Some(i + 1);
        }
        i = if escapes(q, b) {
            plain_end(s, i + 2, q)
        } else {
            i + 1
        };
    }
    None
}

// Stores the bytes of the string whose bytes start at a place, in quotes q, from the store's place `used` on, and answers the place after
// them.
fn copy_string(s: &[u8], at: usize, q: u8, store: &mut [u8], used: usize) -> usize
    requires { used + (length s.now - at) ≤ length store.old }
    ensures { (result ≡ used + length (str_bytes q false (drop at s.now)))
        × (store.new ≡ sets store.old used (str_bytes q false (drop at s.now))) }
{
    let mut esc = false;
    let mut n = used;
    for i in at..s.len() {
        let b = s[i];
        if esc {
            store[n] = escaped(b);
            n += 1;
            esc = false;
        } else if b == q {
            return n;
        } else if escapes(q, b) {
            esc = true;
        } else {
            store[n] = b;
            n += 1;
        }
    }
    n
}

// What a backslash and this byte give.
#[tactic(auto, unfolding(crate::specs::Str::escaped))]
fn escaped(b: u8) -> u8
    ensures { result ≡ escaped b }
{
    match b {
        b'n' => b'\n',
        b't' => b'\t',
        _ => b,
    }
}

// Whether this byte in quotes q escapes the next: a backslash in double quotes.
#[tactic(auto, unfolding(crate::specs::Str::escapes))]
fn escapes(q: u8, b: u8) -> bool
    ensures { result ≡ escapes q b }
{
    q == b'"' && b == b'\\'
}
