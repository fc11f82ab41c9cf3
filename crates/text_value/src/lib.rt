// Values: names and joined strings, copied into a store that the caller lends, and a keyword's value with the byte that is due after it.
#![tactic(auto)]

ghost use Rattle.std.specs.Prelude.{◌≡◌, true, false, ◌+◌, ◌-◌, ◌≤◌, ◌<◌, length};
ghost use Rattle.std.proofs.lemmas.List.Edits.{sets};
ghost use Rattle.text.specs.Bytes.{the_end};
ghost use Rattle.text.specs.Keyword.{part};
ghost use Rattle.text_value.specs.Value.{starts_name, name_at, more_at, more_answer, more_bytes, joined, join_answer, value_at, value_answer};
ghost use Rattle.text_value.specs.Value.{value_bytes, closed_from, closed_at};
ghost use Rattle.text_value.specs.Argument.{argument_at, line_at};

use text::{ByteClasses, Cursor, Reason, Refusal, Run};

// What was read: where the scan stands then, and the store's next place, if something was read. `closed`: each string of it closes.
#[derive(Clone, Copy)]
pub struct Value {
    pub end: Cursor,
    pub used: Option<usize>,
    pub closed: bool,
}

// Reads the value that is due after a keyword. Where there is none, nothing is stored and the refusal is 4, or 3 where a byte of 128 or more stands.
// `whole`: a string of it that never closes is refused (11).
pub fn read_value(
    here: Cursor,
    classes: &ByteClasses,
    whole: bool,
    s: &[u8],
    store: &mut [u8],
    used: usize,
    keyword: u32,
) -> Result<(Cursor, usize), Refusal>
    requires { used + (length s.now - here.at) ≤ length store.old }
    ensures { (result ≡ argument_at whole s.now here.at used keyword)
        × (store.new ≡ sets store.old used (value_bytes (value_at s.now here.at))) }
{
    let got = read_string_or_identifier(here, classes, s, store, used);
    if whole && !got.closed {
        return Err(text::cut_short(s.len()));
    }
    let at = got.end.at;
    let Some(n) = got.used else {
        return Err(text::refused_at(text::peek_char(s, at), Reason::NO_VALUE, keyword, at));
    };
    Ok((got.end, n))
}

// Reads the value that is due after a keyword and the byte b that is due after it. The value's bytes stay in the store where b is
// refused.
pub fn read_argument(
    here: Cursor,
    classes: &ByteClasses,
    whole: bool,
    s: &[u8],
    store: &mut [u8],
    used: usize,
    keyword: u32,
    b: u16,
) -> Result<(Cursor, usize), Refusal>
    requires { (used + (length s.now - here.at) ≤ length store.old) × (b < the_end) }
    ensures { (result ≡ line_at whole s.now here.at used keyword b)
        × (store.new ≡ sets store.old used (value_bytes (value_at s.now here.at))) }
{
    let (next, n) = read_value(here, classes, whole, s, store, used, keyword)?;
    let end = next.expect_char(classes, s, b, keyword)?;
    Ok((end, n))
}

// Reads the name that stands here. Where there is none, nothing is stored.
fn read_identifier(
    here: Cursor,
    classes: &ByteClasses,
    s: &[u8],
    store: &mut [u8],
    used: usize,
) -> Value
    requires { used + (length s.now - here.at) ≤ length store.old }
    ensures { (result ≡ value_answer used true (name_at s.now here.at))
        × (store.new ≡ sets store.old used (value_bytes (name_at s.now here.at))) }
{
    if !starts_name(classes, text::peek_char(s, here.at)) {
        return Value {
            end: here,
            used: None,
            closed: true,
        };
    }
    let end = text::run_end(classes, Run::Name, s, here.at);
    let n = copy_part(s, here.at, end, store, used);
    Value {
        end: Cursor { at: end },
        used: Some(n),
        closed: true,
    }
}

// Whether a name begins so: a letter, a digit or _.
#[tactic(auto, unfolding(crate::specs::Value::starts_name))]
pub fn starts_name(classes: &ByteClasses, b: u16) -> bool
    ensures { result ≡ starts_name b }
{
    matches!(text::class(classes, b), text::LETTER | text::DIGIT) || b == text::UNDERSCORE
}

// Stores the bytes from a place up to another, from the store's place `used` on, and answers the place after them.
// By a loop: `copy_from_slice` calls memmove, and include/nuvaleta.h promises that of the C library only memcpy and memset are needed.
fn copy_part(s: &[u8], at: usize, end: usize, store: &mut [u8], used: usize) -> usize
    requires { (at ≤ end) × (end ≤ length s.now) × (used + (end - at) ≤ length store.old) }
    ensures { (result ≡ used + length (part s.now at end))
        × (store.new ≡ sets store.old used (part s.now at end)) }
{
    let mut i = at;
    let mut n = used;
    while i < end {
        store[n] = s[i];
        n += 1;
        i += 1;
    }
    n
}

// Reads the value that stands after a gap. Where there is none, nothing is stored.
pub fn read_string_or_identifier(
    here: Cursor,
    classes: &ByteClasses,
    s: &[u8],
    store: &mut [u8],
    used: usize,
) -> Value
    requires { used + (length s.now - here.at) ≤ length store.old }
    ensures { (result ≡ value_answer used (closed_at s.now here.at) (value_at s.now here.at))
        × (store.new ≡ sets store.old used (value_bytes (value_at s.now here.at))) }
{
    let first = here.skip_whitespace_and_comments(classes, s);
    if !text_string::is_quote(text::peek_char(s, first.at)) {
        return read_identifier(first, classes, s, store, used);
    }
    let Some((next, n)) = text_string::read_quoted_string(first, s, store, used) else {
        return Value {
            end: Cursor { at: s.len() },
            used: None,
            closed: false,
        };
    };
    read_parts(next, classes, s, store, n)
}

// Reads all that follows a string. A part that never closes adds nothing and is the last.
pub fn read_parts(
    here: Cursor,
    classes: &ByteClasses,
    s: &[u8],
    store: &mut [u8],
    used: usize,
) -> Value
    requires { used + (length s.now - here.at) ≤ length store.old }
    ensures { (result ≡ join_answer used (closed_from s.now here.at) (joined s.now here.at))
        × (store.new ≡ sets store.old used (joined s.now here.at).bytes) }
{
    let mut at = here;
    let mut n = used;
    loop {
        let part = read_part(at, classes, s, store, n);
        let Some(m) = part.used else {
            return Value {
                used: Some(n),
                ..part
            };
        };
        at = part.end;
        n = m;
    }
}

// Reads what follows a string: a gap, and if `+` follows, a gap and a string that is added.
pub fn read_part(
    here: Cursor,
    classes: &ByteClasses,
    s: &[u8],
    store: &mut [u8],
    used: usize,
) -> Value
    requires { used + (length s.now - here.at) ≤ length store.old }
    ensures { (result ≡ more_answer used (more_at s.now here.at))
        × (store.new ≡ sets store.old used (more_bytes (more_at s.now here.at))) }
{
    let plus = here.skip_whitespace_and_comments(classes, s);
    if text::peek_char(s, plus.at) != text::PLUS {
        return Value {
            end: plus,
            used: None,
            closed: true,
        };
    }
    let after = Cursor { at: plus.at + 1 };
    let quote = after.skip_whitespace_and_comments(classes, s);
    if !text_string::is_quote(text::peek_char(s, quote.at)) {
        return Value {
            end: quote,
            used: None,
            closed: true,
        };
    }
    match text_string::read_quoted_string(quote, s, store, used) {
        Some((next, n)) => Value {
            end: next,
            used: Some(n),
            closed: true,
        },
        None => Value {
            end: Cursor { at: s.len() },
            used: None,
            closed: false,
        },
    }
}
