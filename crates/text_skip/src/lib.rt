// Skipping a token and a value. A token's string closes by the rules of a value.
#![tactic(auto)]

ghost use Rattle.std.specs.Prelude.{◌≡◌};
ghost use Rattle.text_value.specs.Value.{more_at};
ghost use Rattle.text_skip.specs.Skip.{token_at, past_token, tail_of, added_at, skipped_at, past_value};

use std::ops::ControlFlow;
use text::{ByteClasses, Cursor, Refusal, Run};
use text_past::How;

// Past the token that stands here.
#[tactic(auto, unfolding(crate::specs::Skip::past_token))]
pub fn past_token(
    here: Cursor,
    classes: &ByteClasses,
    whole: bool,
    s: &[u8],
) -> Result<Cursor, Refusal>
    ensures { result ≡ past_token whole s.now here.at }
{
    text_past::past(skip_one_token(here, classes, s), whole, s.len())
}

// Skips a token: a whole string, a whole name that begins with a letter or _, or one byte, which is refused from 128 on (3). At the end nothing is skipped.
// The name is tried first, then whether the byte is 128 or more: a scan has just looked for an identifier here, and so these tests are made once.
pub fn skip_one_token(
    here: Cursor,
    classes: &ByteClasses,
    s: &[u8],
) -> Result<(Cursor, How), Refusal>
    ensures { result ≡ token_at s.now here.at }
{
    let at = here.at;
    if s.len() <= at {
        return Ok((here, How::Whole));
    }
    let b = text::peek_char(s, at);
    if text::starts_ident(classes, b) {
        let end = text::run_end(classes, Run::Name, s, at);
        return Ok((Cursor { at: end }, How::Whole));
    }
    if text::is_high(b) {
        return Err(text::high_byte(at));
    }
    if !text_string::is_quote(b) {
        return Ok((Cursor { at: at + 1 }, How::Whole));
    }
    match text_string::close_of(s, at + 1, s[at]) {
        Some(end) => Ok((Cursor { at: end }, How::Whole)),
        None => Ok((Cursor { at: s.len() }, How::Text)),
    }
}

// Skips the value that stands after a gap, and stores nothing: the place after it, or where there is none. A string that never closes ends
// it at the text's end.
pub fn skip_value(here: Cursor, classes: &ByteClasses, s: &[u8]) -> Result<(Cursor, How), Refusal>
    ensures { result ≡ skipped_at s.now here.at }
{
    let first = here.skip_whitespace_and_comments(classes, s);
    let b = text::peek_char(s, first.at);
    if text_string::is_quote(b) {
        let (next, how) = skip_one_token(first, classes, s)?;
        if text_past::broke_off(how) {
            return Ok((next, how));
        }
        return skip_added(next, classes, s);
    }
    if text_value::starts_name(classes, b) {
        let end = text::run_end(classes, Run::Name, s, first.at);
        return Ok((Cursor { at: end }, How::Whole));
    }
    Ok((first, How::Whole))
}

// Past the value that stands after a gap, if there is one.
#[tactic(auto, unfolding(crate::specs::Skip::past_value))]
pub fn past_value(
    here: Cursor,
    classes: &ByteClasses,
    whole: bool,
    s: &[u8],
) -> Result<Cursor, Refusal>
    ensures { result ≡ past_value whole s.now here.at }
{
    text_past::past(skip_value(here, classes, s), whole, s.len())
}

// Skips all that is added to a string.
fn skip_added(here: Cursor, classes: &ByteClasses, s: &[u8]) -> Result<(Cursor, How), Refusal>
    ensures { result ≡ added_at s.now here.at }
{
    let mut at = here;
    loop {
        match skip_string(at, classes, s)? {
            ControlFlow::Continue(next) => at = next,
            ControlFlow::Break(end) => return Ok(end),
        }
    }
}

// What follows a string: a gap, and if `+` follows, a gap and a string, which is passed; or the value has ended.
fn skip_string(
    here: Cursor,
    classes: &ByteClasses,
    s: &[u8],
) -> Result<ControlFlow<(Cursor, How), Cursor>, Refusal>
    ensures { result ≡ tail_of (more_at s.now here.at) }
{
    let plus = here.skip_whitespace_and_comments(classes, s);
    if text::peek_char(s, plus.at) != text::PLUS {
        return Ok(ControlFlow::Break((plus, How::Whole)));
    }
    let after = Cursor { at: plus.at + 1 };
    let quote = after.skip_whitespace_and_comments(classes, s);
    if !text_string::is_quote(text::peek_char(s, quote.at)) {
        return Ok(ControlFlow::Break((quote, How::Whole)));
    }
    let (next, how) = skip_one_token(quote, classes, s)?;
    if text_past::broke_off(how) {
        return Ok(ControlFlow::Break((next, how)));
    }
    Ok(ControlFlow::Continue(next))
}
