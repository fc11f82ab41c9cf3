// Skipping a statement. A string in it has a rule of its own: it ends at its quote unless the byte before is a backslash.
#![tactic(auto)]

ghost use Rattle.std.specs.Prelude.{◌≡◌, ◌≤◌};
ghost use Rattle.text.specs.Scan.{gap_end};
ghost use Rattle.text_statement.specs.Statement.{closes, quoted_end, at_semicolon, at_close, at_other, part_at, statement_at, past_statement};

use std::ops::ControlFlow;
use text::{ByteClasses, Cursor, Refusal};
use text_past::How;

// Past the statement that stands after a gap. `whole`: one that the text's end ends is refused (11).
pub fn past_statement(
    from: Cursor,
    classes: &ByteClasses,
    whole: bool,
    s: &[u8],
) -> Result<Cursor, Refusal>
    ensures { result ≡ past_statement whole s.now from.at }
{
    let here = from.skip_whitespace_and_comments(classes, s);
    past_statement_here(here, classes, whole, s)
}

// The same where the gap was passed already.
#[tactic(auto, unfolding(crate::specs::Statement::past_statement))]
pub fn past_statement_here(
    here: Cursor,
    classes: &ByteClasses,
    whole: bool,
    s: &[u8],
) -> Result<Cursor, Refusal>
    requires { gap_end s.now here.at ≡ here.at }
    ensures { result ≡ past_statement whole s.now here.at }
{
    text_past::past(skip_statement(here, classes, s), whole, s.len())
}

// Skips a statement. The gap before it was passed: so each turn is a part and the gap after it, which is faster than the gap first.
fn skip_statement(here: Cursor, classes: &ByteClasses, s: &[u8]) -> Result<(Cursor, How), Refusal>
    requires { gap_end s.now here.at ≡ here.at }
    ensures { result ≡ statement_at s.now here.at }
{
    let mut at = here;
    let mut depth: usize = 0;
    loop {
        match skip_part(at, s, depth)? {
            ControlFlow::Continue((next, d)) => {
                at = next.skip_whitespace_and_comments(classes, s);
                depth = d;
            }
            ControlFlow::Break(end) => return Ok(end),
        }
    }
}

// A part of a statement was passed, and the depth after it; or the statement ended, and how; or a byte of 128 or more stands here.
type Part = Result<ControlFlow<(Cursor, How), (Cursor, usize)>, Refusal>;

// The part of a statement that stands here, at a depth: each brace that opened took a byte.
fn skip_part(here: Cursor, s: &[u8], depth: usize) -> Part
    requires { depth ≤ here.at }
    ensures { result ≡ part_at s.now here.at depth }
{
    let at = here.at;
    if s.len() <= at {
        return Ok(ControlFlow::Break((here, How::Text)));
    }
    let next = Cursor { at: at + 1 };
    let b = s[at];
    match b {
        b'"' | b'\'' => {
            let end = quoted_end(s, at + 1, b);
            Ok(ControlFlow::Continue((Cursor { at: end }, depth)))
        }
        b';' => at_semicolon(next, depth),
        b'{' => Ok(ControlFlow::Continue((next, depth + 1))),
        b'}' => at_close(here, next, depth),
        _ => at_other(here, next, text::peek_char(s, at), depth),
    }
}

// After a semicolon: at depth 0 it ends the statement.
#[tactic(auto, unfolding(crate::specs::Statement::at_semicolon))]
fn at_semicolon(next: Cursor, depth: usize) -> Part
    ensures { result ≡ at_semicolon next.at depth }
{
    Ok(match depth {
        0 => ControlFlow::Break((next, How::Semicolon)),
        _ => ControlFlow::Continue((next, depth)),
    })
}

// At a closing brace, and after it: at depth 0 it is another's, at depth 1 it ends the statement.
#[tactic(auto, unfolding(crate::specs::Statement::at_close))]
fn at_close(here: Cursor, next: Cursor, depth: usize) -> Part
    ensures { result ≡ at_close here.at next.at depth }
{
    Ok(match depth {
        0 => ControlFlow::Break((here, How::Before)),
        1 => ControlFlow::Break((next, How::Block)),
        _ => ControlFlow::Continue((next, depth - 1)),
    })
}

// At any other byte b, and after it: from 128 on it is refused (3).
#[tactic(auto, unfolding(crate::specs::Statement::at_other))]
fn at_other(here: Cursor, next: Cursor, b: u16, depth: usize) -> Part
    ensures { result ≡ at_other here.at next.at depth b }
{
    if text::is_high(b) {
        return Err(text::high_byte(here.at));
    }
    Ok(ControlFlow::Continue((next, depth)))
}

// The place after the string whose bytes start at a place, in quotes q.
fn quoted_end(s: &[u8], at: usize, q: u8) -> usize
    ensures { result ≡ quoted_end s.now at q }
{
    let mut before = q;
    for i in at..s.len() {
        let b = s[i];
        if closes(q, before, b) {
            return i + 1;
        }
        before = b;
    }
    at.max(s.len())
}

// Whether the byte b closes a string in quotes q, where the byte before it is p.
#[tactic(auto, unfolding(crate::specs::Statement::closes))]
fn closes(q: u8, p: u8, b: u8) -> bool
    ensures { result ≡ closes q p b }
{
    b == q && p != b'\\'
}
