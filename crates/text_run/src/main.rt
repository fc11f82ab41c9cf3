// Replays recorded answers for single values, statements and tokens, of the Rust, and with accents of a plain reading (host/vectors/src/scans.rs), and runs the
// traps of document 01.
#![tactic(auto)]

use std::io;
use std::rt::Files;
use text::{ByteClasses, Cursor, Refusal};

// Document 01's number of the keyword namespace. The recorded texts are made around it and prefix.
const NAMESPACE: u32 = 4;

// A record: text, answer and, where the answer's number is 0, the value; whether that is missing, and the place behind the record.
#[derive(Clone, Copy)]
struct Record<'a> {
    text: &'a [u8],
    answer: &'a [u8],
    kept: &'a [u8],
    missing: bool,
    next: usize,
}

fn record_at(data: &[u8], at: usize) -> Record<'_> {
    let behind = replay::after(data, at);
    let answer = replay::field(data, behind);
    let last = replay::after(data, behind);
    Record {
        text: replay::field(data, at),
        answer,
        kept: replay::field(data, last),
        missing: replay::missing(data, last),
        next: if replay::word(answer, 0) == 0 {
            replay::after(data, last)
        } else {
            last
        },
    }
}

// Whether what was read is what was recorded: answer has number, keyword and position, kept the value's bytes.
fn agrees(read: Result<(Cursor, usize), Refusal>, store: &[u8], r: Record) -> bool {
    match read {
        Ok((_, used)) => {
            replay::word(r.answer, 0) == 0 && check::same(text_lent::first(store, used), r.kept)
        }
        Err(refusal) => replay::refusal_agrees(r.answer, 0, refusal),
    }
}

// A value and its semicolon, from a place on.
fn value_agrees(here: Cursor, keyword: u32, r: Record) -> bool {
    let mut store = [0u8; 4096];
    if store.len() < r.text.len() {
        return false;
    }
    let classes = text::classes();
    let read = text_value::read_argument(
        here,
        &classes,
        false,
        r.text,
        &mut store,
        0,
        keyword,
        text::SEMICOLON,
    );
    agrees(read, &store, r)
}

// The place behind the next keyword prefix. Tokens are skipped until it matches, and a token takes a byte at least.
fn find_prefix(from: Cursor, classes: &ByteClasses, s: &[u8]) -> Option<Cursor> {
    let mut at = from;
    for _ in 0..s.len() {
        let here = at.skip_whitespace_and_comments(classes, s);
        if s.len() <= here.at {
            return None;
        }
        if let Some(c) = here.match_keyword(classes, s, b"prefix") {
            return Some(c);
        }
        let (next, _) = text_skip::skip_one_token(here, classes, s).ok()?;
        at = next;
    }
    None
}

// Behind the 9 bytes of `module m{`; and where `belongs-to x` follows, behind the statement of which these 12 bytes are the start.
fn tokens_from(classes: &ByteClasses, s: &[u8]) -> Cursor {
    let opened = Cursor { at: 9 };
    if opened.match_keyword(classes, s, b"belongs-to").is_none() {
        return opened;
    }
    text_statement::past_statement(Cursor { at: 21 }, classes, false, s).unwrap_or(opened)
}

// The first prefix statement that is met as one tells where the skipped statement ended and the tokens began.
fn skip_agrees(r: Record) -> bool {
    let classes = text::classes();
    match find_prefix(tokens_from(&classes, r.text), &classes, r.text) {
        Some(c) => value_agrees(c, text::PREFIX, r),
        None => r.missing,
    }
}

// Whether a record agrees, and the place behind it: of a value, and of what is skipped before one.
fn look_at_value(data: &[u8], at: usize) -> (bool, usize) {
    let r = record_at(data, at);
    (value_agrees(Cursor { at: 18 }, NAMESPACE, r), r.next)
}

fn look_at_skip(data: &[u8], at: usize) -> (bool, usize) {
    let r = record_at(data, at);
    (skip_agrees(r), r.next)
}

fn replay_file<R: Print + Files, F: Fn(&[u8], usize) -> (bool, usize)>(
    rt: &R,
    name: &[u8],
    look: F,
) -> io::Result<()>
    requires { F.IsAlwaysCallable look }
{
    let run = replay::replay_file(rt, name, look)?;
    replay::say_file(rt, name, run)
}

// Whether the statement at the text's start ends at a place.
fn statement_ends(s: &[u8], at: usize) -> bool {
    let classes = text::classes();
    text_statement::past_statement(Cursor { at: 0 }, &classes, false, s).is_ok_and(|next| next.at
        == at)
}

// Whether the value at the text's start is these bytes and ends at a place, read or skipped.
fn value_is(s: &[u8], kept: &[u8], at: usize) -> bool {
    let mut store = [0u8; 4096];
    if store.len() < s.len() {
        return false;
    }
    let classes = text::classes();
    let start = Cursor { at: 0 };
    let read = text_value::read_string_or_identifier(start, &classes, s, &mut store, 0);
    let Some(used) = read.used else {
        return false;
    };
    let Ok((passed, _)) = text_skip::skip_value(start, &classes, s) else {
        return false;
    };
    read.end.at == at && passed.at == at && check::same(text_lent::first(&store, used), kept)
}

// What document 01 calls easy to get wrong, as far as this layer goes.
fn traps<R: Print>(rt: &R) -> io::Result<()> {
    replay::trap(
        rt,
        b"a skipped string closed by the value rules",
        statement_ends(b"x \"\\\\\";y", 8),
    )?;
    replay::trap(
        rt,
        b"a skipped string in single quotes",
        statement_ends(b"'a\\';';z", 7),
    )?;
    replay::trap(
        rt,
        b"the first part of an unclosed added string",
        value_is(b"\"m\"+\"x", b"m", 6),
    )
}

fn main(rt: HostRuntime) -> io::Result<()> {
    replay_file(&rt, b"values.vec", look_at_value)?;
    replay_file(&rt, b"skips.vec", look_at_skip)?;
    replay_file(&rt, b"values-accents.vec", look_at_value)?;
    replay_file(&rt, b"skips-accents.vec", look_at_skip)?;
    traps(&rt)
}
