// The metadata scan: name, namespace, prefix, revisions and parent of a module, their values in the store that the caller lends.
#![tactic(auto)]

ghost use Rattle.std.specs.Prelude.{◌≡◌, ◌-◌, ◌≤◌, ◌<◌, length};
ghost use Rattle.scan_metadata.specs.Metadata.{no_values, refused_with, scanned};
ghost use Rattle.scan_metadata.specs.Values.{value_of, first_kept, newest_kept, kept_in, ended_with};
ghost use Rattle.scan_metadata.specs.Promises.{Parses, Cleared, Leaves, Extracts};

use scan_header::Heard;
use scan_rows::Span;
use text::{ByteClasses, Cursor, Reason, Refusal};

// The six values: where each stands. An array: the C record has them in this order, and `values_of` (specs/Metadata.antt) lists them.
pub const NAME_VALUE: usize = 0;

pub const NAMESPACE_VALUE: usize = 1;

pub const PREFIX_VALUE: usize = 2;

pub const FIRST_VALUE: usize = 3;

pub const PARENT_VALUE: usize = 4;

pub const NEWEST_VALUE: usize = 5;

// Name, namespace, prefix, first revision, parent and newest revision; the scan's answer, 0, 0, 0 for a good one; how many bytes are stored.
// No Result: `Described` (nuvaleta/specs/Record.antt) says of a refusal too what the values, the answer and the count are.
#[derive(Clone, Copy)]
pub struct YangModuleMetadata {
    pub values: [Span; 6],
    pub answer: Refusal,
    pub used: usize,
}

// Extract module metadata from a text. The store is zero but for what is used, and all of it on a refusal. `whole`: the text must be whole, and what is read
// of it and breaks off is refused (11).
pub fn extract_yang_metadata(whole: bool, s: &[u8], store: &mut [u8]) -> YangModuleMetadata
    ensures { Extracts whole s.now store.old result store.new }
{
    store.fill(0);
    let short = store.len() < s.len();
    match text_lent::check_lent(s, short) {
        Ok(()) => parse_cleared(&text::classes(), whole, s, store),
        Err(r) => refused(r),
    }
}

// The scan over zeros. A refusal clears what it wrote.
fn parse_cleared(
    classes: &ByteClasses,
    whole: bool,
    s: &[u8],
    store: &mut [u8],
) -> YangModuleMetadata
    requires { Cleared s.now store.old }
    ensures { Leaves (scanned whole s.now) store.old result store.new }
{
    let parsed = parse_metadata(classes, whole, s, store);
    if parsed.answer.reason != Reason::NOTHING {
        store.fill(0);
    }
    parsed
}

// Parse module metadata. It writes only what it uses: the store from its start on.
fn parse_metadata(
    classes: &ByteClasses,
    whole: bool,
    s: &[u8],
    store: &mut [u8],
) -> YangModuleMetadata
    requires { length s.now ≤ length store.old }
    ensures { Parses whole s.now store.old result store.new }
{
    let mut values = no_values();
    let mut used: usize = 0;
    let mut here = Cursor { at: 0 };
    loop {
        let prefixed = values[PREFIX_VALUE].present;
        match scan_header::hear(here, classes, whole, s, store, used, prefixed) {
            Ok(
                Heard::Value {
                    keyword,
                    value,
                    next,
                    used: n,
                },
            ) => {
                values = kept(values, keyword, value, store);
                here = next;
                used = n;
            }
            Ok(Heard::Passed(next)) => here = next,
            Ok(Heard::Done(end)) => return ended(values, used, end),
            Err(r) => return refused(r),
        }
    }
}

// A name is required.
#[tactic(auto, unfolding(crate::specs::Values::ended_with))]
fn ended(values: [Span; 6], used: usize, end: Cursor) -> YangModuleMetadata
    ensures { result ≡ ended_with values used end.at }
{
    if values[NAME_VALUE].present {
        YangModuleMetadata {
            values,
            answer: text::no_refusal(),
            used,
        }
    } else {
        refused(Refusal {
            reason: Reason::NO_NAME,
            keyword: 0,
            at: end.at,
        })
    }
}

// A refusal leaves no value.
#[tactic(auto, unfolding(crate::specs::Metadata::refused_with))]
fn refused(r: Refusal) -> YangModuleMetadata
    ensures { result ≡ refused_with r }
{
    YangModuleMetadata {
        values: no_values(),
        answer: r,
        used: 0,
    }
}

fn no_values() -> [Span; 6]
    ensures { result ≡ no_values }
{
    [scan_rows::missing(); 6]
}

// The values with one more: a module's name, its parent and its namespace are the last ones read, its prefix is the only one read.
fn kept(mut values: [Span; 6], keyword: u32, x: Span, store: &[u8]) -> [Span; 6]
    ensures { result ≡ kept_in store.now values keyword x }
{
    if keyword == text::REVISION {
        return newest_kept(first_kept(values, x), x, store);
    }
    values[value_of(keyword)] = x;
    values
}

// Where the value of a keyword stands.
#[tactic(auto, unfolding(crate::specs::Values::value_of))]
fn value_of(keyword: u32) -> usize
    ensures { result ≡ value_of keyword }
{
    match keyword {
        text::BELONGS_TO => PARENT_VALUE,
        text::NAMESPACE => NAMESPACE_VALUE,
        text::PREFIX => PREFIX_VALUE,
        _ => NAME_VALUE,
    }
}

// The first revision stays.
#[tactic(auto, unfolding(crate::specs::Values::first_kept))]
fn first_kept(mut values: [Span; 6], x: Span) -> [Span; 6]
    ensures { result ≡ first_kept values x }
{
    if values[FIRST_VALUE].present {
        return values;
    }
    values[FIRST_VALUE] = x;
    values
}

// A newer revision takes the newest's place. The store has the bytes of both.
#[tactic(auto, unfolding(crate::specs::Values::newest_kept))]
fn newest_kept(mut values: [Span; 6], x: Span, store: &[u8]) -> [Span; 6]
    ensures { result ≡ newest_kept store.now values x }
{
    if scan_newest::comes_newer(store, values[NEWEST_VALUE], x) {
        values[NEWEST_VALUE] = x;
    }
    values
}
