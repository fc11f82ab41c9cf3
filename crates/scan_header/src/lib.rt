// The statements of a module's header that the metadata scan reads, one at a time.
#![tactic(auto)]

ghost use Rattle.std.specs.Prelude.{◌≡◌};
ghost use Rattle.std.proofs.lemmas.List.Edits.{sets};
ghost use Rattle.text.specs.Scan.{gap_end};
ghost use Rattle.text_skip.specs.Skip.{past_value};
ghost use Rattle.scan_rows.specs.Room.{Room};
ghost use Rattle.scan_header.specs.Header.{due_for, after_revision, after_value, passed, after_skipped, field_at, later_prefix};
ghost use Rattle.scan_header.specs.Header.{statement_said, said_at};

use scan_rows::Span;
use scan_tag::Tag;
use text::{ByteClasses, Cursor, Refusal};

// A value was read for a keyword; or something was passed that is not kept; or the scan is over.
#[derive(Clone, Copy)]
pub enum Heard {
    Value {
        keyword: u32,
        value: Span,
        next: Cursor,
        used: usize,
    },
    Passed(Cursor),
    Done(Cursor),
}

// Reads the statement, or skips the token, that stands after a gap. `whole`: the text must be whole; `prefixed`: a prefix was read before.
#[tactic(auto, unfolding(crate::specs::Header::said_at, crate::specs::Header::said_here, crate::specs::Header::tag_said))]
pub fn hear(
    from: Cursor,
    classes: &ByteClasses,
    whole: bool,
    s: &[u8],
    store: &mut [u8],
    used: usize,
    prefixed: bool,
) -> Result<Heard, Refusal>
    requires { Room s.now from.at store.old used }
    ensures { (result ≡ (said_at whole s.now from.at used prefixed).answer)
        × (store.new ≡ sets store.old used (said_at whole s.now from.at used prefixed).bytes) }
{
    let here = from.skip_whitespace_and_comments(classes, s);
    if s.len() <= here.at {
        return Ok(Heard::Done(here));
    }
    match scan_tag::read_tag(here, classes, s) {
        Tag::Statement { keyword, after } => read_statement(
            after, classes, whole, s, store, used, keyword, prefixed,
        ),
        Tag::Last(c) => Ok(Heard::Done(c)),
        Tag::Other => passed(text_skip::past_token(here, classes, whole, s)),
    }
}

// Reads what follows a keyword. A later prefix and the value of yang-version are not kept.
#[tactic(auto, unfolding(crate::specs::Header::statement_said))]
fn read_statement(
    here: Cursor,
    classes: &ByteClasses,
    whole: bool,
    s: &[u8],
    store: &mut [u8],
    used: usize,
    keyword: u32,
    prefixed: bool,
) -> Result<Heard, Refusal>
    requires { Room s.now here.at store.old used }
    ensures { (result ≡ (statement_said whole s.now here.at keyword used prefixed).answer)
        × (store.new ≡ sets store.old used (statement_said whole s.now here.at keyword used prefixed).bytes) }
{
    if keyword == text::YANG_VERSION {
        skip_field(here, classes, whole, s, keyword)
    } else if later_prefix(keyword, prefixed) {
        passed(text_statement::past_statement(here, classes, whole, s))
    } else {
        read_field(here, classes, whole, s, store, used, keyword)
    }
}

// Skips a keyword's value, if there is one, and reads what is due after it.
#[tactic(auto, unfolding(crate::specs::Header::after_skipped))]
fn skip_field(
    here: Cursor,
    classes: &ByteClasses,
    whole: bool,
    s: &[u8],
    keyword: u32,
) -> Result<Heard, Refusal>
    ensures { result ≡ after_skipped whole s.now keyword (past_value whole s.now here.at) }
{
    let next = text_skip::past_value(here, classes, whole, s)?;
    passed(after_value(next, classes, whole, s, keyword))
}

// Whether a prefix was read before this one.
#[tactic(auto, unfolding(crate::specs::Header::later_prefix))]
fn later_prefix(keyword: u32, prefixed: bool) -> bool
    ensures { result ≡ later_prefix keyword prefixed }
{
    keyword == text::PREFIX && prefixed
}

// Reads a keyword's value, and what is due after it.
#[tactic(auto, unfolding(crate::specs::Header::field_at, crate::specs::Header::with_rest, crate::specs::Header::kept))]
fn read_field(
    here: Cursor,
    classes: &ByteClasses,
    whole: bool,
    s: &[u8],
    store: &mut [u8],
    used: usize,
    keyword: u32,
) -> Result<Heard, Refusal>
    requires { Room s.now here.at store.old used }
    ensures { (result ≡ (field_at whole s.now here.at keyword used).answer)
        × (store.new ≡ sets store.old used (field_at whole s.now here.at keyword used).bytes) }
{
    let (next, n) = text_value::read_value(here, classes, whole, s, store, used, keyword)?;
    let end = after_value(next, classes, whole, s, keyword)?;
    Ok(Heard::Value {
        keyword,
        value: scan_rows::held(used, n - used),
        next: end,
        used: n,
    })
}

// What was passed is not kept.
#[tactic(auto, unfolding(crate::specs::Header::passed))]
fn passed(d: Result<Cursor, Refusal>) -> Result<Heard, Refusal>
    ensures { result ≡ passed d }
{
    Ok(Heard::Passed(d?))
}

// What is due after a keyword's value.
#[tactic(auto, unfolding(crate::specs::Header::after_value))]
fn after_value(
    here: Cursor,
    classes: &ByteClasses,
    whole: bool,
    s: &[u8],
    keyword: u32,
) -> Result<Cursor, Refusal>
    ensures { result ≡ after_value whole s.now here.at keyword }
{
    match keyword {
        text::BELONGS_TO => text_statement::past_statement(here, classes, whole, s),
        text::REVISION => {
            let end = here.skip_whitespace_and_comments(classes, s);
            after_revision(end, classes, whole, s)
        }
        _ => here.expect_char(classes, s, due_for(keyword), keyword),
    }
}

// A revision's block, or a semicolon.
#[tactic(auto, unfolding(crate::specs::Header::after_revision))]
fn after_revision(
    here: Cursor,
    classes: &ByteClasses,
    whole: bool,
    s: &[u8],
) -> Result<Cursor, Refusal>
    requires { gap_end s.now here.at ≡ here.at }
    ensures { result ≡ after_revision whole s.now here.at }
{
    if text::peek_char(s, here.at) == text::OPEN_BRACE {
        text_statement::past_statement_here(here, classes, whole, s)
    } else {
        here.expect_char(classes, s, text::SEMICOLON, text::REVISION)
    }
}

// A brace after a module's name, else a semicolon.
#[tactic(auto, unfolding(crate::specs::Header::due_for))]
fn due_for(keyword: u32) -> u16
    ensures { result ≡ due_for keyword }
{
    if keyword == text::MODULE || keyword == text::SUBMODULE {
        text::OPEN_BRACE
    } else {
        text::SEMICOLON
    }
}
