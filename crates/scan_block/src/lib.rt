// The block of an import or include: the values that it keeps, in the store that the caller lends, and any other statement skipped.
#![tactic(auto)]

ghost use Rattle.std.specs.Prelude.{◌≡◌};
ghost use Rattle.std.proofs.lemmas.List.Edits.{sets};
ghost use Rattle.text.specs.Bytes.{semicolon};
ghost use Rattle.text.specs.Scan.{gap_end};
ghost use Rattle.text_statement.specs.Statement.{past_statement};
ghost use Rattle.text_value.specs.Argument.{line_at};
ghost use Rattle.text_value.specs.Value.{value_at, value_bytes};
ghost use Rattle.scan_rows.specs.Room.{Room};
ghost use Rattle.scan_block.specs.Block.{revision_line, line_kind, kept, with_value, with_skipped, begun, moved, inside_at, block_at};

use scan_rows::Span;
use text::{ByteClasses, Cursor, Reason, Refusal};

// What a block gave so far: where it stands, the store's next place, and the last values read.
#[derive(Clone, Copy)]
pub struct Body {
    pub at: usize,
    pub used: usize,
    pub prefix: Span,
    pub revision: Span,
}

// Nothing was read yet.
fn begun(here: Cursor, used: usize) -> Body
    ensures { result ≡ begun here.at used }
{
    Body {
        at: here.at,
        used,
        prefix: scan_rows::missing(),
        revision: scan_rows::missing(),
    }
}

// The same value, field by field. So it stays in registers; copied as a whole, with the unused bytes behind its mark, it went through memory at each statement.
fn same(x: Span) -> Span
    ensures { result ≡ x }
{
    Span {
        present: x.present,
        start: x.start,
        size: x.size,
    }
}

// The same from another place.
fn moved(body: Body, at: usize) -> Body
    ensures { result ≡ moved body at }
{
    Body {
        at,
        used: body.used,
        prefix: same(body.prefix),
        revision: same(body.revision),
    }
}

// Reads the block of an import or include, from behind its opening brace. The keyword tells which.
pub fn parse_block(
    here: Cursor,
    classes: &ByteClasses,
    whole: bool,
    s: &[u8],
    store: &mut [u8],
    used: usize,
    keyword: u32,
) -> Result<Body, Refusal>
    requires { Room s.now here.at store.old used }
    ensures { (result ≡ (block_at whole s.now here.at used keyword).answer)
        × (store.new ≡ sets store.old used (block_at whole s.now here.at used keyword).bytes) }
{
    let mut body = begun(here, used);
    loop {
        match parse_inside(body, classes, whole, s, store, keyword)? {
            Inside::On(next) => body = next,
            Inside::Closed(end) => return Ok(end),
        }
    }
}

// After a statement of a block; or the block is closed.
#[derive(Clone, Copy)]
pub enum Inside {
    On(Body),
    Closed(Body),
}

// Reads or skips the statement of a block that stands after a gap, or its closing brace.
fn parse_inside(
    body: Body,
    classes: &ByteClasses,
    whole: bool,
    s: &[u8],
    store: &mut [u8],
    keyword: u32,
) -> Result<Inside, Refusal>
    requires { Room s.now body.at store.old body.used }
    ensures { (result ≡ (inside_at whole s.now keyword body).answer)
        × (store.new ≡ sets store.old body.used (inside_at whole s.now keyword body).bytes) }
{
    let here = Cursor { at: body.at }.skip_whitespace_and_comments(classes, s);
    let b = text::peek_char(s, here.at);
    if b == text::END {
        return Err(Refusal {
            reason: Reason::OPEN_ENDED,
            keyword,
            at: here.at,
        });
    }
    if b == text::CLOSE_BRACE {
        return Ok(Inside::Closed(moved(body, here.at + 1)));
    }
    match line_kind(here, classes, s, keyword) {
        Some((own, after)) => read_inside(body, after, classes, whole, s, store, own),
        None => skip_other(body, here, classes, whole, s),
    }
}

// Skips a statement of which nothing is read.
#[tactic(auto, unfolding(crate::specs::Block::with_skipped))]
fn skip_other(
    body: Body,
    here: Cursor,
    classes: &ByteClasses,
    whole: bool,
    s: &[u8],
) -> Result<Inside, Refusal>
    requires { gap_end s.now here.at ≡ here.at }
    ensures { result ≡ with_skipped body (past_statement whole s.now here.at) }
{
    let next = text_statement::past_statement_here(here, classes, whole, s)?;
    Ok(Inside::On(moved(body, next.at)))
}

// Reads the value of a prefix or a revision-date and its semicolon. The keyword tells which.
fn read_inside(
    body: Body,
    here: Cursor,
    classes: &ByteClasses,
    whole: bool,
    s: &[u8],
    store: &mut [u8],
    keyword: u32,
) -> Result<Inside, Refusal>
    requires { Room s.now here.at store.old body.used }
    ensures { (result ≡ with_value body keyword (line_at whole s.now here.at body.used keyword semicolon))
        × (store.new ≡ sets store.old body.used (value_bytes (value_at s.now here.at))) }
{
    let used = body.used;
    let (next, n) = text_value::read_argument(
        here,
        classes,
        whole,
        s,
        store,
        used,
        keyword,
        text::SEMICOLON,
    )?;
    let value = scan_rows::held(used, n - used);
    Ok(Inside::On(kept(body, keyword, next, n, value)))
}

// The block with one more value. Of several prefixes or revision-dates the last one read stays.
#[tactic(auto, unfolding(crate::specs::Block::kept))]
fn kept(body: Body, keyword: u32, next: Cursor, used: usize, value: Span) -> Body
    ensures { result ≡ kept body keyword next.at used value }
{
    if keyword == text::PREFIX {
        Body {
            at: next.at,
            used,
            prefix: value,
            revision: same(body.revision),
        }
    } else {
        Body {
            at: next.at,
            used,
            prefix: same(body.prefix),
            revision: value,
        }
    }
}

// What the statement is that stands here: in an import's block a prefix counts too. No keyword is tried where no identifier begins.
#[tactic(auto, using(crate::proofs::InsideLaws::kind_none), unfolding(crate::specs::Block::line_kind, crate::specs::Block::or_line))]
fn line_kind(here: Cursor, classes: &ByteClasses, s: &[u8], keyword: u32) -> Option<(u32, Cursor)>
    ensures { result ≡ line_kind s.now here.at keyword }
{
    if !text::starts_ident(classes, text::peek_char(s, here.at)) {
        return None;
    }
    if keyword == text::IMPORT {
        if let Some(after) = here.match_keyword(classes, s, b"prefix") {
            return Some((text::PREFIX, after));
        }
    }
    revision_line(here, classes, s)
}

// A revision-date, or another statement.
#[tactic(auto, unfolding(crate::specs::Block::or_line))]
fn revision_line(here: Cursor, classes: &ByteClasses, s: &[u8]) -> Option<(u32, Cursor)>
    ensures { result ≡ revision_line s.now here.at }
{
    here.match_keyword(classes, s, b"revision-date")
        .map(|after| (text::REVISION_DATE, after))
}
