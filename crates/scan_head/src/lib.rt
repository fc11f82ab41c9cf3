// The keyword that the dependency scan meets: import, include, or one of the four that end it.
#![tactic(auto)]

ghost use Rattle.std.specs.Prelude.{◌≡◌};
ghost use Rattle.scan_head.specs.Head.{last_at, head_at};

use text::{ByteClasses, Cursor};

// The keyword that stands at a place: import, include, one of the four after which nothing is imported or included, or none of these.
#[derive(Clone, Copy)]
pub enum Head {
    Import(Cursor),
    Include(Cursor),
    Last(Cursor),
    Other,
}

// No keyword is tried where no identifier begins.
pub fn read_head(here: Cursor, classes: &ByteClasses, s: &[u8]) -> Head
    ensures { result ≡ head_at s.now here.at }
{
    if text::starts_ident(classes, text::peek_char(s, here.at)) {
        try_heads(here, classes, s)
    } else {
        Head::Other
    }
}

#[tactic(auto, unfolding(crate::specs::Head::head_at, crate::specs::Head::or_head))]
fn try_heads(here: Cursor, classes: &ByteClasses, s: &[u8]) -> Head
    ensures { result ≡ head_at s.now here.at }
{
    if let Some(c) = here.match_keyword(classes, s, b"import") {
        Head::Import(c)
    } else if let Some(c) = here.match_keyword(classes, s, b"include") {
        Head::Include(c)
    } else if let Some(c) = match_last(here, classes, s) {
        Head::Last(c)
    } else {
        Head::Other
    }
}

// Past one of the four keywords that end the scan. At most one keyword matches, so all can be tried in a row.
#[tactic(auto, unfolding(crate::specs::Head::last_at))]
fn match_last(here: Cursor, classes: &ByteClasses, s: &[u8]) -> Option<Cursor>
    ensures { result ≡ last_at s.now here.at }
{
    let reference = here.match_keyword(classes, s, b"reference");
    let description = text::or_word(here, classes, s, b"description", reference);
    let contact = text::or_word(here, classes, s, b"contact", description);
    text::or_word(here, classes, s, b"organization", contact)
}
