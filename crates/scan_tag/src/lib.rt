// The keyword that the metadata scan meets: one of the header's seven, or one of the nine that end it.
#![tactic(auto)]

ghost use Rattle.std.specs.Prelude.{◌≡◌, true};
ghost use Rattle.text.specs.Keyword.{wordly, match_at};
ghost use Rattle.scan_tag.specs.Tag.{later_data_at, data_at, last_tag, or_tag, later_tag_at, tag_at};

use text::{ByteClasses, Cursor};

// What stands at a place: a keyword of the header, one of the nine that end the scan, or neither.
#[derive(Clone, Copy)]
pub enum Tag {
    Statement { keyword: u32, after: Cursor },
    Last(Cursor),
    Other,
}

// No keyword is tried where no identifier begins.
pub fn read_tag(here: Cursor, classes: &ByteClasses, s: &[u8]) -> Tag
    ensures { result ≡ tag_at s.now here.at }
{
    if text::starts_ident(classes, text::peek_char(s, here.at)) {
        try_tags(here, classes, s)
    } else {
        Tag::Other
    }
}

// At most one keyword matches, so all can be tried in a row.
#[tactic(auto, unfolding(crate::specs::Tag::tag_at))]
fn try_tags(here: Cursor, classes: &ByteClasses, s: &[u8]) -> Tag
    ensures { result ≡ tag_at s.now here.at }
{
    let later = try_later_tags(here, classes, s);
    let namespace = or_tag(here, classes, s, b"namespace", text::NAMESPACE, later);
    let belongs_to = or_tag(here, classes, s, b"belongs-to", text::BELONGS_TO, namespace);
    let submodule = or_tag(here, classes, s, b"submodule", text::SUBMODULE, belongs_to);
    or_tag(here, classes, s, b"module", text::MODULE, submodule)
}

fn try_later_tags(here: Cursor, classes: &ByteClasses, s: &[u8]) -> Tag
    ensures { result ≡ later_tag_at s.now here.at }
{
    let last = last_tag(match_data(here, classes, s));
    let revision = or_tag(here, classes, s, b"revision", text::REVISION, last);
    let version = or_tag(
        here,
        classes,
        s,
        b"yang-version",
        text::YANG_VERSION,
        revision,
    );
    or_tag(here, classes, s, b"prefix", text::PREFIX, version)
}

// The keyword, if its word stands here.
#[tactic(auto, unfolding(crate::specs::Tag::or_tag))]
fn or_tag(here: Cursor, classes: &ByteClasses, s: &[u8], word: &[u8], keyword: u32, t: Tag) -> Tag
    requires { wordly word.now ≡ true }
    ensures { result ≡ or_tag keyword (match_at s.now here.at word.now) t }
{
    match here.match_keyword(classes, s, word) {
        Some(after) => Tag::Statement { keyword, after },
        None => t,
    }
}

#[tactic(auto, unfolding(crate::specs::Tag::last_tag))]
fn last_tag(m: Option<Cursor>) -> Tag
    ensures { result ≡ last_tag m }
{
    match m {
        Some(c) => Tag::Last(c),
        None => Tag::Other,
    }
}

// Past one of the nine keywords that end the scan.
#[tactic(auto, unfolding(crate::specs::Tag::data_at))]
fn match_data(here: Cursor, classes: &ByteClasses, s: &[u8]) -> Option<Cursor>
    ensures { result ≡ data_at s.now here.at }
{
    let later = match_later_data(here, classes, s);
    let grouping = text::or_word(here, classes, s, b"grouping", later);
    let leaf = text::or_word(here, classes, s, b"leaf", grouping);
    let list = text::or_word(here, classes, s, b"list", leaf);
    text::or_word(here, classes, s, b"container", list)
}

fn match_later_data(here: Cursor, classes: &ByteClasses, s: &[u8]) -> Option<Cursor>
    ensures { result ≡ later_data_at s.now here.at }
{
    let notification = here.match_keyword(classes, s, b"notification");
    let rpc = text::or_word(here, classes, s, b"rpc", notification);
    let augment = text::or_word(here, classes, s, b"augment", rpc);
    let identity = text::or_word(here, classes, s, b"identity", augment);
    text::or_word(here, classes, s, b"typedef", identity)
}
