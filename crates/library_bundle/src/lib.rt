// The bundle: a number of texts, each a name, a length and as many bytes. It is read once, its names are put into an index, and the text under
// a name is a part of the lent slice.
#![tactic(auto)]

ghost use Rattle.std.specs.Prelude.{◌≡◌, ◌+◌, ◌≤◌, length, take, drop};
ghost use Rattle.library_index.specs.Names.{Space};
ghost use Rattle.library_bundle.specs.Bundle.{looked, look_up, text_under};
ghost use Rattle.library_bundle.specs.Reading.{table_words, FiledAs, Held, OpenedAs, NameHeld, size_in, longest_text};

use library_form::{ImageCursor, WrongAt};

// The refusal of this layer: a bundle that breaks its form.
pub const BUNDLE_BROKEN: u32 = 21;

// How many bytes a bundle has at the most, and how many texts.
pub const MOST_BYTES: usize = 16777216;

pub const MOST_TEXTS: usize = 2048;

// How many words the table has for so many names: 2,048 heads, and three words for each name.
pub const TABLE: usize = 8192;

// Reads the text at `at` and puts its name into the table, behind `i` others, none of which may have that name. A text cut short is wrong at its length.
// A `match` and no `?` here and in `find_text`: so an edit can change the answer to what is wrong and keep all else, and is refused by the contract alone.
fn file(s: &[u8], tab: &mut [u32], i: usize, at: usize) -> Result<usize, WrongAt>
    requires { Space s.now tab.old i }
    ensures { FiledAs s.now tab.old i at result tab.new }
{
    let (word, len) = match library_index::take_name(s, tab, i, at) {
        Ok(named) => named,
        Err(p) => return Err(p),
    };
    let end = word + len;
    let (size, body) = ImageCursor { at: end }.number(s)?;
    if s.len() - body.at < size {
        return Err(end);
    }
    Ok(body.at + size)
}

// Reads the bundle and puts its names into the table.
pub fn open(s: &[u8], tab: &mut [u32]) -> Result<usize, WrongAt>
    requires { table_words ≤ length tab.old }
    ensures { OpenedAs s.now result tab.new }
{
    if MOST_BYTES < s.len() {
        return Err(0);
    }
    let (count, first) = ImageCursor { at: 0 }.number(s)?;
    if MOST_TEXTS < count {
        return Err(0);
    }
    library_index::clear(tab);
    let mut at = first.at;
    for i in 0..count {
        at = file(s, tab, i, at)?;
    }
    if at < s.len() {
        return Err(at);
    }
    Ok(count)
}

// Where the text under `name` stands in a bundle whose names are in the table. Bundle, table and count stay three parameters: `Ground` of graph_visit is the
// struct that has them with their fact, and a second one around it would be no plainer.
pub fn find(s: &[u8], tab: &[u32], count: usize, name: &[u8]) -> Option<(usize, usize)>
    requires { Held s.now tab.now count }
    ensures { looked result ≡ look_up s.now name.now }
{
    let i = library_index::find(s, tab, count, name)?;
    let place = library_index::place_of(tab, i);
    let len = library_index::length_of(tab, i);
    let (size, body) = ImageCursor { at: place + len }.number(s).ok()?;
    Some((body.at, size))
}

// The length of the i-th text.
fn size_of(s: &[u8], tab: &[u32], i: usize) -> usize
    requires { NameHeld s.now tab.now i }
    ensures { result ≡ size_in s.now tab.now i }
{
    let place = library_index::place_of(tab, i);
    let len = library_index::length_of(tab, i);
    match (ImageCursor { at: place + len }).number(s) {
        Ok((size, _)) => size,
        Err(_) => 0,
    }
}

// How long the longest text is.
pub fn longest(s: &[u8], tab: &[u32], count: usize) -> usize
    requires { Held s.now tab.now count }
    ensures { result ≡ longest_text s.now }
{
    let mut most = 0;
    for i in 0..count {
        most = size_of(s, tab, i).max(most);
    }
    most
}

// The text that stands at a place, as `find` tells it. `text` cuts here, and so does the walk of the graph, which must tell a missing text from an empty one.
pub fn text_at<'a>(s: &'a [u8], from: usize, size: usize) -> &'a [u8]
    requires { from + size ≤ length s.now }
    ensures { result.now ≡ take size (drop from s.now) }
{
    &s[from..from + size]
}

// The text under `name`, empty where there is none.
fn text<'a>(s: &'a [u8], tab: &[u32], count: usize, name: &[u8]) -> &'a [u8]
    requires { Held s.now tab.now count }
    ensures { result.now ≡ text_under s.now name.now }
{
    match find(s, tab, count, name) {
        Some((from, size)) => text_at(s, from, size),
        None => &[],
    }
}

// The text under `name` in one call: empty where the bundle is wrong or has none.
pub fn text_under<'a>(bundle: &'a [u8], name: &[u8]) -> &'a [u8]
    ensures { result.now ≡ text_under bundle.now name.now }
{
    let mut tab: [u32; TABLE] = [0; TABLE];
    match open(bundle, &mut tab) {
        Ok(count) => text(bundle, &tab, count, name),
        Err(_) => &[],
    }
}

// The call beside it, which says why the text is empty: the bundle is wrong, or it has no such text, or the text stands here and may be empty itself.
pub fn find_text(bundle: &[u8], name: &[u8]) -> Result<Option<(usize, usize)>, WrongAt>
    ensures { result ≡ look_up bundle.now name.now }
{
    let mut tab: [u32; TABLE] = [0; TABLE];
    match open(bundle, &mut tab) {
        Ok(count) => Ok(find(bundle, &tab, count, name)),
        Err(p) => Err(p),
    }
}
