// The lists of an image, and what stands behind the name of a module or an import-only module. Names of a revision's submodules must differ; they are few and
// are compared with each other.
#![tactic(auto)]

ghost use Rattle.std.specs.Prelude.{◌≡◌, true, false};
ghost use Rattle.library_form.specs.Form.{number_seen, name_seen};
ghost use Rattle.library_image.specs.Image.{count_at};
ghost use Rattle.library_lists.specs.Lists.{done, read_seen, list_at, among_at, word_behind, rest_at};

use library_form::{ImageCursor, WrongAt};

// The limits of counts: sets of an image, modules or import-only modules of a set, names of a list, revisions of an import-only module.
pub const MOST_SETS: usize = 16;

pub const MOST_MODULES: usize = 512;

pub const MOST_NAMES: usize = 64;

pub const LEAST_REVISIONS: usize = 1;

pub const MOST_REVISIONS: usize = 8;

// The number at `at`, which must be from `least` to `most`.
pub fn read_count(
    s: &[u8],
    at: usize,
    least: usize,
    most: usize,
) -> Result<(usize, ImageCursor), WrongAt>
    ensures { number_seen result ≡ count_at least most s.now at }
{
    let (count, next) = ImageCursor { at }.number(s)?;
    if count < least || most < count {
        return Err(at);
    }
    Ok((count, next))
}

// Whether one of the `count` names from `from` on has the bytes of `name`.
fn among(s: &[u8], from: usize, count: usize, name: &[u8]) -> bool
    ensures { result ≡ among_at count s.now from name.now }
{
    let mut at = from;
    for _ in 0..count {
        let Ok((first, len)) = ImageCursor { at }.name(s) else {
            return false;
        };
        let end = first + len;
        if &s[first..end] == name {
            return true;
        }
        at = end;
    }
    false
}

// The name at `at`. Before it stand `i` names, from `from` on; if names must differ, it may be none of them.
fn read_word(
    s: &[u8],
    differ: bool,
    from: usize,
    i: usize,
    at: usize,
) -> Result<(usize, usize), WrongAt>
    ensures { name_seen s.now result ≡ word_behind differ s.now from i at }
{
    let (first, len) = ImageCursor { at }.name(s)?;
    if differ && among(s, from, i, &s[first..first + len]) {
        return Err(at);
    }
    Ok((first, len))
}

// A list of names, which may have to differ.
pub fn read_names(s: &[u8], differ: bool, at: usize) -> Result<usize, WrongAt>
    ensures { read_seen result ≡ done (list_at differ s.now at) }
{
    let (count, next) = read_count(s, at, 0, MOST_NAMES)?;
    let from = next.at;
    let mut here = from;
    for i in 0..count {
        let (first, len) = read_word(s, differ, from, i, here)?;
        here = first + len;
    }
    Ok(here)
}

// A module's submodules, augmenting modules and deviations.
fn read_lists(s: &[u8], at: usize) -> Result<usize, WrongAt>
    ensures { read_seen result ≡ rest_at false s.now at }
{
    let submodules = read_names(s, false, at)?;
    let augmenting = read_names(s, false, submodules)?;
    read_names(s, false, augmenting)
}

// The revisions of an import-only module, each a list of submodules that differ.
fn read_revisions(s: &[u8], at: usize) -> Result<usize, WrongAt>
    ensures { read_seen result ≡ rest_at true s.now at }
{
    let (count, next) = read_count(s, at, LEAST_REVISIONS, MOST_REVISIONS)?;
    let mut here = next.at;
    for _ in 0..count {
        here = read_names(s, true, here)?;
    }
    Ok(here)
}

// What stands behind the name of a module, or of an import-only module.
pub fn read_rest(s: &[u8], import_only: bool, at: usize) -> Result<usize, WrongAt>
    ensures { read_seen result ≡ rest_at import_only s.now at }
{
    if import_only {
        read_revisions(s, at)
    } else {
        read_lists(s, at)
    }
}
