// The searches over the bytes of an image that is well formed: for a module, an import-only module, or a submodule of some module, by its name, in the
// image's order.
#![tactic(auto)]

ghost use Rattle.std.specs.Prelude.{◌≡◌, ℕ, true, false};
ghost use Rattle.library_form.specs.Form.{number_seen};
ghost use Rattle.library_lists.specs.Lists.{read_seen, rest_at};
ghost use Rattle.library_search.specs.Search.{Tried as TriedPart, past, found_by, list_tried, hit_at, entry_tried, entries_tried, set_tried, sets_tried};
ghost use Rattle.library_search.specs.Search.{word_tried};
ghost use Rattle.library_search.specs.Search.{submodule_count, lists_behind, all_submodules_tried};

use library_form::{ImageCursor, WrongAt};
use std::ops::ControlFlow::{self, Break, Continue};

// What a search comes to at a part of the image: it goes on at the place behind it, or it ends at a hit, with its place and its count of revisions, or with no
// hit at a broken part, which no well-formed image has.
pub type Tried = ControlFlow<Option<(usize, usize)>, usize>;

// A part that was read is passed.
fn past(read: Result<usize, WrongAt>) -> Tried
    ensures { result ≡ past (read_seen read) }
{
    match read {
        Ok(end) => Continue(end),
        Err(_) => Break(None),
    }
}

// A hit at `place` whose name ends at `end`, where the count of revisions stands if it is an import-only module.
fn hit_at(s: &[u8], import_only: bool, place: usize, end: usize) -> Tried
    ensures { result ≡ hit_at s.now import_only place end }
{
    if !import_only {
        return Break(Some((place, 0)));
    }
    let Ok((revisions, _)) = ImageCursor { at: end }.number(s) else {
        return Break(None);
    };
    Break(Some((place, revisions)))
}

// Passes what stands behind the name that ends at `at`.
fn pass_rest(s: &[u8], import_only: bool, at: usize) -> Tried
    ensures { result ≡ past (rest_at import_only s.now at) }
{
    past(library_lists::read_rest(s, import_only, at))
}

// The module or import-only module at `at`. If it is not `wanted`, its name is not looked at and it is passed.
fn try_entry(s: &[u8], import_only: bool, wanted: bool, at: usize, name: &[u8]) -> Tried
    ensures { result ≡ entry_tried s.now name.now import_only wanted at }
{
    let Ok((first, len)) = ImageCursor { at }.name(s) else {
        return Break(None);
    };
    let end = first + len;
    if wanted && &s[first..end] == name {
        return hit_at(s, import_only, first, end);
    }
    pass_rest(s, import_only, end)
}

// A counted list at `at`, of at most so many parts, each tried by `part`.
fn try_list<F: Fn(usize) -> Tried>(s: &[u8], at: usize, most: usize, part: F) -> Tried
    ghost step: { ℕ → TriedPart }
    requires callable { F.IsAlwaysCallable part }
    requires steps { (x : ℕ) (r : TriedPart) → F.post part x r → r ≡ step x }
    ensures { result ≡ list_tried most step s.now at }
{
    let Ok((count, next)) = library_lists::read_count(s, at, 0, most) else {
        return Break(None);
    };
    let mut here = next.at;
    for _ in 0..count {
        here = part(here)?;
    }
    Continue(here)
}

// The modules of a set, or its import-only modules.
fn try_entries(s: &[u8], import_only: bool, wanted: bool, at: usize, name: &[u8]) -> Tried
    ensures { result ≡ entries_tried s.now name.now import_only wanted at }
{
    try_list(
        s,
        at,
        library_lists::MOST_MODULES,
        |here| try_entry(s, import_only, wanted, here, name),
    )
}

// The set at `at`: its modules, then its import-only modules.
fn try_set(s: &[u8], modules: bool, import_only: bool, at: usize, name: &[u8]) -> Tried
    ensures { result ≡ set_tried s.now name.now modules import_only at }
{
    let behind = try_entries(s, false, modules, at, name)?;
    try_entries(s, true, import_only, behind, name)
}

// All sets.
pub fn try_sets(s: &[u8], modules: bool, import_only: bool, name: &[u8]) -> Tried
    ensures { result ≡ sets_tried s.now name.now modules import_only }
{
    try_list(
        s,
        0,
        library_lists::MOST_SETS,
        |here| try_set(s, modules, import_only, here, name),
    )
}

// The submodule's name at `at`.
fn try_word(s: &[u8], at: usize, name: &[u8]) -> Tried
    ensures { result ≡ word_tried s.now name.now at }
{
    let Ok((first, len)) = ImageCursor { at }.name(s) else {
        return Break(None);
    };
    let end = first + len;
    if &s[first..end] == name {
        return Break(Some((first, 0)));
    }
    Continue(end)
}

// The number of submodules of the module at `at`, behind its name.
fn enter_module(s: &[u8], at: usize) -> Result<(usize, ImageCursor), WrongAt>
    ensures { number_seen result ≡ submodule_count s.now at }
{
    let (first, len) = ImageCursor { at }.name(s)?;
    library_lists::read_count(s, first + len, 0, library_lists::MOST_NAMES)
}

// The place behind the two lists that follow a module's submodules.
fn leave_module(s: &[u8], at: usize) -> Result<usize, WrongAt>
    ensures { read_seen result ≡ lists_behind s.now at }
{
    let augmenting = library_lists::read_names(s, false, at)?;
    library_lists::read_names(s, false, augmenting)
}

// Through sets, modules and submodules, to the first submodule with the bytes of `name`. Import-only modules are passed.
pub fn search_submodule(s: &[u8], name: &[u8]) -> Result<Option<(usize, usize)>, WrongAt>
    ensures { result ≡ found_by (all_submodules_tried s.now name.now) }
{
    let Ok((sets, next)) = library_lists::read_count(s, 0, 0, library_lists::MOST_SETS) else {
        return Ok(None);
    };
    let mut at = next.at;
    let mut hit = None;
    // Document 01 names this form: nested loops, left by a label at the found submodule.
    'search: for i in 0..sets {
        let Ok((modules, next)) = library_lists::read_count(s, at, 0, library_lists::MOST_MODULES)
        else {
            return Ok(None);
        };
        at = next.at;
        for j in 0..modules {
            let Ok((submodules, next)) = enter_module(s, at) else {
                return Ok(None);
            };
            at = next.at;
            for k in 0..submodules {
                match try_word(s, at, name) {
                    Continue(end) => {
                        at = end;
                    }
                    Break(found) => {
                        hit = found;
                        break 'search;
                    }
                }
            }
            let Ok(behind) = leave_module(s, at) else {
                return Ok(None);
            };
            at = behind;
        }
        match try_entries(s, true, false, at, name) {
            Continue(end) => {
                at = end;
            }
            Break(found) => {
                return Ok(found);
            }
        }
    }
    Ok(hit)
}

// What a search of a well-formed image came to, as an answer.
pub fn found_by(tried: Tried) -> Result<Option<(usize, usize)>, WrongAt>
    ensures { result ≡ found_by tried }
{
    match tried {
        Continue(_) => Ok(None),
        Break(hit) => Ok(hit),
    }
}
