// The library image, read from its first byte to its last. Names of modules must differ in a set, and so must those of import-only modules: both go through
// an index.
#![tactic(auto)]

ghost use Rattle.std.specs.Prelude.{◌≡◌, true, false, []};
ghost use Rattle.library_index.specs.Names.{Space};
ghost use Rattle.library_image.specs.Image.{set_at, library_at, image_at};
ghost use Rattle.library_read.specs.Reading.{entries_at, EntryTaken, Roomy, ReadAs, read_number};
ghost use Rattle.library_lists.specs.Lists.{done, read_seen};

use library_form::WrongAt;

// The refusal of this layer: an image that breaks its form.
pub const IMAGE_BROKEN: u32 = 20;

// How many bytes an image has at the most.
pub const MOST_IMAGE: usize = 65536;

// How many words the table of names has: 2,048 heads, and three words for each of 512 names.
const TABLE: usize = 3584;

// The module or import-only module at `at`. Its name must be none of the `i` names of the table, and becomes the next of them.
fn take_entry(
    s: &[u8],
    tab: &mut [u32],
    import_only: bool,
    i: usize,
    at: usize,
) -> Result<usize, WrongAt>
    requires { Space s.now tab.old i }
    ensures { EntryTaken import_only s.now tab.old i at result tab.new }
{
    let (first, len) = library_index::take_name(s, tab, i, at)?;
    library_lists::read_rest(s, import_only, first + len)
}

// The modules of a set, or its import-only modules.
fn read_entries(s: &[u8], tab: &mut [u32], import_only: bool, at: usize) -> Result<usize, WrongAt>
    requires { Roomy s.now tab.old }
    ensures { ReadAs result (done (entries_at import_only s.now at)) tab.old tab.new }
{
    let (count, next) = library_lists::read_count(s, at, 0, library_lists::MOST_MODULES)?;
    library_index::clear(tab);
    let mut here = next.at;
    for i in 0..count {
        here = take_entry(s, tab, import_only, i, here)?;
    }
    Ok(here)
}

// A set: its modules, then its import-only modules.
fn read_set(s: &[u8], tab: &mut [u32], at: usize) -> Result<usize, WrongAt>
    requires { Roomy s.now tab.old }
    ensures { ReadAs result (done (set_at s.now [] at)) tab.old tab.new }
{
    let modules = read_entries(s, tab, false, at)?;
    read_entries(s, tab, true, modules)
}

// All sets.
fn read_sets(s: &[u8], tab: &mut [u32]) -> Result<usize, WrongAt>
    requires { Roomy s.now tab.old }
    ensures { ReadAs result (done (library_at s.now 0)) tab.old tab.new }
{
    let (count, next) = library_lists::read_count(s, 0, 0, library_lists::MOST_SETS)?;
    let mut here = next.at;
    for _ in 0..count {
        here = read_set(s, tab, here)?;
    }
    Ok(here)
}

// The whole image: its end, or where it is wrong (refusal 20).
pub fn read_image(s: &[u8]) -> Result<usize, WrongAt>
    ensures { read_seen result ≡ done (image_at s.now) }
{
    if MOST_IMAGE < s.len() {
        return Err(0);
    }
    let mut tab: [u32; TABLE] = [0; TABLE];
    let end = read_sets(s, &mut tab)?;
    if end < s.len() {
        return Err(end);
    }
    Ok(end)
}

// Of an image that was read: the number of its refusal, or 0.
pub fn read_number(x: Result<usize, WrongAt>) -> u32
    ensures { result ≡ read_number x }
{
    match x {
        Ok(_) => 0,
        Err(_) => IMAGE_BROKEN,
    }
}
