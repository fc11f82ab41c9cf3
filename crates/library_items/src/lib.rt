// The names of a well-formed image in one list: where each stands, how long it is and what it is. Those who go through the library go through this list.
#![tactic(auto)]

ghost use Rattle.std.specs.Prelude.{◌≡◌, ◌+◌, ◌*◌, ◌≤◌, length};
ghost use Rattle.library_image.specs.Image.{image_at};
ghost use Rattle.library_items.specs.Items.{number_of, kind_of};
ghost use Rattle.library_items.specs.Table.{table_words, item_in, name_read, list_read, lists_read, revisions_read, entry_read, entries_read, set_read, Reads};
ghost use Rattle.library_items.specs.Table.{Puts, Laid, Room, Gained, Itemized};

use library_form::ImageCursor;

// What a name is. Of an import-only module's submodules, those of its first revision are told from those of a later one. No name is the last kind: it stands
// for the one number left of the eight that a word can hold, so that each number has a kind of its own.
#[derive(Clone, Copy)]
pub enum Kind {
    Module,
    Submodule,
    Augmenting,
    Deviation,
    ImportOnly,
    FirstSub,
    LaterSub,
    NoName,
}

// A name's length and kind share a word: the length times this, and the kind.
const KINDS: usize = 8;

// How many words the table has, two for each name: an image has at most 65,536 bytes, and each name takes two of them or more.
pub const TABLE: usize = 65536;

// A name: what it is, where its first byte stands, and how long it is.
#[derive(Clone, Copy)]
pub struct Item {
    pub kind: Kind,
    pub place: usize,
    pub size: usize,
}

// How many items there are so far, and the place in the image behind what was read.
#[derive(Clone, Copy)]
pub struct Reach {
    pub items: usize,
    pub at: usize,
}

impl Kind {
    // The number that stands for a kind in the table.
    pub fn number(self) -> usize
        ensures { result ≡ number_of self }
    {
        self as usize
    }
}

// The kind that a number stands for.
fn kind_of(number: usize) -> Kind
    ensures { result ≡ kind_of number }
{
    match number {
        0 => Kind::Module,
        1 => Kind::Submodule,
        2 => Kind::Augmenting,
        3 => Kind::Deviation,
        4 => Kind::ImportOnly,
        5 => Kind::FirstSub,
        6 => Kind::LaterSub,
        _ => Kind::NoName,
    }
}

// The i-th item of the table.
pub fn get_item(tab: &[u32], i: usize) -> Item
    requires { i * 2 + 2 ≤ length tab.now }
    ensures { result ≡ item_in tab.now i }
{
    let place = tab[i * 2] as usize;
    let word = tab[i * 2 + 1] as usize;
    Item {
        kind: kind_of(word % KINDS),
        place,
        size: word / KINDS,
    }
}

// Writes the item behind `n` others.
fn put_item(tab: &mut [u32], n: usize, x: Item)
    requires { Puts tab.old n x }
    ensures { Laid tab.old n x tab.new }
{
    let word = x.size * KINDS + x.kind.number();
    tab[n * 2] = x.place as u32;
    tab[n * 2 + 1] = word as u32;
}

// The name at the place reached, as one item more. The image is well formed: here and below, what stands behind `else` never happens.
fn take_item(s: &[u8], tab: &mut [u32], from: Reach, kind: Kind) -> Reach
    requires { Room s.now tab.old from.items from.at × Reads (name_read kind s.now from.at) }
    ensures { Gained s.now tab.old from.items (name_read kind s.now from.at) result tab.new }
{
    let Ok((place, size)) = ImageCursor { at: from.at }.name(s) else {
        return from;
    };
    put_item(tab, from.items, Item { kind, place, size });
    Reach {
        items: from.items + 1,
        at: place + size,
    }
}

// A list of names, as items of one kind. The four loops of this crate differ in the step, which changes the lent table: of a closure that changes what it
// borrows a proof learns nothing (CONTRACTS.md, "Chains of iterators"), so each stands written out.
fn take_list(s: &[u8], tab: &mut [u32], from: Reach, kind: Kind) -> Reach
    requires { Room s.now tab.old from.items from.at × Reads (list_read kind s.now from.at) }
    ensures { Gained s.now tab.old from.items (list_read kind s.now from.at) result tab.new }
{
    let Ok((names, next)) = library_lists::read_count(s, from.at, 0, library_lists::MOST_NAMES)
    else {
        return from;
    };
    let mut reach = Reach {
        at: next.at,
        ..from
    };
    for _ in 0..names {
        reach = take_item(s, tab, reach, kind);
    }
    reach
}

// The three lists behind a module's name.
fn take_lists(s: &[u8], tab: &mut [u32], from: Reach) -> Reach
    requires { Room s.now tab.old from.items from.at × Reads (lists_read s.now from.at) }
    ensures { Gained s.now tab.old from.items (lists_read s.now from.at) result tab.new }
{
    let submodules = take_list(s, tab, from, Kind::Submodule);
    let augmenting = take_list(s, tab, submodules, Kind::Augmenting);
    take_list(s, tab, augmenting, Kind::Deviation)
}

// The revisions behind an import-only module's name.
fn take_revisions(s: &[u8], tab: &mut [u32], from: Reach) -> Reach
    requires { Room s.now tab.old from.items from.at × Reads (revisions_read s.now from.at) }
    ensures { Gained s.now tab.old from.items (revisions_read s.now from.at) result tab.new }
{
    let Ok((count, next)) = library_lists::read_count(
        s,
        from.at,
        library_lists::LEAST_REVISIONS,
        library_lists::MOST_REVISIONS,
    ) else {
        return from;
    };
    let mut reach = take_list(
        s,
        tab,
        Reach {
            at: next.at,
            ..from
        },
        Kind::FirstSub,
    );
    for _ in 1..count {
        reach = take_list(s, tab, reach, Kind::LaterSub);
    }
    reach
}

// A module or an import-only module.
fn take_entry(s: &[u8], tab: &mut [u32], import_only: bool, from: Reach) -> Reach
    requires { Room s.now tab.old from.items from.at × Reads (entry_read import_only s.now from.at) }
    ensures { Gained s.now tab.old from.items (entry_read import_only s.now from.at) result tab.new }
{
    if import_only {
        let name = take_item(s, tab, from, Kind::ImportOnly);
        take_revisions(s, tab, name)
    } else {
        let name = take_item(s, tab, from, Kind::Module);
        take_lists(s, tab, name)
    }
}

// The modules of a set, or its import-only modules.
fn take_entries(s: &[u8], tab: &mut [u32], import_only: bool, from: Reach) -> Reach
    requires { Room s.now tab.old from.items from.at × Reads (entries_read import_only s.now from.at) }
    ensures { Gained s.now tab.old from.items (entries_read import_only s.now from.at) result tab.new }
{
    let Ok((count, next)) = library_lists::read_count(s, from.at, 0, library_lists::MOST_MODULES)
    else {
        return from;
    };
    let mut reach = Reach {
        at: next.at,
        ..from
    };
    for _ in 0..count {
        reach = take_entry(s, tab, import_only, reach);
    }
    reach
}

// A set: its modules, then its import-only modules.
fn take_set(s: &[u8], tab: &mut [u32], from: Reach) -> Reach
    requires { Room s.now tab.old from.items from.at × Reads (set_read s.now from.at) }
    ensures { Gained s.now tab.old from.items (set_read s.now from.at) result tab.new }
{
    let modules = take_entries(s, tab, false, from);
    take_entries(s, tab, true, modules)
}

// All names of a well-formed image, and how many they are.
pub fn list_items(s: &[u8], tab: &mut [u32]) -> usize
    requires { (table_words ≤ length tab.old) × Reads (image_at s.now) }
    ensures { Itemized s.now result tab.new × (length tab.new ≡ length tab.old) }
{
    let Ok((count, next)) = library_lists::read_count(s, 0, 0, library_lists::MOST_SETS) else {
        return 0;
    };
    let mut reach = Reach {
        items: 0,
        at: next.at,
    };
    for _ in 0..count {
        reach = take_set(s, tab, reach);
    }
    reach.items
}
