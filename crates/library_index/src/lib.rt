// An index over names that stand in a slice of bytes. The table has the heads of the buckets, and three words for each name: its place, its
// length and its link, which leads to the name before it in its bucket. A head and a link are one more than the number of a name, or 0 for none.
#![tactic(auto)]

ghost use Rattle.std.specs.Prelude.{◌≡◌, ◌+◌, ◌≤◌, ◌<◌, length, get_or};
ghost use Rattle.library_index.specs.Names.{buckets, row_words, row_of, first_of, names_in, hash_of, Indexed, Sought, Room, Added, Space, Taken, Puts, Stored};
ghost use Rattle.library_index.specs.Names.{Cleared};

use library_form::{ImageCursor, WrongAt};

// How many buckets there are.
pub const BUCKETS: usize = 2048;

// How many words a name takes.
pub const ROW: usize = 3;

// The bucket of a name is made byte by byte: what there is so far times this, and the byte.
const FACTOR: usize = 131;

// The bucket of a name.
fn bucket(name: &[u8]) -> usize
    ensures { (result ≡ hash_of name.now) × (result < buckets) }
{
    let mut h: usize = 0;
    for &b in name {
        h = (h * FACTOR + usize::from(b)) % BUCKETS;
    }
    h
}

// Empties every bucket.
pub fn clear(tab: &mut [u32])
    requires { buckets ≤ length tab.old }
    ensures { Cleared tab.old tab.new }
{
    tab[..BUCKETS].fill(0);
}

// Where the name of number `i` starts.
pub fn place_of(tab: &[u32], i: usize) -> usize
    requires { row_of i + row_words ≤ length tab.now }
    ensures { result ≡ get_or tab.now (row_of i) 0 }
{
    tab[BUCKETS + i * ROW] as usize
}

// How long the name of number `i` is.
pub fn length_of(tab: &[u32], i: usize) -> usize
    requires { row_of i + row_words ≤ length tab.now }
    ensures { result ≡ get_or tab.now (row_of i + 1) 0 }
{
    tab[BUCKETS + i * ROW + 1] as usize
}

// Goes through the names of the bucket `h`, which is that of `name`, to the one with its bytes. By `check::same`: with `==` of slices, which goes by groups of
// bytes, a graph of many short names took a tenth more instructions.
fn seek(s: &[u8], tab: &[u32], count: usize, h: usize, name: &[u8]) -> Option<usize>
    requires { Sought s.now tab.now count h name.now }
    ensures { result ≡ first_of name.now (names_in s.now tab.now count) }
{
    let mut j = tab[h] as usize;
    while 0 < j {
        let i = j - 1;
        let row = BUCKETS + i * ROW;
        let place = tab[row] as usize;
        let len = tab[row + 1] as usize;
        if check::same(&s[place..place + len], name) {
            return Some(i);
        }
        j = tab[row + 2] as usize;
    }
    None
}

// The first of the `count` names of the table that has the bytes of `name`.
pub fn find(s: &[u8], tab: &[u32], count: usize, name: &[u8]) -> Option<usize>
    requires { Indexed s.now tab.now count }
    ensures { result ≡ first_of name.now (names_in s.now tab.now count) }
{
    let h = bucket(name);
    seek(s, tab, count, h, name)
}

// Puts the name at `place` behind the `count` names of the table, in the bucket `h`.
fn put(tab: &mut [u32], count: usize, h: usize, place: usize, len: usize)
    requires { Puts tab.old count h place len }
    ensures { Stored tab.old count h place len tab.new }
{
    let last = tab[h];
    let row = BUCKETS + count * ROW;
    tab[row] = place as u32;
    tab[row + 1] = len as u32;
    tab[row + 2] = last;
    tab[h] = count as u32 + 1;
}

// Adds the name of `len` bytes at `place`, unless one of the `count` names of the table has its bytes: then that one is answered.
pub fn add(s: &[u8], tab: &mut [u32], count: usize, place: usize, len: usize) -> Option<usize>
    requires { Room s.now tab.old count place len }
    ensures { Added s.now tab.old count place len result tab.new }
{
    let name = &s[place..place + len];
    let h = bucket(name);
    let found = seek(s, tab, count, h, name);
    if found.is_none() {
        put(tab, count, h, place, len);
    }
    found
}

// Reads the name at `at` and adds it to the `count` names of the table. A name that is there already is wrong.
pub fn take_name(
    s: &[u8],
    tab: &mut [u32],
    count: usize,
    at: usize,
) -> Result<(usize, usize), WrongAt>
    requires { Space s.now tab.old count }
    ensures { Taken s.now tab.old count at result tab.new }
{
    let (first, len) = ImageCursor { at }.name(s)?;
    match add(s, tab, count, first, len) {
        None => Ok((first, len)),
        Some(_) => Err(at),
    }
}
