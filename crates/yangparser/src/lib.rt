// The dependency scan: import and include statements, their values in the store that the caller lends, their rows in its tables.
#![tactic(auto)]

ghost use Rattle.std.specs.Prelude.{◌≡◌, false, ◌*◌, ◌≤◌, ◌<◌, length};
ghost use Rattle.scan_rows.specs.Room.{Room};
ghost use Rattle.scan_rows.specs.Rows.{import_size, include_size, most_rows};
ghost use Rattle.yangparser.specs.Dependencies.{full, scanned};
ghost use Rattle.yangparser.specs.Promises.{AddsImport, AddsInclude, Steps, Parses, Scans, Extracts};
ghost use Rattle.yangparser.specs.Seek.{look_at, sought_at, step_from};

use scan_head::Head;
use text::{ByteClasses, Cursor, Reason, Refusal};

// What the scan read: how many rows of each, and how many bytes are stored.
#[derive(Clone, Copy)]
pub struct Rows {
    pub imports: usize,
    pub includes: usize,
    pub used: usize,
}

// Extract import and include statements from a text. What was lent is zero but for what is used, and all of it on a refusal. `whole`: the text must be
// whole, and what is read of it and breaks off is refused (11).
pub fn extract_yang_dependencies(
    whole: bool,
    s: &[u8],
    store: &mut [u8],
    imports: &mut [u32],
    includes: &mut [u32],
) -> Result<Rows, Refusal>
    ensures { Extracts whole s.now false store.old imports.old includes.old result
        store.new imports.new includes.new }
{
    scan_lent(whole, s, false, store, imports, includes)
}

// The same where something else that was lent may be too short.
pub fn scan_lent(
    whole: bool,
    s: &[u8],
    short: bool,
    store: &mut [u8],
    imports: &mut [u32],
    includes: &mut [u32],
) -> Result<Rows, Refusal>
    ensures { Extracts whole s.now short store.old imports.old includes.old result
        store.new imports.new includes.new }
{
    store.fill(0);
    imports.fill(0);
    includes.fill(0);
    let parsed = scan_over(whole, s, short, store, imports, includes);
    if parsed.is_err() {
        store.fill(0);
        imports.fill(0);
        includes.fill(0);
    }
    parsed
}

// The same over whatever was lent holds: it writes only what it uses, and clears nothing.
pub fn scan_over(
    whole: bool,
    s: &[u8],
    short: bool,
    store: &mut [u8],
    imports: &mut [u32],
    includes: &mut [u32],
) -> Result<Rows, Refusal>
    ensures { Scans whole s.now short store.old imports.old includes.old result
        store.new imports.new includes.new }
{
    let classes = text::classes();
    let unfit = scan_rows::too_short(short, s.len(), store.len(), imports.len(), includes.len());
    text_lent::check_lent(s, unfit)?;
    parse(&classes, whole, s, store, imports, includes)
}

// Where the scan stands, the store's next place, and the rows so far.
#[derive(Clone, Copy)]
pub struct Sofar {
    pub at: usize,
    pub used: usize,
    pub imports: usize,
    pub includes: usize,
}

// Reads all imports and includes. It writes only what it uses: the store from its start on, and the rows.
fn parse(
    classes: &ByteClasses,
    whole: bool,
    s: &[u8],
    store: &mut [u8],
    imports: &mut [u32],
    includes: &mut [u32],
) -> Result<Rows, Refusal>
    requires { (length s.now ≤ length store.old) × (length s.now < 4294967296)
        × (most_rows * import_size ≤ length imports.old) × (most_rows * include_size ≤ length includes.old) }
    ensures { Parses (scanned whole s.now) store.old imports.old includes.old result
        store.new imports.new includes.new }
{
    let mut far = Sofar {
        at: 0,
        used: 0,
        imports: 0,
        includes: 0,
    };
    while let Some(next) = parse_next(far, classes, whole, s, store, imports, includes)? {
        far = next;
    }
    Ok(Rows {
        imports: far.imports,
        includes: far.includes,
        used: far.used,
    })
}

// Reads the next import or include, past all tokens before it.
fn parse_next(
    far: Sofar,
    classes: &ByteClasses,
    whole: bool,
    s: &[u8],
    store: &mut [u8],
    imports: &mut [u32],
    includes: &mut [u32],
) -> Result<Option<Sofar>, Refusal>
    requires { (Room s.now far.at s.now far.used)
        × (length s.now ≤ length store.old) × (length s.now < 4294967296) × (most_rows * import_size ≤ length imports.old)
        × (most_rows * include_size ≤ length includes.old) }
    ensures { Steps (step_from whole s.now far) far store.old imports.old includes.old result
        store.new imports.new includes.new }
{
    match seek(Cursor { at: far.at }, classes, whole, s)? {
        Sought::Import(c) => add_import(far, c, classes, whole, s, store, imports),
        Sought::Include(c) => add_include(far, c, classes, whole, s, store, includes),
        Sought::End => Ok(None),
    }
}

// What ends a search: an import or include, and the cursor behind its keyword; nothing more is read.
#[derive(Clone, Copy)]
pub enum Sought {
    Import(Cursor),
    Include(Cursor),
    End,
}

// Skips tokens until something ends the search. It is a loop of its own: at each token only the place moves.
fn seek(from: Cursor, classes: &ByteClasses, whole: bool, s: &[u8]) -> Result<Sought, Refusal>
    ensures { result ≡ sought_at whole s.now from.at }
{
    let mut here = from;
    loop {
        match look_at(here, classes, whole, s)? {
            Look::Past(next) => here = next,
            Look::Met(x) => return Ok(x),
        }
    }
}

// A token was passed, and the cursor behind it; or what ends the search.
#[derive(Clone, Copy)]
pub enum Look {
    Past(Cursor),
    Met(Sought),
}

// What stands after a gap.
#[tactic(auto, unfolding(crate::specs::Seek::look_at, crate::specs::Seek::look_here, crate::specs::Seek::look_head, crate::specs::Seek::look_past))]
fn look_at(from: Cursor, classes: &ByteClasses, whole: bool, s: &[u8]) -> Result<Look, Refusal>
    ensures { result ≡ look_at whole s.now from.at }
{
    let here = from.skip_whitespace_and_comments(classes, s);
    if s.len() <= here.at {
        return Ok(Look::Met(Sought::End));
    }
    match scan_head::read_head(here, classes, s) {
        Head::Import(c) => Ok(Look::Met(Sought::Import(c))),
        Head::Include(c) => Ok(Look::Met(Sought::Include(c))),
        Head::Last(_) => Ok(Look::Met(Sought::End)),
        Head::Other => {
            let next = text_skip::past_token(here, classes, whole, s)?;
            Ok(Look::Past(next))
        }
    }
}

// The answer to a row too many: a refusal behind its keyword.
fn full(keyword: u32, here: Cursor) -> Result<Option<Sofar>, Refusal>
    ensures { result ≡ full keyword here.at }
{
    Err(Refusal {
        reason: Reason::TOO_MANY,
        keyword,
        at: here.at,
    })
}

// Reads an import and writes its row; the 257th is refused. One function for imports and includes would take what reads, what writes and which count grows
// as closures over two lent slices, and be no plainer than the two.
fn add_import(
    far: Sofar,
    here: Cursor,
    classes: &ByteClasses,
    whole: bool,
    s: &[u8],
    store: &mut [u8],
    imports: &mut [u32],
) -> Result<Option<Sofar>, Refusal>
    requires { (Room s.now here.at s.now far.used)
        × (length s.now ≤ length store.old) × (length s.now < 4294967296) × (most_rows * import_size ≤ length imports.old) }
    ensures { AddsImport whole s.now far here.at store.old imports.old result
        store.new imports.new }
{
    if scan_rows::MOST_ROWS <= far.imports {
        return full(text::IMPORT, here);
    }
    let (next, used, import) = scan_imports::parse_import(
        here, classes, whole, s, store, far.used,
    )?;
    scan_rows::put_import(imports, far.imports, import);
    Ok(Some(Sofar {
        at: next.at,
        used,
        imports: far.imports + 1,
        ..far
    }))
}

// Reads an include and writes its row; the 257th is refused.
fn add_include(
    far: Sofar,
    here: Cursor,
    classes: &ByteClasses,
    whole: bool,
    s: &[u8],
    store: &mut [u8],
    includes: &mut [u32],
) -> Result<Option<Sofar>, Refusal>
    requires { (Room s.now here.at s.now far.used)
        × (length s.now ≤ length store.old) × (length s.now < 4294967296) × (most_rows * include_size ≤ length includes.old) }
    ensures { AddsInclude whole s.now far here.at store.old includes.old result
        store.new includes.new }
{
    if scan_rows::MOST_ROWS <= far.includes {
        return full(text::INCLUDE, here);
    }
    let (next, used, include) = scan_imports::parse_include(
        here, classes, whole, s, store, far.used,
    )?;
    scan_rows::put_include(includes, far.includes, include);
    Ok(Some(Sofar {
        at: next.at,
        used,
        includes: far.includes + 1,
        ..far
    }))
}
