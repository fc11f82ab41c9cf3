// What a dependency scan writes: values as spans of the store, a row of words for each import and include.
#![tactic(auto)]

ghost use Rattle.std.specs.Prelude.{◌≡◌, ◌+◌, ◌*◌, ◌≤◌, ◌<◌, length};
ghost use Rattle.std.proofs.lemmas.List.Edits.{sets};
ghost use Rattle.scan_rows.specs.Span.{held, missing, mark_of, value_in};
ghost use Rattle.scan_rows.specs.Rows.{import_size, include_size, most_rows, import_words, include_words, FitsImport, FitsInclude, span_at, marked_at};
ghost use Rattle.scan_rows.specs.Rows.{import_at, include_at};
ghost use Rattle.scan_rows.specs.Short.{is_too_short};

// How many words a row has, and how many rows a table has at the most.
pub const IMPORT_SIZE: usize = 7;

pub const INCLUDE_SIZE: usize = 5;

pub const MOST_ROWS: usize = 256;

// A value: where its bytes begin in the store and how many they are. One that is missing has 0, 0.
// No Option: the C record has the three as words (NUVALETA_VALUE_PRESENT), and `Behind` of demands_values speaks of `present`.
#[derive(Clone, Copy)]
pub struct Span {
    pub present: bool,
    pub start: usize,
    pub size: usize,
}

#[derive(Clone, Copy)]
pub struct YangImport {
    pub module_name: Span,
    pub prefix: Span,
    pub revision_date: Span,
}

#[derive(Clone, Copy)]
pub struct YangInclude {
    pub submodule_name: Span,
    pub revision_date: Span,
}

// A value that is present.
pub fn held(start: usize, size: usize) -> Span
    ensures { result ≡ held start size }
{
    Span {
        present: true,
        start,
        size,
    }
}

// No value.
pub fn missing() -> Span
    ensures { result ≡ missing }
{
    Span {
        present: false,
        start: 0,
        size: 0,
    }
}

// 1 for a value that is present, 0 for one that is missing.
pub fn mark(x: Span) -> u32
    ensures { result ≡ mark_of x }
{
    u32::from(x.present)
}

// Writes an import's row: name, prefix, whether there is a revision, and the revision.
pub fn put_import(table: &mut [u32], row: usize, import: YangImport)
    requires { (row < most_rows) × (most_rows * import_size ≤ length table.old) × FitsImport import }
    ensures { table.new ≡ sets table.old (row * import_size) (import_words import) }
{
    let at = row * IMPORT_SIZE;
    table[at..at + IMPORT_SIZE].copy_from_slice(&[
        import.module_name.start as u32,
        import.module_name.size as u32,
        import.prefix.start as u32,
        import.prefix.size as u32,
        mark(import.revision_date),
        import.revision_date.start as u32,
        import.revision_date.size as u32,
    ]);
}

// Writes an include's row: name, whether there is a revision, and the revision.
pub fn put_include(table: &mut [u32], row: usize, include: YangInclude)
    requires { (row < most_rows) × (most_rows * include_size ≤ length table.old) × FitsInclude include }
    ensures { table.new ≡ sets table.old (row * include_size) (include_words include) }
{
    let at = row * INCLUDE_SIZE;
    table[at..at + INCLUDE_SIZE].copy_from_slice(&[
        include.submodule_name.start as u32,
        include.submodule_name.size as u32,
        mark(include.revision_date),
        include.revision_date.start as u32,
        include.revision_date.size as u32,
    ]);
}

// The value whose start and length are the words at `at` and behind it.
#[tactic(auto, unfolding(crate::specs::Rows::span_at))]
fn get_span(table: &[u32], at: usize) -> Span
    requires { at + 2 ≤ length table.now }
    ensures { result ≡ span_at table.now at }
{
    held(table[at] as usize, table[at + 1] as usize)
}

// The same where a mark stands before them, 1 or 0: the value, or a missing one.
#[tactic(auto, unfolding(crate::specs::Rows::marked_at))]
fn get_marked(table: &[u32], at: usize) -> Span
    requires { at + 3 ≤ length table.now }
    ensures { result ≡ marked_at table.now at }
{
    if table[at] == 0 {
        missing()
    } else {
        get_span(table, at + 1)
    }
}

// An import's row read back.
#[tactic(auto, unfolding(crate::specs::Rows::import_at))]
pub fn get_import(table: &[u32], row: usize) -> YangImport
    requires { (row < most_rows) × (most_rows * import_size ≤ length table.now) }
    ensures { result ≡ import_at table.now (row * import_size) }
{
    let at = row * IMPORT_SIZE;
    YangImport {
        module_name: get_span(table, at),
        prefix: get_span(table, at + 2),
        revision_date: get_marked(table, at + 4),
    }
}

// An include's row read back.
#[tactic(auto, unfolding(crate::specs::Rows::include_at))]
pub fn get_include(table: &[u32], row: usize) -> YangInclude
    requires { (row < most_rows) × (most_rows * include_size ≤ length table.now) }
    ensures { result ≡ include_at table.now (row * include_size) }
{
    let at = row * INCLUDE_SIZE;
    YangInclude {
        submodule_name: get_span(table, at),
        revision_date: get_marked(table, at + 2),
    }
}

// The value's bytes, as far as the store has them.
pub fn value_in(store: &[u8], x: Span) -> &[u8]
    ensures { result.now ≡ value_in store.now x }
{
    let rest = &store[x.start.min(store.len())..];
    &rest[..x.size.min(rest.len())]
}

// Whether the store or a table is too short for a text, or something else that was lent is (`short`).
#[tactic(auto, unfolding(crate::specs::Short::is_too_short))]
pub fn too_short(short: bool, text: usize, store: usize, imports: usize, includes: usize) -> bool
    ensures { result ≡ is_too_short short text store imports includes }
{
    short
        || store < text
        || imports < MOST_ROWS * IMPORT_SIZE
        || includes < MOST_ROWS * INCLUDE_SIZE
}
