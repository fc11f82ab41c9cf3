// The printed form of YangDependencies, on a page that the caller lends. Each function writes at a place and answers the place behind what it wrote.
#![tactic(auto)]

ghost use Rattle.std.specs.Prelude.{◌≡◌, ◌++◌, ◌+◌, ◌*◌, ◌≤◌, ◌<◌, length};
ghost use Rattle.std.proofs.lemmas.List.Edits.{sets};
ghost use Rattle.scan_line.specs.Line.{newline};
ghost use Rattle.scan_line.specs.Wrote.{Wrote};
ghost use Rattle.scan_rows.specs.Span.{value_in};
ghost use Rattle.scan_rows.specs.Rows.{import_size, include_size, most_rows, imports_in, includes_in};
ghost use Rattle.scan_printed.specs.Printed.{heading, revision, import_line, include_line, import_lines, include_lines, printed_rows};

use scan_rows::{Span, YangImport, YangInclude};

// A label, and a value behind it.
fn put_value(page: &mut [u8], at: usize, label: &[u8], store: &[u8], x: Span) -> usize
    requires { at + length (label.now ++ value_in store.now x) ≤ length page.old }
    ensures { Wrote page.old at (label.now ++ value_in store.now x) page.new result }
{
    let n = scan_line::put(page, at, label);
    scan_line::put(page, n, scan_rows::value_in(store, x))
}

// A revision, if present, and the line break.
fn put_line_end(page: &mut [u8], at: usize, store: &[u8], x: Span) -> usize
    requires { at + length (revision store.now x ++ newline) ≤ length page.old }
    ensures { Wrote page.old at (revision store.now x ++ newline) page.new result }
{
    if x.present {
        let n = put_value(page, at, b" @ ", store, x);
        scan_line::put(page, n, b"\n")
    } else {
        scan_line::put(page, at, b"\n")
    }
}

// An import's line.
fn put_import_line(page: &mut [u8], at: usize, store: &[u8], i: YangImport) -> usize
    requires { at + length (import_line store.now i) ≤ length page.old }
    ensures { Wrote page.old at (import_line store.now i) page.new result }
{
    let name = put_value(page, at, b"  - ", store, i.module_name);
    let prefix = put_value(page, name, b" (prefix: ", store, i.prefix);
    let close = scan_line::put(page, prefix, b")");
    put_line_end(page, close, store, i.revision_date)
}

// An include's line.
fn put_include_line(page: &mut [u8], at: usize, store: &[u8], i: YangInclude) -> usize
    requires { at + length (include_line store.now i) ≤ length page.old }
    ensures { Wrote page.old at (include_line store.now i) page.new result }
{
    let name = put_value(page, at, b"  - ", store, i.submodule_name);
    put_line_end(page, name, store, i.revision_date)
}

// A heading with its count.
fn put_heading(page: &mut [u8], at: usize, word: &[u8], n: usize) -> usize
    requires { at + length (heading word.now n) ≤ length page.old }
    ensures { Wrote page.old at (heading word.now n) page.new result }
{
    let close = scan_line::put_number(page, at, word, n);
    scan_line::put(page, close, b"):\n")
}

// A line for each row of imports. One function for both kinds of rows would need a trait with ghost members for size, row and line: no plainer than two loops.
fn put_import_lines(page: &mut [u8], at: usize, store: &[u8], table: &[u32], count: usize) -> usize
    requires { (count ≤ most_rows)
        × (most_rows * import_size ≤ length table.now)
        × (at + length (import_lines store.now (imports_in table.now count)) ≤ length page.old) }
    ensures { Wrote page.old at (import_lines store.now (imports_in table.now count)) page.new result }
{
    let mut n = at;
    for row in 0..count {
        n = put_import_line(page, n, store, scan_rows::get_import(table, row));
    }
    n
}

// A line for each row of includes.
fn put_include_lines(page: &mut [u8], at: usize, store: &[u8], table: &[u32], count: usize) -> usize
    requires { (count ≤ most_rows)
        × (most_rows * include_size ≤ length table.now)
        × (at + length (include_lines store.now (includes_in table.now count)) ≤ length page.old) }
    ensures { Wrote page.old at (include_lines store.now (includes_in table.now count)) page.new result }
{
    let mut n = at;
    for row in 0..count {
        n = put_include_line(page, n, store, scan_rows::get_include(table, row));
    }
    n
}

// The whole form of m imports and n includes, from the first byte of the page on, and its length.
pub fn print(
    store: &[u8],
    imports: &[u32],
    m: usize,
    includes: &[u32],
    n: usize,
    page: &mut [u8],
) -> usize
    requires { (m ≤ most_rows)
        × (most_rows * import_size ≤ length imports.now)
        × (n ≤ most_rows)
        × (most_rows * include_size ≤ length includes.now)
        × (length (printed_rows store.now imports.now m includes.now n) ≤ length page.old) }
    ensures { (result ≡ length (printed_rows store.now imports.now m includes.now n))
        ×
        (page.new ≡ sets page.old 0 (printed_rows store.now imports.now m includes.now n)) }
{
    let first = put_heading(page, 0, b"Imports (", m);
    let blank = put_import_lines(page, first, store, imports, m);
    let second = scan_line::put(page, blank, b"\n");
    let rest = put_heading(page, second, b"Includes (", n);
    put_include_lines(page, rest, store, includes, n)
}
