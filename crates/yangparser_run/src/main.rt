// Replays recorded answers for whole texts: dependencies and their printed form, and metadata. In the old mode they are the Rust's; in the whole-text mode,
// which the Rust does not have, and of texts with accents, those of a plain reading (host/vectors/src/scans.rs).
#![tactic(auto)]

use scan_rows::{Span, YangImport, YangInclude};
use std::io;
use std::rt::Files;
use text::Reason;
use yangparser::Rows;

// Whether a value is the recorded one at a place.
fn value_agrees(store: &[u8], x: Span, data: &[u8], at: usize) -> bool {
    if replay::missing(data, at) {
        !x.present
    } else {
        x.present && check::same(scan_rows::value_in(store, x), replay::field(data, at))
    }
}

// The place behind values that stand one after the other, or none where one of them differs.
fn behind_values(store: &[u8], values: &[Span], data: &[u8], at: usize) -> Option<usize> {
    let mut next = at;
    for x in values {
        if !value_agrees(store, *x, data, next) {
            return None;
        }
        next = replay::after(data, next);
    }
    Some(next)
}

// The same of a row of a table.
fn behind_row(
    store: &[u8],
    table: &[u32],
    row: usize,
    imports: bool,
    data: &[u8],
    at: usize,
) -> Option<usize> {
    let size = if imports {
        scan_rows::IMPORT_SIZE
    } else {
        scan_rows::INCLUDE_SIZE
    };
    if table.len() < scan_rows::MOST_ROWS * size || scan_rows::MOST_ROWS <= row {
        return None;
    }
    if imports {
        let YangImport {
            module_name,
            prefix,
            revision_date,
        } = scan_rows::get_import(table, row);
        behind_values(store, &[module_name, prefix, revision_date], data, at)
    } else {
        let YangInclude {
            submodule_name,
            revision_date,
        } = scan_rows::get_include(table, row);
        behind_values(store, &[submodule_name, revision_date], data, at)
    }
}

// The same of all rows of a table.
fn behind_rows(
    store: &[u8],
    table: &[u32],
    count: usize,
    imports: bool,
    data: &[u8],
    at: usize,
) -> Option<usize> {
    let mut next = at;
    for row in 0..count {
        next = behind_row(store, table, row, imports, data, next)?;
    }
    Some(next)
}

// What was read, against the record from behind its answer on: the place behind the values.
fn page_place(
    store: &[u8],
    imports: &[u32],
    includes: &[u32],
    rows: Rows,
    data: &[u8],
    at: usize,
) -> Option<usize> {
    let includes_at = behind_rows(store, imports, rows.imports, true, data, at)?;
    behind_rows(store, includes, rows.includes, false, data, includes_at)
}

// The dependencies of a text and their printed form; where the answer's number is 0, the values and the page stand behind it. A text that is longer than the
// store would be refused, and so be told as different.
fn dependencies_agree(whole: bool, s: &[u8], answer: &[u8], data: &[u8], values_at: usize) -> bool {
    let mut store = [0u8; 4096];
    let mut imports = [0u32; scan_rows::MOST_ROWS * scan_rows::IMPORT_SIZE];
    let mut includes = [0u32; scan_rows::MOST_ROWS * scan_rows::INCLUDE_SIZE];
    let mut page = [0u8; 11040];
    let printed = scan_page::print_yang_dependencies(
        whole,
        s,
        &mut store,
        &mut imports,
        &mut includes,
        &mut page,
    );
    match printed.parsed {
        Ok(rows) => {
            let page_at = page_place(&store, &imports, &includes, rows, data, values_at);
            let shown = text_lent::first(&page, printed.length);
            replay::word(answer, 0) == 0
                && page_at.is_some_and(|place| check::same(shown, replay::field(data, place)))
        }
        Err(r) => replay::refusal_agrees(answer, 0, r),
    }
}

// The metadata of a text; where the answer's number is 0, the values stand behind it: the first five, since the Rust has no newest revision.
fn metadata_agrees(whole: bool, s: &[u8], answer: &[u8], data: &[u8], values_at: usize) -> bool {
    let mut store = [0u8; 4096];
    let read = scan_metadata::extract_yang_metadata(whole, s, &mut store);
    if read.answer.reason != Reason::NOTHING {
        return replay::refusal_agrees(answer, 0, read.answer);
    }
    replay::word(answer, 0) == 0
        && behind_values(
            &store,
            &read.values[..scan_metadata::NEWEST_VALUE],
            data,
            values_at,
        )
        .is_some()
}

// What the records of a file tell of.
#[derive(Clone, Copy)]
enum Kind {
    Dependencies,
    Metadata,
}

// A record: text, answer, and what stands behind it.
fn agrees(whole: bool, kind: Kind, data: &[u8], at: usize) -> bool {
    let answer_at = replay::after(data, at);
    let values_at = replay::after(data, answer_at);
    let s = replay::field(data, at);
    let answer = replay::field(data, answer_at);
    match kind {
        Kind::Dependencies => dependencies_agree(whole, s, answer, data, values_at),
        Kind::Metadata => metadata_agrees(whole, s, answer, data, values_at),
    }
}

// How many fields stand behind a good answer: three values for each import, two for each include, and the page; or five values.
fn fields_behind(kind: Kind, answer: &[u8]) -> u64 {
    match kind {
        Kind::Dependencies => {
            let imports = replay::word(answer, 12) as u64;
            let includes = replay::word(answer, 16) as u64;
            imports * 3 + includes * 2 + 1
        }
        Kind::Metadata => 5,
    }
}

fn behind(kind: Kind, data: &[u8], at: usize) -> usize {
    let answer_at = replay::after(data, at);
    let answer = replay::field(data, answer_at);
    let values_at = replay::after(data, answer_at);
    if replay::word(answer, 0) == 0 {
        replay::after_fields(data, values_at, fields_behind(kind, answer))
    } else {
        values_at
    }
}

fn replay_file<R: Print + Files>(rt: &R, whole: bool, kind: Kind, name: &[u8]) -> io::Result<()> {
    let run = replay::replay_file(rt, name, |data, at| {
        (agrees(whole, kind, data, at), behind(kind, data, at))
    })?;
    replay::say_file(rt, name, run)
}

fn main(rt: HostRuntime) -> io::Result<()> {
    replay_file(&rt, false, Kind::Dependencies, b"dependencies.vec")?;
    replay_file(&rt, false, Kind::Metadata, b"metadata.vec")?;
    replay_file(&rt, true, Kind::Dependencies, b"dependencies-whole.vec")?;
    replay_file(&rt, true, Kind::Metadata, b"metadata-whole.vec")?;
    replay_file(&rt, false, Kind::Dependencies, b"dependencies-accents.vec")?;
    replay_file(&rt, false, Kind::Metadata, b"metadata-accents.vec")?;
    replay_file(
        &rt,
        true,
        Kind::Dependencies,
        b"dependencies-whole-accents.vec",
    )?;
    replay_file(&rt, true, Kind::Metadata, b"metadata-whole-accents.vec")
}
