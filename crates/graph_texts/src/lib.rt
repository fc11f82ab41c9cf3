// The text under a name, found in the bundle and scanned over whatever the lent tables hold.
#![tactic(auto)]

ghost use Rattle.std.specs.Prelude.{length};
ghost use Rattle.library_bundle.specs.Reading.{Held, longest_text};
ghost use Rattle.graph_texts.specs.Texts.{scan_text, text_of, SeenAs, ScanRoom};

use text::Refusal;

// Scans a text, whole or not. It writes only what it uses, and clears nothing.
fn scan_text(
    s: &[u8],
    store: &mut [u8],
    imports: &mut [u32],
    includes: &mut [u32],
) -> Result<Option<(usize, usize)>, Refusal>
    requires { ScanRoom (length s.now) store.old imports.old includes.old }
    ensures { SeenAs (scan_text s.now) store.old imports.old includes.old result store.new
        imports.new includes.new }
{
    let rows = yangparser::scan_over(false, s, false, store, imports, includes)?;
    Ok(Some((rows.imports, rows.includes)))
}

// The text under `name`, scanned.
pub fn read_text(
    bundle: &[u8],
    tab: &[u32],
    count: usize,
    name: &[u8],
    store: &mut [u8],
    imports: &mut [u32],
    includes: &mut [u32],
) -> Result<Option<(usize, usize)>, Refusal>
    requires { Held bundle.now tab.now count × ScanRoom (longest_text bundle.now) store.old imports.old includes.old }
    ensures { SeenAs (text_of bundle.now name.now) store.old imports.old includes.old
        result store.new imports.new includes.new }
{
    let Some((from, size)) = library_bundle::find(bundle, tab, count, name) else {
        return Ok(None);
    };
    scan_text(
        library_bundle::text_at(bundle, from, size),
        store,
        imports,
        includes,
    )
}
