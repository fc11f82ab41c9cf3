// Import and include statements: their values in the store that the caller lends, and what they say as spans of it.
#![tactic(auto)]

ghost use Rattle.std.specs.Prelude.{◌≡◌};
ghost use Rattle.std.proofs.lemmas.List.Edits.{sets};
ghost use Rattle.text.specs.Words.{include_keyword};
ghost use Rattle.scan_block.specs.Block.{block_at};
ghost use Rattle.scan_rows.specs.Room.{Room};
ghost use Rattle.scan_imports.specs.Statement.{of_body, import_at, include_of, include_at};

use scan_block::Body;
use scan_rows::{Span, YangImport, YangInclude};
use text::{ByteClasses, Cursor, Reason, Refusal};

// Reads what follows the keyword import: the place behind it, the store's next place, and what it says. A struct of these three would be read once, by
// yangparser, so it would be no plainer than the tuple.
pub fn parse_import(
    here: Cursor,
    classes: &ByteClasses,
    whole: bool,
    s: &[u8],
    store: &mut [u8],
    used: usize,
) -> Result<(Cursor, usize, YangImport), Refusal>
    requires { Room s.now here.at store.old used }
    ensures { (result ≡ (import_at whole s.now here.at used).answer)
        × (store.new ≡ sets store.old used (import_at whole s.now here.at used).bytes) }
{
    let (next, n) = text_value::read_argument(
        here,
        classes,
        whole,
        s,
        store,
        used,
        text::IMPORT,
        text::OPEN_BRACE,
    )?;
    let module_name = scan_rows::held(used, n - used);
    let body = scan_block::parse_block(next, classes, whole, s, store, n, text::IMPORT)?;
    import_of(module_name, body)
}

// The import of a name and its block. A prefix is required.
#[tactic(auto, unfolding(crate::specs::Statement::of_body))]
fn import_of(name: Span, body: Body) -> Result<(Cursor, usize, YangImport), Refusal>
    ensures { result ≡ of_body name body }
{
    if body.prefix.present {
        let import = YangImport {
            module_name: name,
            prefix: body.prefix,
            revision_date: body.revision,
        };
        Ok((Cursor { at: body.at }, body.used, import))
    } else {
        Err(Refusal {
            reason: Reason::NO_PREFIX,
            keyword: text::IMPORT,
            at: body.at,
        })
    }
}

// Reads what follows the keyword include.
pub fn parse_include(
    here: Cursor,
    classes: &ByteClasses,
    whole: bool,
    s: &[u8],
    store: &mut [u8],
    used: usize,
) -> Result<(Cursor, usize, YangInclude), Refusal>
    requires { Room s.now here.at store.old used }
    ensures { (result ≡ (include_at whole s.now here.at used).answer)
        × (store.new ≡ sets store.old used (include_at whole s.now here.at used).bytes) }
{
    let (next, n) = text_value::read_value(here, classes, whole, s, store, used, text::INCLUDE)?;
    let submodule_name = scan_rows::held(used, n - used);
    let end = next.skip_whitespace_and_comments(classes, s);
    if text::peek_char(s, end.at) == text::OPEN_BRACE {
        let inner = Cursor { at: end.at + 1 };
        return include_block(submodule_name, inner, classes, whole, s, store, n);
    }
    let after = end.expect_here(s, text::SEMICOLON, text::INCLUDE)?;
    let include = YangInclude {
        submodule_name,
        revision_date: scan_rows::missing(),
    };
    Ok((after, n, include))
}

// Reads the block of an include with this name.
#[tactic(auto, unfolding(crate::specs::Statement::include_of))]
fn include_block(
    name: Span,
    here: Cursor,
    classes: &ByteClasses,
    whole: bool,
    s: &[u8],
    store: &mut [u8],
    used: usize,
) -> Result<(Cursor, usize, YangInclude), Refusal>
    requires { Room s.now here.at store.old used }
    ensures { (result ≡ include_of name (block_at whole s.now here.at used include_keyword).answer)
        × (store.new ≡ sets store.old used (block_at whole s.now here.at used include_keyword).bytes) }
{
    let body = scan_block::parse_block(here, classes, whole, s, store, used, text::INCLUDE)?;
    let include = YangInclude {
        submodule_name: name,
        revision_date: body.revision,
    };
    Ok((Cursor { at: body.at }, body.used, include))
}
