// The dependencies of a text and their printed form, on a page that the caller lends.
#![tactic(auto)]

ghost use Rattle.std.specs.Prelude.{◌≡◌};
ghost use Rattle.yangparser.specs.Dependencies.{page_short};
ghost use Rattle.scan_page.specs.Page.{Prints};

use text::Refusal;
use yangparser::Rows;

// The page must be longer than the text by this: room for the headings, and for what stands around the values of 256 imports and 256 includes.
pub const PAGE_MORE: usize = 6944;

// What the scan read, and the page's length. No Result of both: `PageLeft` says what `yangparser` answered as it stands, and of a refusal that the length is 0.
#[derive(Clone, Copy)]
pub struct Page {
    pub parsed: Result<Rows, Refusal>,
    pub length: usize,
}

// Extract import and include statements from a text, and print them. What was lent is zero but for what is used, and all of it on a refusal. `whole`: the
// text must be whole.
pub fn print_yang_dependencies(
    whole: bool,
    s: &[u8],
    store: &mut [u8],
    imports: &mut [u32],
    includes: &mut [u32],
    page: &mut [u8],
) -> Page
    ensures { Prints whole s.now store.old imports.old includes.old page.old result
        store.new imports.new includes.new page.new }
{
    page.fill(0);
    let short = page_short(s.len(), page.len());
    let parsed = yangparser::scan_lent(whole, s, short, store, imports, includes);
    match parsed {
        Ok(rows) => {
            let length = scan_printed::print(
                store,
                imports,
                rows.imports,
                includes,
                rows.includes,
                page,
            );
            Page { parsed, length }
        }
        Err(_) => Page { parsed, length: 0 },
    }
}

// Whether the page is too short for a text.
#[tactic(auto, unfolding(yangparser::specs::Dependencies::page_short))]
fn page_short(text: usize, page: usize) -> bool
    ensures { result ≡ page_short text page }
{
    page < PAGE_MORE || page - PAGE_MORE < text
}
