// The answers as words, as include/nuvaleta.h lays them out.
#![tactic(auto)]

ghost use Rattle.std.specs.Prelude.{◌≡◌, [], ◌∷◌, ◌++◌, ◌<◌, length};
ghost use Rattle.scan_rows.specs.Rows.{Each};
ghost use Rattle.scan_rows.specs.Span.{Fits};
ghost use Rattle.library_image.specs.Image.{image_broken};
ghost use Rattle.library_bundle.specs.Bundle.{bundle_broken};
ghost use Rattle.host_words.specs.Words.{told_words, ToldFits, record_words};

use scan_rows::Span;
use text::Refusal;

// The six words of a scan that read its text: rows of imports, rows of includes, bytes stored.
pub fn scan_read_words(imports: usize, includes: usize, used: usize) -> [u32; 6]
    requires { (imports < 4294967296) × (includes < 4294967296) × (used < 4294967296) }
    ensures { result ≡ 0 ∷ 0 ∷ 0 ∷ imports ∷ includes ∷ used ∷ [] }
{
    [0, 0, 0, imports as u32, includes as u32, used as u32]
}

// The six words of a scan that is refused.
pub fn scan_refused_words(r: Refusal) -> [u32; 6]
    requires { r.at < 4294967296 }
    ensures { result ≡ r.number ∷ r.keyword ∷ r.at ∷ 0 ∷ 0 ∷ 0 ∷ [] }
{
    [r.number(), r.keyword, r.at as u32, 0, 0, 0]
}

// The six words of a scan, and how long its page is.
pub fn page_words(w: [u32; 6], size: usize) -> [u32; 7]
    requires { (length w ≡ 6) × (size < 4294967296) }
    ensures { result ≡ w ++ (size ∷ []) }
{
    let [number, keyword, at, imports, includes, used] = w;
    [number, keyword, at, imports, includes, used, size as u32]
}

// The 18 words of a metadata record: three for each of name, namespace, prefix, first revision, parent and newest revision.
pub fn record_words(values: [Span; 6]) -> [u32; 18]
    requires { (length values ≡ 6) × Each Fits values }
    ensures { result ≡ record_words values }
{
    let mut words = [0; 18];
    for (i, x) in values.iter().enumerate() {
        words[i * 3] = scan_rows::mark(*x);
        words[i * 3 + 1] = x.start as u32;
        words[i * 3 + 2] = x.size as u32;
    }
    words
}

// The four words of a metadata scan: its refusal, or zeros, and bytes stored.
pub fn metadata_words(r: Refusal, used: usize) -> [u32; 4]
    requires { (r.at < 4294967296) × (used < 4294967296) }
    ensures { result ≡ r.number ∷ r.keyword ∷ r.at ∷ used ∷ [] }
{
    [r.number(), r.keyword, r.at as u32, used as u32]
}

// The five words of the answer to a name, with the number of the refusal of what is broken.
#[tactic(auto, unfolding(crate::specs::Words::told_words, crate::specs::Words::ToldFits))]
fn told_words(number: u32, told: Result<Option<(usize, usize)>, usize>) -> [u32; 5]
    requires { ToldFits told }
    ensures { result ≡ told_words number told }
{
    match told {
        Err(p) => [number, p as u32, 0, 0, 0],
        Ok(None) => [0, 0, 0, 0, 0],
        Ok(Some((a, b))) => [0, 0, 1, a as u32, b as u32],
    }
}

// Of a find in an image.
pub fn find_words(found: Result<Option<(usize, usize)>, usize>) -> [u32; 5]
    requires { ToldFits found }
    ensures { result ≡ told_words image_broken found }
{
    told_words(library_read::IMAGE_BROKEN, found)
}

// Of a look-up in a bundle.
pub fn text_words(found: Result<Option<(usize, usize)>, usize>) -> [u32; 5]
    requires { ToldFits found }
    ensures { result ≡ told_words bundle_broken found }
{
    told_words(library_bundle::BUNDLE_BROKEN, found)
}

// The eight words of a graph of n nodes and m edges.
pub fn graph_built_words(n: usize, m: usize) -> [u32; 8]
    requires { (n < 4294967296) × (m < 4294967296) }
    ensures { result ≡ 0 ∷ 0 ∷ 0 ∷ 0 ∷ 0 ∷ 0 ∷ n ∷ m ∷ [] }
{
    [0, 0, 0, 0, 0, 0, n as u32, m as u32]
}

// The eight words of a graph that is refused.
pub fn graph_refused_words(number: u32, entry: usize, scan: Refusal, place: usize) -> [u32; 8]
    requires { (entry < 4294967296) × (scan.at < 4294967296) × (place < 4294967296) }
    ensures { result ≡ number ∷ entry ∷ scan.number ∷ scan.keyword ∷ scan.at ∷ place ∷ 0 ∷ 0 ∷ [] }
{
    [
        number,
        entry as u32,
        scan.number(),
        scan.keyword,
        scan.at as u32,
        place as u32,
        0,
        0,
    ]
}

// The two words of an order, number and nodes written, or of the check of a list, number and place.
pub fn order_words(number: u32, other: u32) -> [u32; 2]
    ensures { result ≡ number ∷ other ∷ [] }
{
    [number, other]
}
