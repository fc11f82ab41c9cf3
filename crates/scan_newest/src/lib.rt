// The newest revision: the greatest value read, of equals the first.
#![tactic(auto)]

ghost use Rattle.std.specs.Prelude.{◌≡◌};
ghost use Rattle.scan_newest.specs.Newest.{comes_newer};

use scan_rows::Span;

// Whether the value x takes the place of `old`, the newest so far: there was none, or it is less than x.
pub fn comes_newer(store: &[u8], old: Span, x: Span) -> bool
    ensures { result ≡ comes_newer store.now old x }
{
    !old.present || scan_rows::value_in(store, old) < scan_rows::value_in(store, x)
}
