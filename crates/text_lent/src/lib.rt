// Lent slices: the part of one that is in use, and a word of one as a number. Whether a text can be scanned with what was lent.
#![tactic(auto)]

ghost use Rattle.std.specs.Prelude.{◌≡◌, take};
ghost use Rattle.text_lent.specs.Lent.{lent_at};

use text::{Reason, Refusal};

// The longest text.
pub const MOST_TEXT: usize = 1048576;

// The first n of them, or all where there are fewer.
pub fn first<T>(s: &[T], n: usize) -> &[T]
    ensures { result.now ≡ take n s.now }
{
    &s[..n.min(s.len())]
}

// A word as a number.
pub fn of_word(x: u32) -> usize
    ensures { result ≡ x }
{
    x as usize
}

// 1, then 2, then 12. short: whether something lent is too short.
#[tactic(auto, unfolding(crate::specs::Lent::lent_at))]
pub fn check_lent(s: &[u8], short: bool) -> Result<(), Refusal>
    ensures { result ≡ lent_at s.now short }
{
    if MOST_TEXT < s.len() {
        return Err(Refusal {
            reason: Reason::TEXT_TOO_LONG,
            keyword: 0,
            at: 0,
        });
    }
    if short {
        return Err(Refusal {
            reason: Reason::LENT_TOO_SHORT,
            keyword: 0,
            at: 0,
        });
    }
    let at = text_utf8::utf8_end(s);
    if at < s.len() {
        return Err(Refusal {
            reason: Reason::NOT_UTF8,
            keyword: 0,
            at,
        });
    }
    Ok(())
}
