// What every skip answers, and what is past it in either mode.
#![tactic(auto)]

ghost use Rattle.std.specs.Prelude.{◌≡◌};
ghost use Rattle.text_past.specs.Past.{broke_off, past_of};

use text::{Cursor, Refusal};

// How what was skipped ended. A token or a value: whole. A statement: by its semicolon, by its block, or before a closing brace that is not
// its own. Or the text's end ended it: a string never closed, or the statement went on.
#[derive(Clone, Copy)]
pub enum How {
    Whole,
    Semicolon,
    Block,
    Before,
    Text,
}

// Whether the text's end ended it.
#[tactic(auto, unfolding(crate::specs::Past::broke_off))]
pub fn broke_off(how: How) -> bool
    ensures { result ≡ broke_off how }
{
    matches!(how, How::Text)
}

// Past what was skipped, or a refusal. `whole`: what the text's end ended is refused (11), at that end.
#[tactic(auto, unfolding(crate::specs::Past::past_of))]
pub fn past(k: Result<(Cursor, How), Refusal>, whole: bool, end: usize) -> Result<Cursor, Refusal>
    ensures { result ≡ past_of whole end k }
{
    let (next, how) = k?;
    if whole && broke_off(how) {
        return Err(text::cut_short(end));
    }
    Ok(next)
}
