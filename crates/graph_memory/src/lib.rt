// What the walk remembers of each text, in the words at the start of `levels`: two for each node, first 0 not read, 1 being walked, 2 walked, then how many
// includes lie below it.
#![tactic(auto)]

ghost use Rattle.std.specs.Prelude.{◌≡◌, ◌≤◌, ◌<◌, length};
ghost use Rattle.graph.specs.Limits.{most_nodes};
ghost use Rattle.graph.specs.Graph.{deepest};
ghost use Rattle.graph.specs.Once.{raised};
ghost use Rattle.graph_memory.specs.Memory.{memory_words, mark_of, height_in, remembered, recalled, Remembers};

use graph::NodeIndex;

// How many words the memory has.
pub const MEMORY: usize = 2048;

// A text that is being walked, and one that was: words of the lent levels, since there is no heap, and so numbers and no enum.
pub const READING: u32 = 1;

pub const WALKED: u32 = 2;

// A text that is met: not read yet; walked, with no more includes below it than there is depth left; or too deep, since it has more of them, or is being walked
// and so lies on a circle of includes.
#[derive(Clone, Copy)]
pub enum Recalled {
    Unread,
    Known,
    TooDeep,
}

// What is remembered of the text of a node that is met with so much depth left.
pub fn recall(levels: &[u32], left: usize, v: NodeIndex) -> Recalled
    requires { (memory_words ≤ length levels.now) × (v.0 < most_nodes) }
    ensures { result ≡ recalled left (remembered levels.now v.0) }
{
    let at = graph::pair_row(v);
    let state = levels[at];
    if state == 0 {
        Recalled::Unread
    } else if state == READING || left < text_lent::of_word(levels[at + 1]) {
        Recalled::TooDeep
    } else {
        Recalled::Known
    }
}

// Puts down what is known of the text of a node.
pub fn remember(levels: &mut [u32], v: NodeIndex, state: u32, below: usize)
    requires { (memory_words ≤ length levels.old) × (v.0 < most_nodes) × (below ≤ deepest) }
    ensures { Remembers levels.old v.0 (mark_of state below) levels.new }
{
    let at = graph::pair_row(v);
    levels[at] = state;
    levels[at + 1] = below as u32;
}

// The longest chain of includes below a text, where `most` is the longest by its includes before u, and u's text was walked.
pub fn raise(levels: &[u32], u: NodeIndex, most: usize) -> usize
    requires { (memory_words ≤ length levels.now) × (u.0 < most_nodes) × (height_in levels.now u.0 ≤ deepest) }
    ensures { result ≡ raised most (height_in levels.now u.0) }
{
    let at = graph::pair_row(u);
    most.max(text_lent::of_word(levels[at + 1]) + 1)
}
