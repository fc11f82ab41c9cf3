// The nodes of an image in an index, a node by its name, and a name by its node.
#![tactic(auto)]

ghost use Rattle.std.specs.Prelude.{◌≡◌, false, [], ◌+◌, ◌≤◌, ◌<◌, length, get_or};
ghost use Rattle.library_form.specs.Form.{word_at};
ghost use Rattle.library_index.specs.Names.{names_in};
ghost use Rattle.library_items.specs.Items.{kind_of};
ghost use Rattle.library_items.specs.Table.{item_in, item_word, Itemized};
ghost use Rattle.graph.specs.Nodes.{mode_of};
ghost use Rattle.graph.specs.Numbers.{number_of};
ghost use Rattle.graph_nodes.specs.Adding.{node_table, is_entry, is_sub, so, add_name, add_item, names_held, Adds, AddsItem, Grew, Constructed, Stands};
ghost use Rattle.graph_nodes.specs.Adding.{nodes_number, Numbered};

use graph::{NoGraph, NodeIndex};
use library_items::Kind;
use text::Reason;

// How many words the index of nodes has, with room for one too many.
pub const NODE_TABLE: usize = 5123;

// Of the nodes that were made, if they were not too many: the number of the refusal, or 0.
#[tactic(auto, unfolding(crate::specs::Adding::nodes_number))]
pub fn nodes_number(made: Option<usize>) -> u32
    ensures { result ≡ nodes_number made }
{
    match made {
        Some(_) => Reason::NOTHING.0,
        None => NoGraph::TOO_MANY_NODES.0,
    }
}

// A module or an import-only module, by the number of its kind. Any other number gives false.
pub fn is_entry(kind: usize) -> bool
    ensures { result ≡ is_entry (kind_of kind) }
{
    kind == Kind::Module.number() || kind == Kind::ImportOnly.number()
}

// A submodule that becomes a node with its module; that of a later revision only if `complete`.
fn is_sub(complete: bool, kind: Kind) -> bool
    ensures { result ≡ is_sub complete kind }
{
    match kind {
        Kind::Submodule | Kind::FirstSub => true,
        Kind::LaterSub => complete,
        _ => false,
    }
}

// A name more, unless it is a node. `there`: whether submodules are added even then.
fn add_name(
    s: &[u8],
    tab: &mut [u32],
    n: usize,
    there: bool,
    place: usize,
    size: usize,
) -> Option<(usize, bool)>
    requires { Adds s.now tab.old n place size }
    ensures { Grew s.now tab.old
        (add_name (so (names_in s.now tab.old n) false) there (word_at s.now place size)) result
        tab.new }
{
    let None = library_index::add(s, tab, n, place, size) else {
        return Some((n, there));
    };
    if graph::MOST_NODES <= n {
        return None;
    }
    Some((n + 1, true))
}

// What the i-th item adds to the nodes. `complete`: the submodules of an entry that is already a node are added too, and those of later revisions.
fn add_item(
    s: &[u8],
    complete: bool,
    table: &[u32],
    i: usize,
    tab: &mut [u32],
    n: usize,
    adding: bool,
) -> Option<(usize, bool)>
    requires { AddsItem s.now table.now i tab.old n }
    ensures { Grew s.now tab.old
        (add_item complete (so (names_in s.now tab.old n) adding) (item_word s.now (item_in table.now i)))
        result tab.new }
{
    let x = library_items::get_item(table, i);
    if is_entry(x.kind.number()) {
        return add_name(s, tab, n, complete, x.place, x.size);
    }
    if adding && is_sub(complete, x.kind) {
        return add_name(s, tab, n, true, x.place, x.size);
    }
    Some((n, adding))
}

// The nodes of an image whose `count` items are in the table. `complete`: submodules of every listing of a module and of every revision are nodes.
pub fn construct_nodes(
    s: &[u8],
    complete: bool,
    table: &[u32],
    count: usize,
    tab: &mut [u32],
) -> Option<usize>
    requires { (node_table ≤ length tab.old) × Itemized s.now count table.now × (length s.now ≤ 65536) }
    ensures { Constructed (mode_of complete) s.now tab.old result tab.new }
{
    library_index::clear(tab);
    let mut n = 0;
    let mut adding = false;
    for i in 0..count {
        (n, adding) = add_item(s, complete, table, i, tab, n, adding)?;
    }
    Some(n)
}

// The node of the name at `place`, which is one.
pub fn node_at(s: &[u8], tab: &[u32], n: usize, place: usize, size: usize) -> NodeIndex
    requires { Stands s.now tab.now n place size }
    ensures { (result.0 ≡ number_of (names_held s.now tab.now n) (word_at s.now place size).text) × (result.0 < n) }
{
    let row = library_index::find(s, tab, n, &s[place..place + size]);
    graph::node_of(row.unwrap_or(0))
}

// The name of a node.
pub fn name_of<'a>(s: &'a [u8], tab: &[u32], n: usize, v: NodeIndex) -> &'a [u8]
    requires { Numbered s.now tab.now n v.0 }
    ensures { result.now ≡ get_or (names_held s.now tab.now n) v.0 [] }
{
    let i = graph::node_row(v);
    let place = library_index::place_of(tab, i);
    &s[place..place + library_index::length_of(tab, i)]
}
