// What each node may be: one that is imported or listed, one that is included; and the look-up of a name among the nodes.
#![tactic(auto)]

ghost use Rattle.std.specs.Prelude.{◌≡◌, ◌+◌, ◌≤◌, ◌<◌, length, replicate};
ghost use Rattle.library_index.specs.Names.{names_in};
ghost use Rattle.library_items.specs.Items.{items_at};
ghost use Rattle.library_image.specs.Image.{image_at};
ghost use Rattle.library_items.specs.Table.{items_in, Reads, Itemized};
ghost use Rattle.graph_nodes.specs.Adding.{names_held, Holding};
ghost use Rattle.graph_marks.specs.Marks.{mark_table, is_submodule, Marked, Marking, LooksUp, known_at, listed_at, included_at, resolved_code, included_code, ResolvedNode};
ghost use Rattle.graph_marks.specs.Marks.{IncludedNode};

use graph::NodeIndex;
use library_items::Kind;

// How many words the marks have: two a node.
pub const MARK_TABLE: usize = 2048;

// A submodule of a module.
fn is_submodule(kind: Kind) -> bool
    ensures { result ≡ is_submodule kind }
{
    matches!(kind, Kind::Submodule)
}

// The mark that the i-th item gives a node, if its name is one.
fn mark_item(s: &[u8], table: &[u32], i: usize, tab: &[u32], n: usize, marks: &mut [u32])
    requires { Marking s.now table.now i tab.now n marks.old }
    ensures { Marked s.now tab.now n (items_in s.now table.now (i + 1)) marks.new
        × (length marks.new ≡ length marks.old) }
{
    let x = library_items::get_item(table, i);
    let Some(k) = library_index::find(s, tab, n, &s[x.place..x.place + x.size]) else {
        return;
    };
    let at = graph::pair_row(graph::node_of(k));
    if graph_nodes::is_entry(x.kind.number()) {
        marks[at] = 1;
    } else if is_submodule(x.kind) {
        marks[at + 1] = 1;
    }
}

// What each node may be, into a table that is zero.
pub fn mark_nodes(s: &[u8], table: &[u32], count: usize, tab: &[u32], n: usize, marks: &mut [u32])
    requires { Itemized s.now count table.now
        × Holding s.now tab.now n (names_in s.now tab.now n)
        × (mark_table ≤ length marks.old)
        × (marks.old ≡ replicate (length marks.old) 0) }
    ensures { Marked s.now tab.now n (items_at s.now) marks.new
        × (length marks.new ≡ length marks.old) }
{
    for i in 0..count {
        mark_item(s, table, i, tab, n, marks);
    }
}

// A submodule of some module by its name: there is none (27); it is no node (28); its node. Each is a word of its own in the levels, so a Result is no plainer.
#[derive(Clone, Copy)]
pub enum Included {
    NotFound,
    NotNode,
    Node(NodeIndex),
}

// An image with its nodes, in an index, and their marks: all that a look-up of a node asks.
#[derive(Clone, Copy)]
pub struct MarkedNodes<'a> {
    pub image: &'a [u8],
    pub ntab: &'a [u32],
    pub count: usize,
    pub marks: &'a [u32],
    pub ghost found: { LooksUp image.now ntab.now count marks.now },
}

// The module or import-only module of this name.
pub fn find_known(nodes: MarkedNodes, name: &[u8]) -> Option<NodeIndex>
    ensures { (resolved_code result
        ≡ known_at nodes.entry.image.now (names_held nodes.entry.image.now nodes.entry.ntab.now nodes.entry.count) name.now)
        × ResolvedNode result nodes.entry.count }
{
    let u = graph::node_of(library_index::find(nodes.image, nodes.ntab, nodes.count, name)?);
    if nodes.marks[graph::pair_row(u)] == 0 {
        None
    } else {
        Some(u)
    }
}

// The submodule of this name. One that is no node is looked for in the image, which ends the graph in any case.
pub fn find_included(nodes: MarkedNodes, name: &[u8]) -> Included
    ensures { (included_code result
        ≡ included_at nodes.entry.image.now (names_held nodes.entry.image.now nodes.entry.ntab.now nodes.entry.count) name.now)
        × IncludedNode result nodes.entry.count }
{
    let Some(k) = library_index::find(nodes.image, nodes.ntab, nodes.count, name) else {
        return no_node(nodes.image, name);
    };
    let u = graph::node_of(k);
    if nodes.marks[graph::pair_row(u) + 1] == 0 {
        Included::NotFound
    } else {
        Included::Node(u)
    }
}

// A name that is no node.
fn no_node(s: &[u8], name: &[u8]) -> Included
    requires { Reads (image_at s.now) }
    ensures { included_code result ≡ listed_at s.now name.now }
{
    if let Ok(Some(_)) = library_find::find_submodule(s, name) {
        Included::NotNode
    } else {
        Included::NotFound
    }
}
