// The entries of an image, one after another: the text of each is walked, then what a module lists is linked.
#![tactic(auto)]

ghost use Rattle.std.specs.Prelude.{◌≡◌, cond, ◌+◌, ◌<◌};
ghost use Rattle.library_items.specs.Table.{most_items, item_word, Itemized};
ghost use Rattle.graph.specs.Limits.{most_edges};
ghost use Rattle.graph.specs.Once.{nothing_read, Between};
ghost use Rattle.graph_edges.specs.Edges.{rows_in};
ghost use Rattle.graph_nodes.specs.Adding.{is_entry, names_held};
ghost use Rattle.graph_link.specs.Link.{Drew, all_levels};
ghost use Rattle.graph_memory.specs.Memory.{remembered};
ghost use Rattle.graph_visit.specs.Visit.{codes_here, Room, Kept};
ghost use Rattle.graph_entries.specs.Entries.{is_listed, item_walk, next_node, Next, Placed, WalkBetween, Walks};

use graph::{NoGraph, NodeIndex};
use graph_link::Stopped;
use graph_visit::{Ground, Spot};
use library_items::{Item, Kind};

// The depth left to an entry's own text.
const DEEPEST: usize = 8;

// An augmenting module or a deviation.
fn is_listed(kind: Kind) -> bool
    ensures { result ≡ is_listed kind }
{
    matches!(kind, Kind::Augmenting | Kind::Deviation)
}

// Entries are numbered from 1: which one an item belongs to.
fn next_entry(kind: Kind, entry: usize) -> usize
    requires { entry < most_items }
    ensures { result ≡ cond (is_entry kind) (entry + 1) entry }
{
    if graph_nodes::is_entry(kind.number()) {
        entry + 1
    } else {
        entry
    }
}

// The node of the entry that an item belongs to.
fn next_node(image: &[u8], ntab: &[u32], n: usize, x: Item, v: NodeIndex) -> NodeIndex
    requires { Next image.now ntab.now n x v.0 }
    ensures { (result.0 ≡ next_node (names_held image.now ntab.now n) (item_word image.now x) v.0) × (result.0 < n) }
{
    if graph_nodes::is_entry(x.kind.number()) {
        graph_nodes::node_at(image, ntab, n, x.place, x.size)
    } else {
        v
    }
}

// What one item asks. v: the node of its entry.
fn walk_item(
    ground: Ground,
    x: Item,
    store: &mut [u8],
    imports: &mut [u32],
    includes: &mut [u32],
    levels: &mut [u32],
    edges: &mut [u32],
    chains: &mut [u16],
    v: NodeIndex,
    count: usize,
) -> Result<usize, Stopped>
    requires { Room ground.bundle.now store.old imports.old includes.old levels.old edges.old chains.old 8 count
        × Between (codes_here ground.nodes.image.now ground.bundle.now
        (names_held ground.nodes.image.now ground.nodes.ntab.now ground.nodes.count)) most_edges (remembered levels.old)
        (rows_in count edges.old)
        × Placed ground.nodes.image.now (names_held ground.nodes.image.now ground.nodes.ntab.now ground.nodes.count)
        ground.nodes.count x v.0 }
    ensures { Drew (item_walk ground.entry.nodes.image.now ground.entry.bundle.now
        (names_held ground.entry.nodes.image.now ground.entry.nodes.ntab.now ground.entry.nodes.count)
        (item_word ground.entry.nodes.image.now x) v.0 (rows_in count edges.old))
        edges.old chains.old result edges.new chains.new
        × Kept all_levels store.old imports.old includes.old levels.old
        store.new imports.new includes.new levels.new
        × WalkBetween (codes_here ground.entry.nodes.image.now ground.entry.bundle.now
        (names_held ground.entry.nodes.image.now ground.entry.nodes.ntab.now ground.entry.nodes.count))
        result levels.new edges.new }
{
    if graph_nodes::is_entry(x.kind.number()) {
        let spot = Spot {
            left: DEEPEST,
            absent: NoGraph::NO_ENTRY_TEXT,
            node: v,
            count,
        };
        return graph_walk::walk(
            ground, store, imports, includes, levels, edges, chains, spot,
        );
    }
    if is_listed(x.kind) {
        return graph_link::link_known(
            ground.nodes,
            &ground.nodes.image[x.place..x.place + x.size],
            true,
            edges,
            chains,
            v,
            count,
        );
    }
    Ok(count)
}

// All entries, through the items.
pub fn walk_items(
    ground: Ground,
    table: &[u32],
    items: usize,
    store: &mut [u8],
    imports: &mut [u32],
    includes: &mut [u32],
    levels: &mut [u32],
    edges: &mut [u32],
    chains: &mut [u16],
) -> Result<usize, (usize, Stopped)>
    requires { Room ground.bundle.now store.old imports.old includes.old levels.old edges.old chains.old 8 0
        × (remembered levels.old ≡ nothing_read)
        × Itemized ground.nodes.image.now items table.now }
    ensures { Walks ground.entry.nodes.image.now ground.entry.bundle.now
        (names_held ground.entry.nodes.image.now ground.entry.nodes.ntab.now ground.entry.nodes.count)
        store.old imports.old includes.old levels.old edges.old chains.old result
        store.new imports.new includes.new levels.new edges.new chains.new }
{
    let mut total = 0;
    let mut entry = 0;
    let mut v = graph::node_of(0);
    for i in 0..items {
        let x = library_items::get_item(table, i);
        entry = next_entry(x.kind, entry);
        v = next_node(
            ground.nodes.image,
            ground.nodes.ntab,
            ground.nodes.count,
            x,
            v,
        );
        total = walk_item(
            ground, x, store, imports, includes, levels, edges, chains, v, total,
        )
        .map_err(|why| (entry, why))?;
    }
    Ok(total)
}
