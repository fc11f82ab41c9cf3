// One text of a walk: it is read, its imports are linked and its includes saved; or it was read before, and what is remembered of it is the answer. That lies
// in `levels` (graph_memory); `marks` is the table of what each node may be (graph_marks).
#![tactic(auto)]

ghost use Rattle.std.specs.Prelude.{◌≡◌, ◌+◌, ◌<◌};
ghost use Rattle.graph.specs.Once.{unread};
ghost use Rattle.graph_edges.specs.Edges.{rows_in};
ghost use Rattle.graph_nodes.specs.Adding.{names_held};
ghost use Rattle.graph_memory.specs.Memory.{remembered};
ghost use Rattle.graph_link.specs.Link.{level_at};
ghost use Rattle.graph_visit.specs.Visit.{codes_here, HoldsTexts, Room, Kept, Called, visited, met_here};

use graph::{NoGraph, NodeIndex};
use graph_link::Stopped;
use graph_marks::MarkedNodes;
use graph_memory::Recalled;

// How many words a level has: one for each include of a text.
pub const LEVEL: usize = 256;

// What stays as it is throughout a walk: the image with its nodes, the bundle with the names of its texts.
#[derive(Clone, Copy)]
pub struct Ground<'a> {
    pub nodes: MarkedNodes<'a>,
    pub bundle: &'a [u8],
    pub btab: &'a [u32],
    pub texts: usize,
    pub ghost held: { HoldsTexts bundle.now btab.now texts },
}

// Where a walk is: the depth that is left, the refusal if there is no text, the node whose text is read, and how many edges there are so far.
#[derive(Clone, Copy)]
pub struct Spot {
    pub left: usize,
    pub absent: NoGraph,
    pub node: NodeIndex,
    pub count: usize,
}

// store, imports, includes and levels stay four parameters here and above: in a struct of `&mut`, tried, a field is not read while another one is lent, and in
// `meet` the levels that were looked at are no longer known to be those that are lent on.

// Reads the text of the spot's node, which was not read yet, links its imports and saves its includes. No other function reads a text, and from now on this one
// is marked as read: so each text is read once at the most.
pub fn visit(
    ground: Ground,
    store: &mut [u8],
    imports: &mut [u32],
    includes: &mut [u32],
    levels: &mut [u32],
    edges: &mut [u32],
    chains: &mut [u16],
    spot: Spot,
) -> Result<Option<(usize, usize)>, Stopped>
    requires { Room ground.bundle.now store.old imports.old includes.old levels.old edges.old chains.old spot.left spot.count
        × (spot.node.0 < ground.nodes.count)
        × (remembered levels.old spot.node.0 ≡ unread) }
    ensures { Called (visited (codes_here ground.entry.nodes.image.now ground.entry.bundle.now
        (names_held ground.entry.nodes.image.now ground.entry.nodes.ntab.now ground.entry.nodes.count))
        spot.absent.0 spot.node.0 (rows_in spot.count edges.old) levels.old)
        ground.entry.nodes.count spot.left spot.node.0 spot.count
        edges.old chains.old result levels.new edges.new chains.new
        × Kept (level_at (spot.left + 1)) store.old imports.old includes.old levels.old
        store.new imports.new includes.new levels.new
        × (remembered levels.new spot.node.0 ≡ unread → ⊥) }
{
    let v = spot.node;
    let base = graph_memory::MEMORY + spot.left * LEVEL;
    graph_memory::remember(levels, v, graph_memory::READING, 0);
    let name = graph_nodes::name_of(ground.nodes.image, ground.nodes.ntab, ground.nodes.count, v);
    let (m, k) = match graph_texts::read_text(
        ground.bundle,
        ground.btab,
        ground.texts,
        name,
        store,
        imports,
        includes,
    ) {
        Ok(Some(rows)) => rows,
        Ok(None) => return Err(graph_link::stop_with(spot.absent)),
        Err(scan) => return Err(Stopped {
            reason: NoGraph::SCAN_REFUSED,
            scan,
        }),
    };
    let total = graph_link::link_imports(
        ground.nodes,
        store,
        imports,
        m,
        edges,
        chains,
        v,
        spot.count,
    )?;
    graph_link::save_includes(ground.nodes, store, includes, k, levels, base);
    Ok(Some((k, total)))
}

// The text of the spot's node is met: if it was not read yet it is visited, and if it was, what is remembered of it is the answer.
pub fn meet(
    ground: Ground,
    store: &mut [u8],
    imports: &mut [u32],
    includes: &mut [u32],
    levels: &mut [u32],
    edges: &mut [u32],
    chains: &mut [u16],
    spot: Spot,
) -> Result<Option<(usize, usize)>, Stopped>
    requires { Room ground.bundle.now store.old imports.old includes.old levels.old edges.old chains.old spot.left spot.count
        × (spot.node.0 < ground.nodes.count) }
    ensures { Called (met_here (codes_here ground.entry.nodes.image.now ground.entry.bundle.now
        (names_held ground.entry.nodes.image.now ground.entry.nodes.ntab.now ground.entry.nodes.count))
        spot.left spot.absent.0 spot.node.0 (rows_in spot.count edges.old) levels.old)
        ground.entry.nodes.count spot.left spot.node.0 spot.count
        edges.old chains.old result levels.new edges.new chains.new
        × Kept (level_at (spot.left + 1)) store.old imports.old includes.old levels.old
        store.new imports.new includes.new levels.new }
{
    match graph_memory::recall(levels, spot.left, spot.node) {
        Recalled::TooDeep => Err(graph_link::stop_with(NoGraph::TOO_DEEP)),
        Recalled::Known => Ok(None),
        Recalled::Unread => visit(
            ground, store, imports, includes, levels, edges, chains, spot,
        ),
    }
}
