// The walk of a text: its imports are linked, then each include is, and the included text is walked before the next. A text that was walked is remembered, with
// the includes below it, and not walked again.
#![tactic(auto)]

ghost use Rattle.std.specs.Prelude.{◌+◌, ◌<◌};
ghost use Rattle.graph.specs.Limits.{most_edges};
ghost use Rattle.graph.specs.Once.{walk_once};
ghost use Rattle.graph_edges.specs.Edges.{rows_in};
ghost use Rattle.graph_nodes.specs.Adding.{names_held};
ghost use Rattle.graph_memory.specs.Memory.{remembered};
ghost use Rattle.graph_link.specs.Link.{level_at};
ghost use Rattle.graph_visit.specs.Visit.{codes_here, Room, Kept};
ghost use Rattle.graph_walk.specs.Walk.{Through};

use graph::NoGraph;
use graph_link::Stopped;
use graph_visit::{Ground, Spot};

// Walks the text of the spot's node with the depth left: an entry's has 8, and no text is read below 0.
pub fn walk(
    ground: Ground,
    store: &mut [u8],
    imports: &mut [u32],
    includes: &mut [u32],
    levels: &mut [u32],
    edges: &mut [u32],
    chains: &mut [u16],
    spot: Spot,
) -> Result<usize, Stopped>
    requires { Room ground.bundle.now store.old imports.old includes.old levels.old edges.old chains.old spot.left spot.count
        × (spot.node.0 < ground.nodes.count) }
    ensures { Through (walk_once
        (codes_here ground.entry.nodes.image.now ground.entry.bundle.now
        (names_held ground.entry.nodes.image.now ground.entry.nodes.ntab.now ground.entry.nodes.count))
        most_edges spot.left spot.absent.0 spot.node.0 (rows_in spot.count edges.old) (remembered levels.old))
        spot.left spot.node.0 edges.old chains.old result levels.new edges.new chains.new
        × Kept (level_at (spot.left + 1)) store.old imports.old includes.old levels.old
        store.new imports.new includes.new levels.new }
{
    let left = spot.left;
    let v = spot.node;
    let base = graph_memory::MEMORY + left * graph_visit::LEVEL;
    let met = graph_visit::meet(
        ground, store, imports, includes, levels, edges, chains, spot,
    )?;
    let Some((k, linked)) = met else {
        return Ok(spot.count);
    };
    let mut total = linked;
    let mut most = 0;
    for i in 0..k {
        let (u, m) = graph_link::step(levels[base + i], left, edges, chains, v, total)?;
        let child = Spot {
            left: left - 1,
            absent: NoGraph::NO_INCLUDED_TEXT,
            node: u,
            count: m,
        };
        total = walk(
            ground, store, imports, includes, levels, edges, chains, child,
        )?;
        most = graph_memory::raise(levels, u, most);
    }
    graph_memory::remember(levels, v, graph_memory::WALKED, most);
    Ok(total)
}
