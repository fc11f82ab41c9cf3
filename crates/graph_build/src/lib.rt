// The graph of an image and a bundle that were read, with enough lent: the nodes (crate graph_nodes), the edges between them (crate graph_draw), then the node
// table. What comes before that, the readings and what is too short, is crate yanglib.
#![tactic(auto)]

ghost use Rattle.graph.specs.Nodes.{mode_of};
ghost use Rattle.std.specs.Prelude.{◌≡◌};
ghost use Rattle.graph_draw.specs.Draw.{BothRead, Lent};
ghost use Rattle.graph_build.specs.Result.{draw_result, refused_at};
ghost use Rattle.graph_build.specs.Between.{LentNodes, Holds};

use graph::NoGraph;
use std::marker::Model;
use text::Refusal;

// Why there is no graph: the reason, of which contracts see the number, its entry, what the scan of that entry's text answered, and the place where image or
// bundle breaks its form.
#[derive(Clone, Copy)]
pub struct GraphRefusal {
    pub reason: NoGraph,
    pub entry: usize,
    pub scan: Refusal,
    pub place: usize,
}

impl Model for GraphRefusal {
    ghost use Rattle.graph_build.specs.Told.{Told};

    ghost Value = { Told };

    ghost use Rattle.graph_build.specs.ToldSeen.{seen, unseen};

    ghost view = { seen };

    ghost inverse = { unseen };
}

// A graph that is refused for this reason at this place, by no entry and no scan.
pub fn refused_at(reason: NoGraph, place: usize) -> GraphRefusal
    ensures { result ≡ refused_at reason.0 place }
{
    GraphRefusal {
        reason,
        entry: 0,
        scan: text::no_refusal(),
        place,
    }
}

// The graph of an image and a bundle that are well formed, with enough lent, over tables that are zero. `complete`: with all names as nodes.
pub fn draw(
    image: &[u8],
    bundle: &[u8],
    complete: bool,
    btab: &[u32],
    texts: usize,
    nodes: &mut [u32],
    edges: &mut [u32],
    store: &mut [u8],
    imports: &mut [u32],
    includes: &mut [u32],
    levels: &mut [u32],
) -> Result<(usize, usize), GraphRefusal>
    requires { BothRead image.now bundle.now btab.now texts
        × Lent bundle.now store.old imports.old includes.old levels.old edges.old
        × LentNodes nodes.old }
    ensures { Holds (draw_result (mode_of complete) image.now bundle.now)
        nodes.old edges.old store.old imports.old includes.old levels.old result
        nodes.new edges.new store.new imports.new includes.new levels.new }
{
    let mut table: [u32; library_items::TABLE] = [0; library_items::TABLE];
    let count = library_items::list_items(image, &mut table);
    let mut ntab: [u32; graph_nodes::NODE_TABLE] = [0; graph_nodes::NODE_TABLE];
    let made = graph_nodes::construct_nodes(image, complete, &table, count, &mut ntab);
    let n = made.ok_or(refused_at(NoGraph::TOO_MANY_NODES, 0))?;
    let m = graph_draw::draw_edges(
        image, bundle, btab, texts, &ntab, n, &table, count, edges, store, imports, includes,
        levels,
    )
    .map_err(|(entry, why)| GraphRefusal {
        reason: why.reason,
        entry,
        scan: why.scan,
        place: 0,
    })?;
    graph_tables::put_nodes(&ntab, n, nodes);
    Ok((n, m))
}
