// The call that a host makes for the graph of a library: image and bundle are read, what is lent is measured and cleared; crate graph_build makes the graph.
#![tactic(auto)]

ghost use Rattle.std.specs.Prelude.{◌≡◌, length};
ghost use Rattle.text_lent.specs.Padded.{zeros};
ghost use Rattle.graph.specs.Nodes.{mode_of};
ghost use Rattle.yanglib.specs.ToGraph.{graphed, Graphs};
ghost use Rattle.graph_tables.specs.Lengths.{lengths_of};
ghost use Rattle.graph_build.specs.Between.{Holds};

use graph::NoGraph;
use graph_build::GraphRefusal;

// 20, then 21, then 22, then the graph. The parameters are the tables of the C call, as the theorems name them.
fn read_and_draw(
    image: &[u8],
    bundle: &[u8],
    complete: bool,
    nodes: &mut [u32],
    edges: &mut [u32],
    store: &mut [u8],
    imports: &mut [u32],
    includes: &mut [u32],
    levels: &mut [u32],
) -> Result<(usize, usize), GraphRefusal>
    requires { (nodes.old ≡ zeros (length nodes.old)) × (edges.old ≡ zeros (length edges.old)) }
    ensures { Holds (graphed (mode_of complete) image.now bundle.now
        (lengths_of nodes.old edges.old store.old imports.old includes.old levels.old))
        nodes.old edges.old store.old imports.old includes.old levels.old result
        nodes.new edges.new store.new imports.new includes.new levels.new }
{
    library_read::read_image(image).map_err(|p| graph_build::refused_at(NoGraph::IMAGE_BROKEN, p))?;
    let mut btab: [u32; library_bundle::TABLE] = [0; library_bundle::TABLE];
    let texts = library_bundle::open(bundle, &mut btab).map_err(|p| graph_build::refused_at(
        NoGraph::BUNDLE_BROKEN,
        p,
    ))?;
    let longest = library_bundle::longest(bundle, &btab, texts);
    if graph_tables::too_short(
        longest,
        nodes.len(),
        edges.len(),
        store.len(),
        imports.len(),
        includes.len(),
        levels.len(),
    ) {
        return Err(graph_build::refused_at(NoGraph::LENT_TOO_SHORT, 0));
    }
    graph_build::draw(
        image, bundle, complete, &btab, texts, nodes, edges, store, imports, includes, levels,
    )
}

// The graph of the library: nodes and edges, or a refusal that leaves all tables zero. Scratch is zero after every call. `complete`: with all names as nodes,
// as request 2026-02 asks; without it the nodes are the Rust's.
pub fn to_graph(
    image: &[u8],
    bundle: &[u8],
    complete: bool,
    nodes: &mut [u32],
    edges: &mut [u32],
    store: &mut [u8],
    imports: &mut [u32],
    includes: &mut [u32],
    levels: &mut [u32],
) -> Result<(usize, usize), GraphRefusal>
    ensures { Graphs (mode_of complete) image.now bundle.now
        nodes.old edges.old store.old imports.old includes.old levels.old result
        nodes.new edges.new store.new imports.new includes.new levels.new }
{
    nodes.fill(0);
    edges.fill(0);
    let graphed = read_and_draw(
        image, bundle, complete, nodes, edges, store, imports, includes, levels,
    );
    store.fill(0);
    imports.fill(0);
    includes.fill(0);
    levels.fill(0);
    graphed
}
