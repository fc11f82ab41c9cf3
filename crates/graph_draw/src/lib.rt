// The edges of a library, once image, bundle and nodes are read: the marks and chains that the walk wants are made here, its memory is cleared, since what is
// lent may hold anything, and a refusal leaves no edges.
#![tactic(auto)]

ghost use Rattle.graph_nodes.specs.Adding.{names_held};
ghost use Rattle.graph_draw.specs.Draw.{Prepared, Lent, Edged};

use graph_link::Stopped;
use graph_marks::MarkedNodes;
use graph_visit::Ground;

// The edges of all entries; a refusal leaves none.
pub fn draw_edges<'x>(
    image: &'x [u8],
    bundle: &'x [u8],
    btab: &'x [u32],
    texts: usize,
    ntab: &'x [u32],
    n: usize,
    table: &[u32],
    count: usize,
    edges: &mut [u32],
    store: &mut [u8],
    imports: &mut [u32],
    includes: &mut [u32],
    levels: &mut [u32],
) -> Result<usize, (usize, Stopped)>
    requires { Prepared image.now bundle.now btab.now texts ntab.now n table.now count
        × Lent bundle.now store.old imports.old includes.old levels.old edges.old }
    ensures { Edged image.now bundle.now (names_held image.now ntab.now n)
        store.old imports.old includes.old levels.old edges.old result
        store.new imports.new includes.new levels.new edges.new }
{
    let mut marks: [u32; graph_marks::MARK_TABLE] = [0; graph_marks::MARK_TABLE];
    graph_marks::mark_nodes(image, table, count, ntab, n, &mut marks);
    let mut chains: [u16; graph_edges::CHAIN_TABLE] = [0; graph_edges::CHAIN_TABLE];
    levels.fill(0);
    let nodes = MarkedNodes {
        image,
        ntab,
        count: n,
        marks: &marks,
    };
    let ground = Ground {
        nodes,
        bundle,
        btab,
        texts,
    };
    let drawn = graph_entries::walk_items(
        ground,
        table,
        count,
        store,
        imports,
        includes,
        levels,
        edges,
        &mut chains,
    );
    if drawn.is_err() {
        edges.fill(0);
    }
    drawn
}
