// The tables that a host lends for a graph: whether each is long enough, and the node table, laid from the index of nodes.
#![tactic(auto)]

ghost use Rattle.std.specs.Prelude.{◌≡◌};
ghost use Rattle.graph_tables.specs.Lengths.{is_too_short};
ghost use Rattle.graph_tables.specs.Tables.{Puts, Named};

// How many words of levels are lent: the memory, two words for each node, and nine levels.
pub const LEVELS: usize = 4352;

// Whether a table or scratch is too short. longest: the bytes of the longest text.
#[tactic(auto, unfolding(crate::specs::Lengths::is_too_short))]
pub fn too_short(
    longest: usize,
    nodes: usize,
    edges: usize,
    store: usize,
    imports: usize,
    includes: usize,
    levels: usize,
) -> bool
    ensures { result ≡ is_too_short longest
        (record { nodes = nodes; edges = edges; store = store; imports = imports; includes = includes; levels = levels }) }
{
    nodes < 2 * graph::MOST_NODES
        || edges < graph_edges::EDGE_TABLE
        || store < longest
        || imports < scan_rows::MOST_ROWS * scan_rows::IMPORT_SIZE
        || includes < scan_rows::MOST_ROWS * scan_rows::INCLUDE_SIZE
        || levels < LEVELS
}

// Lays place and length of each node's name into the node table, which is zero.
pub fn put_nodes(ntab: &[u32], n: usize, nodes: &mut [u32])
    requires { Puts ntab.now n nodes.old }
    ensures { Named ntab.now n nodes.old nodes.new }
{
    for i in 0..n {
        nodes[i * 2] = library_index::place_of(ntab, i) as u32;
        nodes[i * 2 + 1] = library_index::length_of(ntab, i) as u32;
    }
}
