// The edges of a graph in a lent table, and beside it the same edges in chains, so that one is found soon.
#![tactic(auto)]

ghost use Rattle.std.specs.Prelude.{◌≡◌, ◌+◌, ◌*◌, ◌<◌, length, get_or};
ghost use Rattle.graph.specs.Numbers.{row, eq_r, mem_r};
ghost use Rattle.graph.specs.Limits.{most_nodes};
ghost use Rattle.graph_edges.specs.Edges.{buckets, bucket_of, row_at, rows_in, Filed, Chain, Puts, Laid, Linked};

use graph::NodeIndex;

// How many words the edge table has.
pub const EDGE_TABLE: usize = 16384;

// How many words the chains have: a head for each chain, behind the heads a link for each edge.
pub const CHAIN_TABLE: usize = 16384;

// How many chains there are, and a factor that spreads the edges over them. It is odd, so that edges to one node are in different chains.
const BUCKETS: usize = 8192;

const FACTOR: usize = 131;

// A head or a link as a number, for crate order_take. Tables of both have 16 bits a place, so that a chain is fast to follow; an edge has a number below 8,192.
pub fn of_link(x: u16) -> usize
    ensures { result ≡ x }
{
    x as usize
}

// The chain of the edge from `from` to `to`.
fn chain_of(from: NodeIndex, to: NodeIndex) -> usize
    requires { (from.0 < most_nodes) × (to.0 < most_nodes) }
    ensures { (result ≡ bucket_of (row from.0 to.0)) × (result < buckets) }
{
    (graph::node_row(from) * FACTOR + graph::node_row(to)) % BUCKETS
}

// Whether the edge at `i` is the one from `from` to `to`.
fn is_at(edges: &[u32], i: usize, from: u32, to: u32) -> bool
    requires { i * 2 + 1 < length edges.now }
    ensures { result ≡ eq_r (row_at edges.now i) (row from to) }
{
    edges[i * 2] == from && edges[i * 2 + 1] == to
}

// Whether the edge is among those of its chain, `h`.
fn present(edges: &[u32], chains: &[u16], h: usize, from: u32, to: u32) -> bool
    requires { Chain edges.now chains.now (row from to) h (get_or chains.now h 0) × (h < buckets) }
    ensures { result ≡ mem_r (row from to) (rows_in (get_or chains.now h 0) edges.now) }
{
    let mut e = usize::from(chains[h]);
    while 0 < e {
        let i = e - 1;
        if is_at(edges, i, from, to) {
            return true;
        }
        e = usize::from(chains[BUCKETS + i]);
    }
    false
}

// Lays the edge behind the first `count`, and in front of the chain `h`.
fn put_edge(edges: &mut [u32], chains: &mut [u16], count: usize, h: usize, from: u32, to: u32)
    requires { Puts edges.old chains.old count h }
    ensures { Laid edges.old chains.old count h from to edges.new chains.new }
{
    edges[count * 2] = from;
    edges[count * 2 + 1] = to;
    chains[BUCKETS + count] = chains[h];
    chains[h] = count as u16 + 1;
}

// Adds the edge behind the first `count`, unless it is among them.
pub fn add_edge(
    edges: &mut [u32],
    chains: &mut [u16],
    count: usize,
    from: NodeIndex,
    to: NodeIndex,
) -> Option<usize>
    requires { Filed edges.old chains.old count × (from.0 < most_nodes) × (to.0 < most_nodes) }
    ensures { Linked (rows_in count edges.old) (row from.0 to.0) edges.old chains.old result
        edges.new chains.new }
{
    let h = chain_of(from, to);
    if present(edges, chains, h, from.0, to.0) {
        return Some(count);
    }
    if graph::MOST_EDGES <= count {
        return None;
    }
    put_edge(edges, chains, count, h, from.0, to.0);
    Some(count + 1)
}
