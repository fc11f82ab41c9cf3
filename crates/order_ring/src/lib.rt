// The ring that is written out where nodes are left over.
#![tactic(auto)]

ghost use Rattle.std.specs.Prelude.{◌≡◌, true, ◌+◌, ◌-◌, ◌*◌, ◌≤◌, ◌<◌, length, take, drop};
ghost use Rattle.std.proofs.lemmas.List.Edits.{sets};
ghost use Rattle.std.proofs.Math.Seq.{slice};
ghost use Rattle.text_lent.specs.Padded.{padded};
ghost use Rattle.graph.specs.Limits.{most_nodes};
ghost use Rattle.graph_edges.specs.Edges.{row_at, rows_in};
ghost use Rattle.order_tables.specs.Tables.{Fit};
ghost use Rattle.order_tables.specs.Free.{mem, Stuck};
ghost use Rattle.order_ring.specs.Ring.{ring_of};
ghost use Rattle.order_ring.specs.Trail.{Flags, Marks, noted, Notes, Noted, Goes, Went, Trailed, Behind, LowestAt};

use graph::NodeIndex;

// Stands for no node: no node has so high a number.
const NOWHERE: u32 = 1024;

// Where the way back ended: at a node that it had gone through before. The nodes of the way stand in the trail from `at` on, the latest first.
#[derive(Clone, Copy)]
pub struct Met {
    pub at: usize,
    pub node: usize,
}

// Marks the nodes that are the first `count` of the list.
fn mark(list: &[u32], count: usize, gone: &mut [u32])
    requires { Marks list.now count gone.old }
    ensures { Flags (take count list.now) gone.new }
{
    for x in &list[..count] {
        gone[graph::node_row(NodeIndex(*x))] = 1;
    }
}

// Looks at the edge at `i`: if its first node is left over, and lower than those noted so far for its second node, it is noted there.
fn note_edge(edges: &[u32], i: usize, gone: &[u32], before: &mut [u32])
    requires { (i * 2 + 1 < length edges.now) × ((row_at edges.now i).from < length gone.now) × ((row_at edges.now i).to < length before.old) }
    ensures { before.new ≡ noted gone.now before.old (row_at edges.now i) }
{
    let from = edges[i * 2];
    let u = graph::node_row(NodeIndex(from));
    let v = graph::node_row(NodeIndex(edges[i * 2 + 1]));
    if gone[u] == 0 && from < before[v] {
        before[v] = from;
    }
}

// For each node the lowest left-over node with an edge to it.
fn note_edges(edges: &[u32], m: usize, gone: &[u32], before: &mut [u32])
    requires { Notes edges.now m gone.now before.old }
    ensures { Noted gone.now (rows_in m edges.now) before.new }
{
    for i in 0..m {
        note_edge(edges, i, gone, before);
    }
}

// Goes back from v, from each node to the one noted for it, until one comes twice. Marks the nodes on the way, and writes them into the trail from its end on.
fn go_back(before: &[u32], v: usize, gone: &mut [u32], trail: &mut [u32]) -> Met
    requires { Goes before.now v gone.old trail.old }
    ensures { Went before.now v trail.new result }
{
    let mut node = v;
    let mut at = graph::MOST_NODES;
    // No `for`: the way ends where a node was marked, and that the trail has room until then is a law of the way.
    while gone[node] == 0 {
        gone[node] = 1;
        at -= 1;
        trail[at] = node as u32;
        node = graph::node_row(NodeIndex(before[node]));
    }
    Met { at, node }
}

// The trail of a graph: the way back from the lowest node left over. The first `count` of the list are taken.
fn make_trail(
    edges: &[u32],
    n: usize,
    m: usize,
    list: &[u32],
    count: usize,
    trail: &mut [u32],
) -> Met
    requires { Fit n edges.now m × (count ≤ length list.now) × Stuck n (rows_in m edges.now) (take count list.now)
        × (length trail.old ≡ most_nodes) }
    ensures { Trailed n (rows_in m edges.now) (take count list.now) trail.new result }
{
    let mut gone: [u32; graph::MOST_NODES] = [0; graph::MOST_NODES];
    let mut before: [u32; graph::MOST_NODES] = [NOWHERE; graph::MOST_NODES];
    mark(list, count, &mut gone);
    note_edges(edges, m, &gone, &mut before);
    let start = order_tables::first_zero(&gone, 0, n);
    go_back(&before, start, &mut gone, trail)
}

// The place behind the first v from `at` on.
fn behind(trail: &[u32], at: usize, v: usize) -> usize
    requires { mem v (drop at trail.now) ≡ true }
    ensures { Behind trail.now at v result }
{
    // No `position`: the laws say by `until` what stands before v, and a chain answers places alone.
    for i in at..trail.len() {
        if trail[i] as usize == v {
            return i + 1;
        }
    }
    trail.len()
}

// The place of the lowest number from `at` up to `end`.
fn lowest_place(trail: &[u32], at: usize, end: usize) -> usize
    requires { (at < end) × (end ≤ length trail.now) }
    ensures { LowestAt trail.now at end result }
{
    let mut p = at;
    for i in at + 1..end {
        if trail[i] < trail[p] {
            p = i;
        }
    }
    p
}

// Copies the words from `from` up to `to` of the trail into the table, from `at` on.
// By a loop: `copy_from_slice` calls memmove, and include/nuvaleta.h promises that of the C library only memcpy and memset are needed.
fn copy(trail: &[u32], from: usize, to: usize, table: &mut [u32], at: usize)
    requires { (from ≤ to) × (to ≤ length trail.now) × (at + (to - from) ≤ length table.old) }
    ensures { table.new ≡ sets table.old at (slice from to trail.now) }
{
    let mut i = from;
    let mut j = at;
    while i < to {
        table[j] = trail[i];
        i += 1;
        j += 1;
    }
}

// Writes the ring over the `count` nodes that were taken, behind which all is zero. Answers how many nodes it has.
pub fn write_ring(edges: &[u32], n: usize, m: usize, order: &mut [u32], count: usize) -> usize
    requires { Fit n edges.now m × (n ≤ length order.old) × (count ≤ length order.old)
        × Stuck n (rows_in m edges.now) (take count order.old)
        × (order.old ≡ padded (length order.old) (take count order.old)) }
    ensures { (result ≡ length (ring_of n (rows_in m edges.now) (take count order.old)))
        × (order.new ≡ padded (length order.old) (ring_of n (rows_in m edges.now) (take count order.old))) }
{
    let mut trail: [u32; graph::MOST_NODES] = [0; graph::MOST_NODES];
    let Met { at, node } = make_trail(edges, n, m, order, count, &mut trail);
    let end = behind(&trail, at, node);
    let low = lowest_place(&trail, at, end);
    order[..count].fill(0);
    copy(&trail, low, end, order, 0);
    copy(&trail, at, low, order, end - low);
    end - at
}
