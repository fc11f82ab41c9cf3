// The order of registration: each time the lowest node that is free.
#![tactic(auto)]

ghost use Rattle.std.specs.Prelude.{◌≡◌, ◌+◌, ◌≤◌, ◌<◌, length};
ghost use Rattle.std.proofs.lemmas.List.Edits.{sets};
ghost use Rattle.graph_edges.specs.Edges.{rows_in};
ghost use Rattle.order_tables.specs.Tables.{Fit};
ghost use Rattle.order_take.specs.Taking.{taken};
ghost use Rattle.order_take.specs.Chains.{Rows, Chained, GroupEnd, LooksIn, LookedIn, Looks, Looked, Lowered, Releases, Released, Takes, Freed, Took};

use graph::NodeIndex;

// How many nodes a group has, and how many groups there are.
const GROUP: usize = 32;

const GROUPS: usize = 32;

// How many bounds there are: for each group a number below which none of its nodes is free, and behind these the number of a group before which no group has
// a free node.
const LOWS: usize = 33;

// Marks a node that was taken, where else stands how many edges it waits for: there are not so many edges.
const TAKEN: u32 = 8193;

// Puts the edge at `i` in front of the chain of the edges from its first node. Its second node waits for one edge more.
fn chain_edge(edges: &[u32], i: usize, heads: &mut [u16], links: &mut [u16], waits: &mut [u32])
    requires { Rows edges.now (i + 1) × Chained edges.now i heads.old links.old waits.old }
    ensures { Chained edges.now (i + 1) heads.new links.new waits.new }
{
    let from = graph::node_row(NodeIndex(edges[i * 2]));
    let to = graph::node_row(NodeIndex(edges[i * 2 + 1]));
    links[i] = heads[from];
    heads[from] = i as u16 + 1;
    waits[to] += 1;
}

// The same for the first m edges.
fn chain_edges(edges: &[u32], m: usize, heads: &mut [u16], links: &mut [u16], waits: &mut [u32])
    requires { Rows edges.now m × Chained edges.now 0 heads.old links.old waits.old }
    ensures { Chained edges.now m heads.new links.new waits.new }
{
    for i in 0..m {
        chain_edge(edges, i, heads, links, waits);
    }
}

// Where the group that begins at `first` ends.
fn group_end(first: usize, n: usize) -> usize
    requires { first < n }
    ensures { GroupEnd first n result }
{
    first + GROUP.min(n - first)
}

// The lowest node of the group `g` that waits for none; n if there is none. The next look at this group begins where this one ended.
fn look_group(waits: &[u32], lows: &mut [u32], g: usize, n: usize) -> usize
    requires { LooksIn waits.now lows.old g n }
    ensures { LookedIn waits.now lows.old g n result lows.new }
{
    let last = group_end(g * GROUP, n);
    let first = (g * GROUP).max(lows[g] as usize);
    let v = order_tables::first_zero(waits, first, last);
    if v < last {
        lows[g] = v as u32;
        return v;
    }
    lows[g] = last as u32;
    n
}

// The lowest node that waits for none, or n.
fn lowest_free(waits: &[u32], lows: &mut [u32], n: usize) -> usize
    requires { Looks waits.now lows.old n }
    ensures { Looked waits.now n result lows.new }
{
    for g in lows[GROUPS] as usize..n.div_ceil(GROUP) {
        let v = look_group(waits, lows, g, n);
        if v < n {
            lows[GROUPS] = g as u32;
            return v;
        }
    }
    n
}

// Lowers the bound at `i` to `most`, if it is above that.
fn lower(lows: &mut [u32], i: usize, most: u32)
    requires { i < length lows.old }
    ensures { Lowered lows.old i most lows.new }
{
    lows[i] = lows[i].min(most);
}

// One edge less for v to wait for. If it was the last one, v is free, and the bounds are lowered.
fn release(waits: &mut [u32], lows: &mut [u32], v: usize)
    requires { Releases waits.old lows.old v }
    ensures { Released waits.old lows.old v waits.new lows.new }
{
    waits[v] -= 1;
    if waits[v] == 0 {
        lower(lows, v / GROUP, v as u32);
        lower(lows, GROUPS, (v / GROUP) as u32);
    }
}

// The same for each edge from v, along its chain.
fn release_all(
    edges: &[u32],
    heads: &[u16],
    links: &[u16],
    waits: &mut [u32],
    lows: &mut [u32],
    v: usize,
)
    requires { Takes edges.now heads.now links.now waits.old lows.old v }
    ensures { Freed edges.now heads.now waits.old lows.old v waits.new lows.new }
{
    let mut e = graph_edges::of_link(heads[v]);
    while 0 < e {
        let i = e - 1;
        release(waits, lows, graph::node_row(NodeIndex(edges[i * 2 + 1])));
        e = graph_edges::of_link(links[i]);
    }
}

// Takes v: no node waits for it any longer.
fn take_node(
    edges: &[u32],
    heads: &[u16],
    links: &[u16],
    waits: &mut [u32],
    lows: &mut [u32],
    v: usize,
)
    requires { Takes edges.now heads.now links.now waits.old lows.old v }
    ensures { Took edges.now heads.now waits.old lows.old v waits.new lows.new }
{
    waits[v] = TAKEN;
    release_all(edges, heads, links, waits, lows, v);
}

// Takes nodes until none is free, and writes them into the order table. Answers how many they are.
pub fn take_all(edges: &[u32], n: usize, m: usize, order: &mut [u32]) -> usize
    requires { Fit n edges.now m × (n ≤ length order.old) }
    ensures { (result ≡ length (taken n (rows_in m edges.now)))
        × (order.new ≡ sets order.old 0 (taken n (rows_in m edges.now))) }
{
    let mut heads: [u16; graph::MOST_NODES] = [0; graph::MOST_NODES];
    let mut links: [u16; graph::MOST_EDGES] = [0; graph::MOST_EDGES];
    let mut waits: [u32; graph::MOST_NODES] = [0; graph::MOST_NODES];
    let mut lows: [u32; LOWS] = [0; LOWS];
    chain_edges(edges, m, &mut heads, &mut links, &mut waits);
    for k in 0..n {
        let v = lowest_free(&waits, &mut lows, n);
        if n <= v {
            return k;
        }
        order[k] = v as u32;
        take_node(edges, &heads, &links, &mut waits, &mut lows, v);
    }
    n
}
