// The check of a list: the first place that is wrong.
#![tactic(auto)]

ghost use Rattle.std.specs.Prelude.{◌≡◌, ◌≤◌, get_or};
ghost use Rattle.graph_edges.specs.Edges.{row_at, rows_in};
ghost use Rattle.order_tables.specs.Tables.{Fit};
ghost use Rattle.order_places.specs.Noted.{place_in, Blank, AllNoted, bars, Known, KnownAt, NodeAt, NextBreak, Unbroken};
ghost use Rattle.order_places.specs.Places.{place_of};

use graph::NodeIndex;

// The place of a node that is not in the list: behind all others, so that an edge is tested without asking whether its nodes are there. All its bytes are
// alike, so that a table is filled with it fast.
const NOWHERE: u32 = u32::MAX;

// Notes the place of each node of the list, up to the first place whose number is no node or stood earlier. Answers that place, or the list's end.
fn note_places(list: &[u32], n: usize, places: &mut [u32]) -> usize
    requires { Blank n places.old }
    ensures { AllNoted list.now n places.new result }
{
    for (i, x) in list.iter().enumerate() {
        let v = graph::node_row(NodeIndex(*x));
        if n <= v || places[v] != NOWHERE {
            return i;
        }
        places[v] = i as u32;
    }
    list.len()
}

// The place in the list of the node whose number is the word `at` of the edge table.
fn place_at(edges: &[u32], at: usize, places: &[u32]) -> u32
    requires { NodeAt edges.now at places.now }
    ensures { result ≡ place_in places.now (get_or edges.now at 0) }
{
    places[graph::node_row(NodeIndex(edges[at]))]
}

// Whether the edge at `i` makes one of the first `good` places wrong: the place of its second node, if its first node does not stand earlier. A second node
// that is not in the list stands behind those places, and a first node that is not in it stands behind every second one.
fn breaks(edges: &[u32], i: usize, places: &[u32], good: u32) -> bool
    requires { KnownAt edges.now i places.now }
    ensures { result ≡ bars places.now (row_at edges.now i) good }
{
    let to = place_at(edges, i * 2 + 1, places);
    to < good && to <= place_at(edges, i * 2, places)
}

// The first edge from `first` on that makes one of them wrong, or m. `good` stays the same meanwhile, so that no edge's test waits for the one before.
fn next_break(edges: &[u32], first: usize, m: usize, places: &[u32], good: u32) -> usize
    requires { Known edges.now m places.now × (first ≤ m) }
    ensures { NextBreak places.now edges.now first m good result }
{
    for i in first..m {
        if breaks(edges, i, places, good) {
            return i;
        }
    }
    m
}

// How many of the first `good` places are right by all of the m edges: those before the first that an edge makes wrong.
fn unbroken(edges: &[u32], m: usize, places: &[u32], good: u32) -> u32
    requires { Known edges.now m places.now }
    ensures { Unbroken places.now (rows_in m edges.now) good result }
{
    let mut least = good;
    let mut i = next_break(edges, 0, m, places, least);
    while i < m {
        least = place_at(edges, i * 2 + 1, places);
        i = next_break(edges, i + 1, m, places, least);
    }
    least
}

// The first wrong place of a list.
pub fn check_list(edges: &[u32], n: usize, m: usize, list: &[u32]) -> Result<(), u32>
    requires { Fit n edges.now m }
    ensures { result ≡ place_of n (rows_in m edges.now) list.now }
{
    let mut places: [u32; graph::MOST_NODES] = [NOWHERE; graph::MOST_NODES];
    let noted = note_places(list, n, &mut places);
    let place = unbroken(edges, m, &places, noted as u32);
    if (place as usize) < list.len().max(n) {
        Err(place)
    } else {
        Ok(())
    }
}
