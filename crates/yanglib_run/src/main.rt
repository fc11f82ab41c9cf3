// Replays recorded graphs, those of the Rust and those of a plain reading with all names as nodes: nodes, edges in order, or which refusal.
#![tactic(auto)]

use std::io;
use std::rt::Files;
use text::Refusal;

// Whether the tables are the recorded ones: the places of the nodes' names, the first of each two words, and the edges.
fn tables_agree(
    data: &[u8],
    nodes_at: usize,
    nodes: &[u32],
    n: usize,
    edges: &[u32],
    m: usize,
) -> bool {
    if 1024 < n || 8192 < m {
        return false;
    }
    let places = replay::field(data, nodes_at);
    let rows = replay::field(data, replay::after(data, nodes_at));
    places.len() == n * 4
        && rows.len() == m * 8
        && replay::words_agree(places, 0, text_lent::first(nodes, n * 2), 2)
        && replay::words_agree(rows, 0, text_lent::first(edges, m * 2), 1)
}

// Whether a refusal is the recorded one: its number, and what the scan answered.
fn refusal_agrees(answer: &[u8], number: u32, scan: Refusal) -> bool {
    replay::word(answer, 0) == number && replay::refusal_agrees(answer, 4, scan)
}

// The graph of an image and a bundle; behind the answer stand the places of the nodes' names and the edges.
fn graph_agrees(
    image: &[u8],
    bundle: &[u8],
    complete: bool,
    answer: &[u8],
    data: &[u8],
    nodes_at: usize,
) -> bool {
    let mut nodes = [0u32; 2048];
    let mut edges = [0u32; 16384];
    let mut store = [0u8; 65536];
    let mut imports = [0u32; 1792];
    let mut includes = [0u32; 1280];
    let mut levels = [0u32; 4352];
    let graphed = yanglib::to_graph(
        image,
        bundle,
        complete,
        &mut nodes,
        &mut edges,
        &mut store,
        &mut imports,
        &mut includes,
        &mut levels,
    );
    match graphed {
        Ok((n, m)) => {
            replay::word(answer, 0) == 0 && tables_agree(data, nodes_at, &nodes, n, &edges, m)
        }
        Err(r) => refusal_agrees(answer, r.reason.0, r.scan),
    }
}

// A record: image; bundle; number, and the scan's number, keyword and position; the places of the nodes' names; the edges.
fn record_agrees(complete: bool, data: &[u8], at: usize) -> bool {
    let bundle_at = replay::after(data, at);
    let answer_at = replay::after(data, bundle_at);
    graph_agrees(
        replay::field(data, at),
        replay::field(data, bundle_at),
        complete,
        replay::field(data, answer_at),
        data,
        replay::after(data, answer_at),
    )
}

// A file of recorded graphs, of the one mode or the other.
fn replay_file<R: Print + Files>(
    rt: &R,
    name: &[u8],
    complete: bool,
    what: &[u8],
) -> io::Result<()> {
    // A record has five fields.
    let run = replay::replay_file(rt, name, |data, at| {
        (
            record_agrees(complete, data, at),
            replay::after_fields(data, at, 5),
        )
    })?;
    run.say(rt, what)
}

fn main(rt: HostRuntime) -> io::Result<()> {
    replay_file(&rt, b"graph.vec", false, b" graphs")?;
    replay_file(&rt, b"complete.vec", true, b" complete graphs")
}
