// Replays recorded orders and checks of a plain implementation, and answers a few questions that are easy to get wrong.
#![tactic(auto)]

use order::{Checked, Ordered};
use std::io;

// How many words a table of a record has at the most.
const ROOM: usize = 256;

// The words of a field from a place on, as many as the table holds.
fn read_words(field: &[u8], first: usize, table: &mut [u32]) {
    let mut at = first;
    for x in table {
        *x = replay::word(field, at);
        at = at.wrapping_add(4);
    }
}

// As many words of a table as a word says, or all.
fn part(t: &[u32], n: u32) -> &[u32] {
    text_lent::first(t, n as usize)
}

// The answer is the one recorded: words of the order table, number, how many nodes, and what is in the table.
fn answer_agrees(ordered: Ordered, table: &[u32], told: &[u8]) -> bool {
    is_ordered(ordered, replay::word(told, 4), replay::word(told, 8))
        && replay::words_agree(told, 12, table, 1)
}

// The order of a graph into the first words of a table.
fn order_into(graph: &[u8], nodes: &[u32], edges: &[u32], table: &mut [u32], told: &[u8]) -> bool {
    let long = replay::word(told, 0) as usize;
    if table.len() < long {
        return false;
    }
    let n = replay::word(graph, 0) as usize;
    let m = replay::word(graph, 4) as usize;
    let ordered = order::order(nodes, n, edges, m, &mut table[..long]);
    answer_agrees(ordered, &table[..long], told)
}

// A graph: nodes, edges, words of the node table, words of the edge table, and these.
fn order_agrees(graph: &[u8], told: &[u8]) -> bool {
    let nodes = [0u32; ROOM];
    let mut edges = [0u32; ROOM];
    let mut table = [2779096485u32; ROOM];
    read_words(graph, 16, &mut edges);
    order_into(
        graph,
        part(&nodes, replay::word(graph, 8)),
        part(&edges, replay::word(graph, 12)),
        &mut table,
        told,
    )
}

// The check of a list: its length, number, place, and its words.
fn check_agrees(graph: &[u8], told: &[u8]) -> bool {
    let nodes = [0u32; ROOM];
    let mut edges = [0u32; ROOM];
    let mut list = [0u32; ROOM];
    read_words(graph, 16, &mut edges);
    read_words(told, 12, &mut list);
    let checked = order::order_check(
        part(&nodes, replay::word(graph, 8)),
        replay::word(graph, 0) as usize,
        part(&edges, replay::word(graph, 12)),
        replay::word(graph, 4) as usize,
        part(&list, replay::word(told, 0)),
    );
    is_checked(checked, replay::word(told, 4), replay::word(told, 8))
}

// A record: a graph, its order, the check of a list.
fn record_agrees(data: &[u8], at: usize) -> bool {
    let order_at = replay::after(data, at);
    let graph = replay::field(data, at);
    order_agrees(graph, replay::field(data, order_at))
        && check_agrees(graph, replay::field(data, replay::after(data, order_at)))
}

// The number and the length or place.
fn is_ordered(ordered: Ordered, number: u32, length: u32) -> bool {
    ordered.outcome as u32 == number && ordered.length == length
}

fn is_checked(checked: Checked, number: u32, place: u32) -> bool {
    checked.outcome as u32 == number && checked.place == place
}

// The table is 1, 0, 2 and a zero.
fn say_lowest<R: Print>(rt: &R, table: [u32; 4]) -> io::Result<()> {
    let [first, second, third, fourth] = table;
    replay::trap(rt, b"1, 0, 2: first", first == 1)?;
    replay::trap(rt, b"1, 0, 2: second", second == 0)?;
    replay::trap(rt, b"1, 0, 2: third", third == 2)?;
    replay::trap(rt, b"zero behind", fourth == 0)
}

// 1 before 0, and 2 alone: not 1, 2, 0, since 0 is free before 2 and lower.
fn lowest_free_first<R: Print>(rt: &R) -> io::Result<()> {
    let nodes = [0u32; 6];
    let edges: [u32; 2] = [1, 0];
    let mut table = [7u32; 4];
    let ordered = order::order(&nodes, 3, &edges, 1, &mut table);
    replay::trap(rt, b"three nodes are ordered", is_ordered(ordered, 0, 3))?;
    say_lowest(rt, table)
}

// The table is 1, 3, 2 and a zero.
fn say_ring<R: Print>(rt: &R, table: [u32; 4]) -> io::Result<()> {
    let [first, second, third, fourth] = table;
    replay::trap(rt, b"1, 3, 2: first", first == 1)?;
    replay::trap(rt, b"1, 3, 2: second", second == 3)?;
    replay::trap(rt, b"1, 3, 2: third", third == 2)?;
    replay::trap(rt, b"zero behind the ring", fourth == 0)
}

// 0 waits for the ring 1 to 3 to 2 to 1.
fn ring_along_the_edges<R: Print>(rt: &R) -> io::Result<()> {
    let nodes = [0u32; 8];
    let edges: [u32; 8] = [1, 3, 3, 2, 2, 1, 1, 0];
    let mut table = [7u32; 4];
    let ordered = order::order(&nodes, 4, &edges, 4, &mut table);
    replay::trap(rt, b"a ring of three", is_ordered(ordered, 40, 3))?;
    say_ring(rt, table)
}

// The check of a list, of a graph with one node and at most the edge from it to itself.
fn one_node_checked(m: usize, list: &[u32], number: u32, place: u32) -> bool {
    let nodes: [u32; 2] = [0, 0];
    let edges: [u32; 2] = [0, 0];
    is_checked(
        order::order_check(&nodes, 1, &edges, m, list),
        number,
        place,
    )
}

fn lists_checked<R: Print>(rt: &R) -> io::Result<()> {
    let once: [u32; 1] = [0];
    let twice: [u32; 2] = [0, 0];
    replay::trap(
        rt,
        b"a node alone is in order",
        one_node_checked(0, &once, 0, 0),
    )?;
    replay::trap(
        rt,
        b"a node before itself is wrong at its place",
        one_node_checked(1, &once, 42, 0),
    )?;
    replay::trap(
        rt,
        b"a node twice is wrong at the second place",
        one_node_checked(0, &twice, 42, 1),
    )
}

fn main(rt: HostRuntime) -> io::Result<()> {
    // A record has three fields.
    let mut space = [0u8; 131072];
    let n = replay::read_file(&rt, b"orders.vec", &mut space)?;
    let run = replay::replay_all(&space[..n], |data, at| {
        (record_agrees(data, at), replay::after_fields(data, at, 3))
    });
    run.say(&rt, b" orders")?;
    lowest_free_first(&rt)?;
    ring_along_the_edges(&rt)?;
    lists_checked(&rt)
}
