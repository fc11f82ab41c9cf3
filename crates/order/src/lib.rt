// The order of registration from a built graph's tables, and the check of a list.
#![tactic(auto)]

ghost use Rattle.std.specs.Prelude.{◌≡◌, ◌≤◌, length};
ghost use Rattle.text_lent.specs.Padded.{zeros};
ghost use Rattle.graph_edges.specs.Edges.{rows_in};
ghost use Rattle.order_tables.specs.Tables.{Fit};
ghost use Rattle.order.specs.Order.{Sorts, Orders, told_place, check_of};

use std::marker::Model;

// How an order or a check went, by the numbers of request 2026-08.
#[derive(Clone, Copy, Debug, PartialEq, Eq)]
pub enum Outcome {
    Good = 0,
    // Some nodes wait for each other.
    CycleMet = 40,
    OrderTooShort = 41,
    ListWrong = 42,
    // The tables do not fit their counts, or an edge has a number that is no node.
    TablesUnfit = 43,
}

// How it went, and how many nodes are written: all, those of a ring, or none. Contracts see the number of the outcome.
#[derive(Clone, Copy)]
pub struct Ordered {
    pub outcome: Outcome,
    pub length: u32,
}

impl Model for Ordered {
    ghost use Rattle.order.specs.Told.{ToldOrder};

    ghost Value = { ToldOrder };

    ghost use Rattle.order.specs.Seen.{order_seen, order_unseen};

    ghost view = { order_seen };

    ghost inverse = { order_unseen };
}

impl Ordered {
    // The number of the outcome.
    pub fn number(self) -> u32
        ensures { result ≡ self.number }
    {
        self.outcome as u32 // 0, 40, 41 or 43
    }
}

// How it went, and the first wrong place of a list. Contracts see the number of the outcome.
#[derive(Clone, Copy)]
pub struct Checked {
    pub outcome: Outcome,
    pub place: u32,
}

impl Model for Checked {
    ghost use Rattle.order.specs.Told.{ToldCheck};

    ghost Value = { ToldCheck };

    ghost use Rattle.order.specs.Seen.{check_seen, check_unseen};

    ghost view = { check_seen };

    ghost inverse = { check_unseen };
}

impl Checked {
    // The number of the outcome.
    pub fn number(self) -> u32
        ensures { result ≡ self.number }
    {
        self.outcome as u32 // 0, 42 or 43
    }
}

// Writes the order, or a ring. The tables fit, and the order table is long enough and zero.
fn sort(n: usize, edges: &[u32], m: usize, table: &mut [u32]) -> Ordered
    requires { Fit n edges.now m × (n ≤ length table.old) × (table.old ≡ zeros (length table.old)) }
    ensures { Sorts n (rows_in m edges.now) (length table.old) result table.new }
{
    let count = order_take::take_all(edges, n, m, table);
    if count == n {
        return Ordered {
            outcome: Outcome::Good,
            length: count as u32,
        };
    }
    let length = order_ring::write_ring(edges, n, m, table, count);
    Ordered {
        outcome: Outcome::CycleMet,
        length: length as u32,
    }
}

// The nodes in the order of registration, each after all that have an edge to it, always the lowest that is free; or a ring of nodes that wait for
// each other.
pub fn order(nodes: &[u32], n: usize, edges: &[u32], m: usize, table: &mut [u32]) -> Ordered
    ensures { Orders nodes.now n edges.now m table.old result table.new }
{
    table.fill(0);
    if !order_tables::fit(nodes, n, edges, m) {
        return Ordered {
            outcome: Outcome::TablesUnfit,
            length: 0,
        };
    }
    if table.len() < n {
        return Ordered {
            outcome: Outcome::OrderTooShort,
            length: 0,
        };
    }
    sort(n, edges, m, table)
}

// What the check found, as an answer.
fn told_place(place: Result<(), u32>) -> Checked
    ensures { result ≡ told_place place }
{
    match place {
        Ok(()) => Checked {
            outcome: Outcome::Good,
            place: 0,
        },
        Err(place) => Checked {
            outcome: Outcome::ListWrong,
            place,
        },
    }
}

// Whether a list holds each node once and breaks no edge.
pub fn order_check(nodes: &[u32], n: usize, edges: &[u32], m: usize, list: &[u32]) -> Checked
    ensures { result ≡ check_of (length nodes.now) n edges.now m list.now }
{
    if !order_tables::fit(nodes, n, edges, m) {
        return Checked {
            outcome: Outcome::TablesUnfit,
            place: 0,
        };
    }
    told_place(order_places::check_list(edges, n, m, list))
}
