// A built graph's tables as they are lent.
#![tactic(auto)]

ghost use Rattle.std.specs.Prelude.{◌≡◌, ◌-◌, ◌*◌, ◌≤◌, length};
ghost use Rattle.text_utf8.specs.Largest.{largest};
ghost use Rattle.graph_edges.specs.Edges.{rows_in};
ghost use Rattle.order_tables.specs.Tables.{all_within, fits};
ghost use Rattle.order_tables.specs.Free.{lowest_from, zero_at};

// The largest of all words, 0 if there are none.
fn largest(w: &[u32]) -> u32
    ensures { result ≡ largest 0 w.now }
{
    let mut most = 0;
    for x in w {
        most = most.max(*x);
    }
    most
}

// The first zero from `first` up to `last`; `last` or more if there is none.
pub fn first_zero(words: &[u32], first: usize, last: usize) -> usize
    requires { last ≤ length words.now }
    ensures { result ≡ lowest_from (zero_at words.now) first (last - first) }
{
    for v in first..last {
        if words[v] == 0 {
            return v;
        }
    }
    first.max(last)
}

// Whether both ends of each of the first m edges are nodes: the largest number of all must be one. It is found with no early exit, many numbers at a time.
fn all_within(edges: &[u32], m: usize, n: usize) -> bool
    requires { m * 2 ≤ length edges.now }
    ensures { result ≡ all_within n (rows_in m edges.now) }
{
    m == 0 || (largest(&edges[..m * 2]) as usize) < n
}

// Whether the tables hold n nodes and m edges between them.
pub fn fit(nodes: &[u32], n: usize, edges: &[u32], m: usize) -> bool
    ensures { result ≡ fits (length nodes.now) n edges.now m }
{
    n <= graph::MOST_NODES
        && m <= graph::MOST_EDGES
        && n * 2 <= nodes.len()
        && m * 2 <= edges.len()
        && all_within(edges, m, n)
}
