// One edge of the walk, the edges of a text's imports, and an include up to the walk of its text.
#![tactic(auto)]

ghost use Rattle.std.specs.Prelude.{◌≡◌, cond, ◌+◌, ◌<◌};
ghost use Rattle.graph.specs.Limits.{most_edges, most_nodes};
ghost use Rattle.graph.specs.Numbers.{each_o, import_code};
ghost use Rattle.graph_edges.specs.Edges.{rows_in, Filed};
ghost use Rattle.graph_nodes.specs.Adding.{names_held};
ghost use Rattle.graph_marks.specs.Marks.{known_at, included_code, IncludedNode};
ghost use Rattle.graph_link.specs.Link.{stopped_at, either_code, import_codes, include_codes, ImportRows, IncludeRows, Drew, Saved, Stepped};

use graph::{NoGraph, NodeIndex};
use graph_marks::{Included, MarkedNodes};
use std::marker::Model;
use text::Refusal;

// Why a walk ends: the reason, of which contracts see the number, and what the scan of the text answered.
#[derive(Clone, Copy)]
pub struct Stopped {
    pub reason: NoGraph,
    pub scan: Refusal,
}

impl Model for Stopped {
    ghost use Rattle.graph_link.specs.Stop.{Stop};

    ghost Value = { Stop };

    ghost use Rattle.graph_link.specs.StopSeen.{seen, unseen};

    ghost view = { seen };

    ghost inverse = { unseen };
}

// A walk that ends for this reason, where no scan refuses.
pub fn stop_with(reason: NoGraph) -> Stopped
    ensures { result ≡ stopped_at reason.0 }
{
    Stopped {
        reason,
        scan: text::no_refusal(),
    }
}

// The edge between v and the module or import-only module of a name: from it to v for an import, from v to it for one that v lists. A refusal is made only
// where it is answered: `ok_or` makes one each time. Asked to be part of its callers: as a call it took a graph of long lists a tenth longer.
#[inline(always)]
pub fn link_known(
    nodes: MarkedNodes,
    name: &[u8],
    given: bool,
    edges: &mut [u32],
    chains: &mut [u16],
    v: NodeIndex,
    count: usize,
) -> Result<usize, Stopped>
    requires { Filed edges.old chains.old count × (v.0 < nodes.count) }
    ensures { Drew (either_code given v.0 (known_at nodes.entry.image.now (names_held nodes.entry.image.now nodes.entry.ntab.now nodes.entry.count) name.now)
        (rows_in count edges.old))
        edges.old chains.old result edges.new chains.new }
{
    let Some(u) = graph_marks::find_known(nodes, name) else {
        return Err(stop_with(NoGraph::UNKNOWN_MODULE));
    };
    let (from, to) = if given { (v, u) } else { (u, v) };
    match graph_edges::add_edge(edges, chains, count, from, to) {
        Some(total) => Ok(total),
        None => Err(stop_with(NoGraph::TOO_MANY_EDGES)),
    }
}

// The edges of a text's imports.
pub fn link_imports(
    nodes: MarkedNodes,
    store: &[u8],
    imports: &[u32],
    rows: usize,
    edges: &mut [u32],
    chains: &mut [u16],
    v: NodeIndex,
    count: usize,
) -> Result<usize, Stopped>
    requires { ImportRows imports.now rows × Filed edges.old chains.old count × (v.0 < nodes.count) }
    ensures { Drew (each_o (import_code most_edges v.0)
        (import_codes nodes.entry.image.now (names_held nodes.entry.image.now nodes.entry.ntab.now nodes.entry.count)
        store.now imports.now rows)
        (rows_in count edges.old))
        edges.old chains.old result edges.new chains.new }
{
    let mut total = count;
    for i in 0..rows {
        let import = scan_rows::get_import(imports, i);
        let name = scan_rows::value_in(store, import.module_name);
        total = link_known(nodes, name, false, edges, chains, v, total)?;
    }
    Ok(total)
}

// An include as it is kept in `levels`: 0 not found (27), 1 no node (28), n + 2 node n.
fn code_of(included: Included) -> u32
    requires { IncludedNode included most_nodes }
    ensures { result ≡ included_code included }
{
    match included {
        Included::NotFound => 0,
        Included::NotNode => 1,
        Included::Node(u) => graph::node_row(u) as u32 + 2,
    }
}

// Saves the word of each include from `base` on, before the texts below use the scan's tables.
pub fn save_includes(
    nodes: MarkedNodes,
    store: &[u8],
    includes: &[u32],
    rows: usize,
    levels: &mut [u32],
    base: usize,
)
    requires { IncludeRows includes.now rows levels.old base }
    ensures { Saved nodes.entry.count (include_codes nodes.entry.image.now
        (names_held nodes.entry.image.now nodes.entry.ntab.now nodes.entry.count) store.now includes.now rows)
        base rows levels.old levels.new }
{
    for i in 0..rows {
        let include = scan_rows::get_include(includes, i);
        let name = scan_rows::value_in(store, include.submodule_name);
        levels[base + i] = code_of(graph_marks::find_included(nodes, name));
    }
}

// One include by its word, up to the walk of its text, for which there must be some depth left.
pub fn step(
    word: u32,
    left: usize,
    edges: &mut [u32],
    chains: &mut [u16],
    v: NodeIndex,
    count: usize,
) -> Result<(NodeIndex, usize), Stopped>
    requires { Filed edges.old chains.old count × (word < most_nodes + 2) × (v.0 < most_nodes) }
    ensures { Stepped word left v.0 (rows_in count edges.old) edges.old chains.old result edges.new
        chains.new }
{
    if word == 0 {
        return Err(stop_with(NoGraph::UNKNOWN_SUBMODULE));
    }
    if word == 1 {
        return Err(stop_with(NoGraph::NO_NODE));
    }
    let u = graph::node_of(word as usize - 2);
    let Some(m) = graph_edges::add_edge(edges, chains, count, u, v) else {
        return Err(stop_with(NoGraph::TOO_MANY_EDGES));
    };
    if left == 0 {
        return Err(stop_with(NoGraph::TOO_DEEP));
    }
    Ok((u, m))
}
