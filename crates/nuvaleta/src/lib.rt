// What a host calls, as include/nuvaleta.h declares it: one function a call, with the promises of the function that it calls. nuvaleta_c exports them to C.
#![tactic(auto)]

ghost use Rattle.std.specs.Prelude.{◌≡◌, true, false};
ghost use Rattle.nuvaleta.specs.Host.{DependenciesAnswered, PrintedAnswered};
ghost use Rattle.library_image.specs.Image.{image_broken};
ghost use Rattle.library_bundle.specs.Bundle.{bundle_broken, look_up};
ghost use Rattle.library_find.specs.Find.{find_module, find_submodule, find_import_module};
ghost use Rattle.host_words.specs.Words.{told_words};
ghost use Rattle.graph.specs.Nodes.{pass_over, complete, mode_of};
ghost use Rattle.nuvaleta.specs.Words.{answer_words, WordsFit, graph_words, GraphFits};
ghost use Rattle.nuvaleta.specs.Finds.{Told};
ghost use Rattle.nuvaleta.specs.Graphs.{GraphAnswered};
ghost use Rattle.nuvaleta.specs.Orders.{OrderAnswered, CheckAnswered};
ghost use Rattle.nuvaleta.specs.Record.{MetadataAnswered};

use graph_build::GraphRefusal;
use text::Refusal;
use yangparser::Rows;

// The six words of a scan's answer.
#[tactic(auto, unfolding(crate::specs::Words::answer_words, crate::specs::Words::WordsFit))]
fn scan_words(parsed: Result<Rows, Refusal>) -> [u32; 6]
    requires { WordsFit parsed }
    ensures { result ≡ answer_words parsed }
{
    match parsed {
        Ok(
            Rows {
                imports,
                includes,
                used,
            },
        ) => host_words::scan_read_words(imports, includes, used),
        Err(r) => host_words::scan_refused_words(r),
    }
}

// The eight words of a graph's answer.
#[tactic(auto, unfolding(crate::specs::Words::graph_words, crate::specs::Words::GraphFits))]
fn graph_words(graphed: Result<(usize, usize), GraphRefusal>) -> [u32; 8]
    requires { GraphFits graphed }
    ensures { result ≡ graph_words graphed }
{
    match graphed {
        Ok((n, m)) => host_words::graph_built_words(n, m),
        Err(r) => host_words::graph_refused_words(r.reason.0, r.entry, r.scan, r.place),
    }
}

// The imports and includes of a text, and the answer in words. `whole`: the text must be whole.
fn dependencies_answer(
    whole: bool,
    text: &[u8],
    store: &mut [u8],
    imports: &mut [u32],
    includes: &mut [u32],
    answer: &mut [u32; 6],
) -> u32
    ensures { DependenciesAnswered whole
        text.now store.old imports.old includes.old result
        store.new imports.new includes.new answer.new }
{
    *answer = scan_words(yangparser::extract_yang_dependencies(
        whole, text, store, imports, includes,
    ));
    answer[0]
}

// The imports and includes of a text.
pub fn nuvaleta_dependencies(
    text: &[u8],
    store: &mut [u8],
    imports: &mut [u32],
    includes: &mut [u32],
    answer: &mut [u32; 6],
) -> u32
    ensures { DependenciesAnswered false
        text.now store.old imports.old includes.old result
        store.new imports.new includes.new answer.new }
{
    dependencies_answer(false, text, store, imports, includes, answer)
}

// The same of a text that must be whole: what is read of it and breaks off is refused (11).
pub fn nuvaleta_dependencies_whole(
    text: &[u8],
    store: &mut [u8],
    imports: &mut [u32],
    includes: &mut [u32],
    answer: &mut [u32; 6],
) -> u32
    ensures { DependenciesAnswered true
        text.now store.old imports.old includes.old result
        store.new imports.new includes.new answer.new }
{
    dependencies_answer(true, text, store, imports, includes, answer)
}

// The imports and includes of a text, their printed form, and the answer in words. `whole`: the text must be whole.
fn printed_answer(
    whole: bool,
    text: &[u8],
    store: &mut [u8],
    imports: &mut [u32],
    includes: &mut [u32],
    page: &mut [u8],
    answer: &mut [u32; 7],
) -> u32
    ensures { PrintedAnswered whole
        text.now store.old imports.old includes.old page.old result
        store.new imports.new includes.new page.new answer.new }
{
    let printed = scan_page::print_yang_dependencies(whole, text, store, imports, includes, page);
    let words = scan_words(printed.parsed);
    *answer = host_words::page_words(words, printed.length);
    words[0]
}

// The imports and includes of a text, and their printed form.
pub fn nuvaleta_printed(
    text: &[u8],
    store: &mut [u8],
    imports: &mut [u32],
    includes: &mut [u32],
    page: &mut [u8],
    answer: &mut [u32; 7],
) -> u32
    ensures { PrintedAnswered false
        text.now store.old imports.old includes.old page.old result
        store.new imports.new includes.new page.new answer.new }
{
    printed_answer(false, text, store, imports, includes, page, answer)
}

// The same of a text that must be whole.
pub fn nuvaleta_printed_whole(
    text: &[u8],
    store: &mut [u8],
    imports: &mut [u32],
    includes: &mut [u32],
    page: &mut [u8],
    answer: &mut [u32; 7],
) -> u32
    ensures { PrintedAnswered true
        text.now store.old imports.old includes.old page.old result
        store.new imports.new includes.new page.new answer.new }
{
    printed_answer(true, text, store, imports, includes, page, answer)
}

// The metadata of a text, and the answer in words. `whole`: the text must be whole.
fn metadata_answer(
    whole: bool,
    text: &[u8],
    store: &mut [u8],
    words: &mut [u32; 18],
    answer: &mut [u32; 4],
) -> u32
    ensures { MetadataAnswered whole
        text.now store.old result store.new words.new answer.new }
{
    let read = scan_metadata::extract_yang_metadata(whole, text, store);
    *words = host_words::record_words(read.values);
    *answer = host_words::metadata_words(read.answer, read.used);
    read.answer.number()
}

// The metadata of a text.
pub fn nuvaleta_metadata(
    text: &[u8],
    store: &mut [u8],
    words: &mut [u32; 18],
    answer: &mut [u32; 4],
) -> u32
    ensures { MetadataAnswered false
        text.now store.old result store.new words.new answer.new }
{
    metadata_answer(false, text, store, words, answer)
}

// The same of a text that must be whole.
pub fn nuvaleta_metadata_whole(
    text: &[u8],
    store: &mut [u8],
    words: &mut [u32; 18],
    answer: &mut [u32; 4],
) -> u32
    ensures { MetadataAnswered true
        text.now store.old result store.new words.new answer.new }
{
    metadata_answer(true, text, store, words, answer)
}

// A module of an image by its name.
pub fn nuvaleta_find_module(image: &[u8], name: &[u8], answer: &mut [u32; 5]) -> u32
    ensures { Told (told_words image_broken (find_module image.now name.now)) result answer.new }
{
    *answer = host_words::find_words(library_find::find_module(image, name));
    answer[0]
}

// A submodule of an image's modules by its name.
pub fn nuvaleta_find_submodule(image: &[u8], name: &[u8], answer: &mut [u32; 5]) -> u32
    ensures { Told (told_words image_broken (find_submodule image.now name.now)) result answer.new }
{
    *answer = host_words::find_words(library_find::find_submodule(image, name));
    answer[0]
}

// An import-only module of an image by its name, and how many revisions it has.
pub fn nuvaleta_find_import_module(image: &[u8], name: &[u8], answer: &mut [u32; 5]) -> u32
    ensures { Told (told_words image_broken (find_import_module image.now name.now)) result answer.new }
{
    *answer = host_words::find_words(library_find::find_import_module(image, name));
    answer[0]
}

// Where the text under a name stands in a bundle.
pub fn nuvaleta_text(bundle: &[u8], name: &[u8], answer: &mut [u32; 5]) -> u32
    ensures { Told (told_words bundle_broken (look_up bundle.now name.now)) result answer.new }
{
    *answer = host_words::text_words(library_bundle::find_text(bundle, name));
    answer[0]
}

// The graph of an image and a bundle, and its answer in words. `complete`: with all names as nodes.
fn graph_answer(
    image: &[u8],
    bundle: &[u8],
    complete: bool,
    nodes: &mut [u32],
    edges: &mut [u32],
    store: &mut [u8],
    imports: &mut [u32],
    includes: &mut [u32],
    levels: &mut [u32],
    answer: &mut [u32; 8],
) -> u32
    ensures { GraphAnswered (mode_of complete)
        image.now bundle.now nodes.old edges.old
        store.old imports.old includes.old levels.old result
        nodes.new edges.new store.new imports.new includes.new levels.new
        answer.new }
{
    let graphed = yanglib::to_graph(
        image, bundle, complete, nodes, edges, store, imports, includes, levels,
    );
    *answer = graph_words(graphed);
    answer[0]
}

// The graph of an image and a bundle: a module whose name is already a node is passed over with its submodules.
pub fn nuvaleta_graph(
    image: &[u8],
    bundle: &[u8],
    nodes: &mut [u32],
    edges: &mut [u32],
    store: &mut [u8],
    imports: &mut [u32],
    includes: &mut [u32],
    levels: &mut [u32],
    answer: &mut [u32; 8],
) -> u32
    ensures { GraphAnswered pass_over
        image.now bundle.now nodes.old edges.old
        store.old imports.old includes.old levels.old result
        nodes.new edges.new store.new imports.new includes.new levels.new
        answer.new }
{
    graph_answer(
        image, bundle, false, nodes, edges, store, imports, includes, levels, answer,
    )
}

// The same with the submodules of every listing and of every revision as nodes.
pub fn nuvaleta_graph_complete(
    image: &[u8],
    bundle: &[u8],
    nodes: &mut [u32],
    edges: &mut [u32],
    store: &mut [u8],
    imports: &mut [u32],
    includes: &mut [u32],
    levels: &mut [u32],
    answer: &mut [u32; 8],
) -> u32
    ensures { GraphAnswered complete
        image.now bundle.now nodes.old edges.old
        store.old imports.old includes.old levels.old result
        nodes.new edges.new store.new imports.new includes.new levels.new
        answer.new }
{
    graph_answer(
        image, bundle, true, nodes, edges, store, imports, includes, levels, answer,
    )
}

// The order of registration from a graph's tables, or a ring of nodes that wait for each other.
pub fn nuvaleta_order(
    nodes: &[u32],
    n: usize,
    edges: &[u32],
    m: usize,
    table: &mut [u32],
    answer: &mut [u32; 2],
) -> u32
    ensures { OrderAnswered nodes.now n edges.now m table.old result
        table.new answer.new }
{
    let ordered = order::order(nodes, n, edges, m, table);
    let number = ordered.number();
    *answer = host_words::order_words(number, ordered.length);
    number
}

// Whether a list holds each node of a graph once and breaks no edge.
pub fn nuvaleta_order_check(
    nodes: &[u32],
    n: usize,
    edges: &[u32],
    m: usize,
    list: &[u32],
    answer: &mut [u32; 2],
) -> u32
    ensures { CheckAnswered nodes.now n edges.now m list.now result answer.new }
{
    let checked = order::order_check(nodes, n, edges, m, list);
    let number = checked.number();
    *answer = host_words::order_words(number, checked.place);
    number
}
