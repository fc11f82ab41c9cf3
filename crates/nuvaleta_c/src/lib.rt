// The archive that a C or Rust host links, as include/nuvaleta.h declares it: each export is the function of the library of the same name, with its promises.
#![tactic(auto)]

ghost use Rattle.std.specs.Prelude.{true, false};
ghost use Rattle.nuvaleta.specs.Host.{DependenciesAnswered, PrintedAnswered};
ghost use Rattle.library_image.specs.Image.{image_broken};
ghost use Rattle.library_bundle.specs.Bundle.{bundle_broken, look_up};
ghost use Rattle.library_find.specs.Find.{find_module, find_submodule, find_import_module};
ghost use Rattle.host_words.specs.Words.{told_words};
ghost use Rattle.graph.specs.Nodes.{pass_over, complete};
ghost use Rattle.nuvaleta.specs.Finds.{Told};
ghost use Rattle.nuvaleta.specs.Graphs.{GraphAnswered};
ghost use Rattle.nuvaleta.specs.Orders.{OrderAnswered, CheckAnswered};
ghost use Rattle.nuvaleta.specs.Record.{MetadataAnswered};

// The imports and includes of a text.
#[unsafe(no_mangle)]
pub extern "C" fn nuvaleta_dependencies(
    text: &[u8],
    store: &mut [u8],
    imports: &mut [u32],
    includes: &mut [u32],
    answer: &mut [u32; 6],
) -> u32
    ensures { DependenciesAnswered false
        text.now store.old imports.old includes.old result
        store.new imports.new includes.new answer.new }
{
    nuvaleta::nuvaleta_dependencies(text, store, imports, includes, answer)
}

// The same of a text that must be whole: what is read of it and breaks off is refused (11).
#[unsafe(no_mangle)]
pub extern "C" fn nuvaleta_dependencies_whole(
    text: &[u8],
    store: &mut [u8],
    imports: &mut [u32],
    includes: &mut [u32],
    answer: &mut [u32; 6],
) -> u32
    ensures { DependenciesAnswered true
        text.now store.old imports.old includes.old result
        store.new imports.new includes.new answer.new }
{
    nuvaleta::nuvaleta_dependencies_whole(text, store, imports, includes, answer)
}

// The imports and includes of a text, and their printed form.
#[unsafe(no_mangle)]
pub extern "C" fn nuvaleta_printed(
    text: &[u8],
    store: &mut [u8],
    imports: &mut [u32],
    includes: &mut [u32],
    page: &mut [u8],
    answer: &mut [u32; 7],
) -> u32
    ensures { PrintedAnswered false
        text.now store.old imports.old includes.old page.old result
        store.new imports.new includes.new page.new answer.new }
{
    nuvaleta::nuvaleta_printed(text, store, imports, includes, page, answer)
}

// The same of a text that must be whole.
#[unsafe(no_mangle)]
pub extern "C" fn nuvaleta_printed_whole(
    text: &[u8],
    store: &mut [u8],
    imports: &mut [u32],
    includes: &mut [u32],
    page: &mut [u8],
    answer: &mut [u32; 7],
) -> u32
    ensures { PrintedAnswered true
        text.now store.old imports.old includes.old page.old result
        store.new imports.new includes.new page.new answer.new }
{
    nuvaleta::nuvaleta_printed_whole(text, store, imports, includes, page, answer)
}

// The metadata of a text.
#[unsafe(no_mangle)]
pub extern "C" fn nuvaleta_metadata(
    text: &[u8],
    store: &mut [u8],
    words: &mut [u32; 18],
    answer: &mut [u32; 4],
) -> u32
    ensures { MetadataAnswered false
        text.now store.old result store.new words.new answer.new }
{
    nuvaleta::nuvaleta_metadata(text, store, words, answer)
}

// The same of a text that must be whole.
#[unsafe(no_mangle)]
pub extern "C" fn nuvaleta_metadata_whole(
    text: &[u8],
    store: &mut [u8],
    words: &mut [u32; 18],
    answer: &mut [u32; 4],
) -> u32
    ensures { MetadataAnswered true
        text.now store.old result store.new words.new answer.new }
{
    nuvaleta::nuvaleta_metadata_whole(text, store, words, answer)
}

// A module of an image by its name.
#[unsafe(no_mangle)]
pub extern "C" fn nuvaleta_find_module(image: &[u8], name: &[u8], answer: &mut [u32; 5]) -> u32
    ensures { Told (told_words image_broken (find_module image.now name.now)) result answer.new }
{
    nuvaleta::nuvaleta_find_module(image, name, answer)
}

// A submodule of an image's modules by its name.
#[unsafe(no_mangle)]
pub extern "C" fn nuvaleta_find_submodule(image: &[u8], name: &[u8], answer: &mut [u32; 5]) -> u32
    ensures { Told (told_words image_broken (find_submodule image.now name.now)) result answer.new }
{
    nuvaleta::nuvaleta_find_submodule(image, name, answer)
}

// An import-only module of an image by its name, and how many revisions it has.
#[unsafe(no_mangle)]
pub extern "C" fn nuvaleta_find_import_module(
    image: &[u8],
    name: &[u8],
    answer: &mut [u32; 5],
) -> u32
    ensures { Told (told_words image_broken (find_import_module image.now name.now)) result answer.new }
{
    nuvaleta::nuvaleta_find_import_module(image, name, answer)
}

// Where the text under a name stands in a bundle.
#[unsafe(no_mangle)]
pub extern "C" fn nuvaleta_text(bundle: &[u8], name: &[u8], answer: &mut [u32; 5]) -> u32
    ensures { Told (told_words bundle_broken (look_up bundle.now name.now)) result answer.new }
{
    nuvaleta::nuvaleta_text(bundle, name, answer)
}

// The graph of an image and a bundle: a module whose name is already a node is passed over with its submodules.
#[unsafe(no_mangle)]
pub extern "C" fn nuvaleta_graph(
    image: &[u8],
    bundle: &[u8],
    nodes: &mut [u32],
    edges: &mut [u32],
    store: &mut [u8],
    imports: &mut [u32],
    includes: &mut [u32],
    levels: &mut [u32],
    answer: &mut [u32; 8],
) -> u32
    ensures { GraphAnswered pass_over
        image.now bundle.now nodes.old edges.old
        store.old imports.old includes.old levels.old result
        nodes.new edges.new store.new imports.new includes.new levels.new
        answer.new }
{
    nuvaleta::nuvaleta_graph(
        image, bundle, nodes, edges, store, imports, includes, levels, answer,
    )
}

// The same with the submodules of every listing and of every revision as nodes.
#[unsafe(no_mangle)]
pub extern "C" fn nuvaleta_graph_complete(
    image: &[u8],
    bundle: &[u8],
    nodes: &mut [u32],
    edges: &mut [u32],
    store: &mut [u8],
    imports: &mut [u32],
    includes: &mut [u32],
    levels: &mut [u32],
    answer: &mut [u32; 8],
) -> u32
    ensures { GraphAnswered complete
        image.now bundle.now nodes.old edges.old
        store.old imports.old includes.old levels.old result
        nodes.new edges.new store.new imports.new includes.new levels.new
        answer.new }
{
    nuvaleta::nuvaleta_graph_complete(
        image, bundle, nodes, edges, store, imports, includes, levels, answer,
    )
}

// The order of registration from a graph's tables, or a ring of nodes that wait for each other.
#[unsafe(no_mangle)]
pub extern "C" fn nuvaleta_order(
    nodes: &[u32],
    n: usize,
    edges: &[u32],
    m: usize,
    table: &mut [u32],
    answer: &mut [u32; 2],
) -> u32
    ensures { OrderAnswered nodes.now n edges.now m table.old result
        table.new answer.new }
{
    nuvaleta::nuvaleta_order(nodes, n, edges, m, table, answer)
}

// Whether a list holds each node of a graph once and breaks no edge.
#[unsafe(no_mangle)]
pub extern "C" fn nuvaleta_order_check(
    nodes: &[u32],
    n: usize,
    edges: &[u32],
    m: usize,
    list: &[u32],
    answer: &mut [u32; 2],
) -> u32
    ensures { CheckAnswered nodes.now n edges.now m list.now result answer.new }
{
    nuvaleta::nuvaleta_order_check(nodes, n, edges, m, list, answer)
}
