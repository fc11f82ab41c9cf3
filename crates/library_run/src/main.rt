// Replays recorded finds of the Rust, and answers a few questions about images and bundles that are easy to get wrong.
#![tactic(auto)]

use library_form::WrongAt;
use std::io;

// What a find answers.
type Found = Result<Option<(usize, usize)>, WrongAt>;

// Whether a find answers the recorded place and revisions. Where the Rust found nothing it tells no place.
fn agrees(found: Found, place: u32, revisions: u32) -> bool {
    match found {
        Err(_) => false,
        Ok(None) => place == replay::NOT_FOUND,
        Ok(Some(hit)) => hit == (place as usize, revisions as usize),
    }
}

// A record: image, name, and the places of the module, the submodule and the import-only module, and the last one's revisions.
fn record_agrees(data: &[u8], at: usize) -> bool {
    let name_at = replay::after(data, at);
    let image = replay::field(data, at);
    let name = replay::field(data, name_at);
    let told = replay::field(data, replay::after(data, name_at));
    agrees(
        library_find::find_module(image, name),
        replay::word(told, 0),
        0,
    ) && agrees(
        library_find::find_submodule(image, name),
        replay::word(told, 4),
        0,
    ) && agrees(
        library_find::find_import_module(image, name),
        replay::word(told, 8),
        replay::word(told, 12),
    )
}

fn import_only_submodule<R: Print>(rt: &R) -> io::Result<()> {
    replay::trap(
        rt,
        b"a submodule of an import-only module is not found",
        library_find::find_submodule(b"\x01\x00\x01\x01i\x01\x01\x01s", b"s") == Ok(None),
    )
}

fn count_without_sets<R: Print>(rt: &R) -> io::Result<()> {
    replay::trap(
        rt,
        b"a count of sets without its sets is wrong at the end",
        library_find::find_module(b"\x01", b"m") == Err(1),
    )
}

fn empty_name<R: Print>(rt: &R) -> io::Result<()> {
    replay::trap(
        rt,
        b"an empty name is not found",
        library_find::find_module(b"\x01\x01\x01m\x00\x00\x00\x00", b"") == Ok(None),
    )
}

fn text_is(bundle: &[u8], name: &[u8], text: &[u8]) -> bool {
    library_bundle::text_under(bundle, name) == text
}

// A bundle of two texts: that of m has three bytes, that of s none.
fn text_under_a_name<R: Print>(rt: &R) -> io::Result<()> {
    replay::trap(
        rt,
        b"the text under a name is handed back",
        text_is(b"\x02\x01m\x03abc\x01s\x00", b"m", b"abc"),
    )
}

// s has an empty text in this bundle, and x has none.
fn told_apart(bundle: &[u8]) -> bool {
    text_is(bundle, b"s", b"")
        && text_is(bundle, b"x", b"")
        && library_bundle::find_text(bundle, b"s") != Ok(None)
        && library_bundle::find_text(bundle, b"x") == Ok(None)
}

fn empty_text<R: Print>(rt: &R) -> io::Result<()> {
    replay::trap(
        rt,
        b"an empty text is not a missing one, though both are handed back as no bytes",
        told_apart(b"\x02\x01m\x03abc\x01s\x00"),
    )
}

// The text of m has a byte less than its length says.
fn wrong_there(bundle: &[u8]) -> bool {
    text_is(bundle, b"m", b"") && library_bundle::find_text(bundle, b"m") == Err(3)
}

fn text_cut_short<R: Print>(rt: &R) -> io::Result<()> {
    replay::trap(
        rt,
        b"a text cut short is wrong at its length",
        wrong_there(b"\x01\x01m\x04abc"),
    )
}

fn main(rt: HostRuntime) -> io::Result<()> {
    // A record has three fields.
    let mut space = [0u8; 131072];
    let n = replay::read_file(&rt, b"finds.vec", &mut space)?;
    let run = replay::replay_all(&space[..n], |data, at| {
        (record_agrees(data, at), replay::after_fields(data, at, 3))
    });
    run.say(&rt, b" finds")?;
    import_only_submodule(&rt)?;
    count_without_sets(&rt)?;
    empty_name(&rt)?;
    text_under_a_name(&rt)?;
    empty_text(&rt)?;
    text_cut_short(&rt)
}
