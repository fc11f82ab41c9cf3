// Reads one text from standard input and writes its metadata, a line for each value that is present, or why it is refused.
#![tactic(auto)]

use scan_rows::Span;
use std::io;
use text::Reason;

// The longest input, and room for one byte more, which tells that there is more.
const MOST: usize = 131072;

fn say_value<R: Print>(rt: &R, label: &[u8], store: &[u8], x: Span) -> io::Result<()> {
    if x.present {
        rt.write_all(label)?;
        rt.write_all(scan_rows::value_in(store, x))?;
        rt.write_all(b"\n")?;
    }
    Ok(())
}

fn say<R: Print>(rt: &R, s: &[u8]) -> io::Result<()> {
    let mut store = [0u8; MOST];
    let read = scan_metadata::extract_yang_metadata(false, s, &mut store);
    if read.answer.reason != Reason::NOTHING {
        return host_input::say_refused(rt, read.answer);
    }
    let values = read.values;
    say_value(rt, b"name: ", &store, values[scan_metadata::NAME_VALUE])?;
    say_value(
        rt,
        b"belongs to: ",
        &store,
        values[scan_metadata::PARENT_VALUE],
    )?;
    say_value(
        rt,
        b"namespace: ",
        &store,
        values[scan_metadata::NAMESPACE_VALUE],
    )?;
    say_value(rt, b"prefix: ", &store, values[scan_metadata::PREFIX_VALUE])?;
    say_value(
        rt,
        b"first revision: ",
        &store,
        values[scan_metadata::FIRST_VALUE],
    )?;
    say_value(
        rt,
        b"newest revision: ",
        &store,
        values[scan_metadata::NEWEST_VALUE],
    )
}

fn main(rt: HostRuntime) -> io::Result<()> {
    let mut input = [0u8; MOST + 1];
    let n = host_input::read_full(&mut rt.stdin(), &mut input)?;
    if MOST < n {
        return host_input::say_too_long(&rt);
    }
    say(&rt, text_lent::first(&input, n))
}
