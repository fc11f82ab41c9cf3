// Reads one text from standard input and writes its imports and includes, or why they are refused.
#![tactic(auto)]

use std::io;

// The longest input, and room for one byte more, which tells that there is more.
const MOST: usize = 32768;

fn say<R: Print>(rt: &R, s: &[u8]) -> io::Result<()> {
    let mut store = [0u8; MOST];
    let mut imports = [0u32; 1792];
    let mut includes = [0u32; 1280];
    let mut page = [0u8; MOST + scan_page::PAGE_MORE];
    let printed = scan_page::print_yang_dependencies(
        false,
        s,
        &mut store,
        &mut imports,
        &mut includes,
        &mut page,
    );
    match printed.parsed {
        Ok(_) => rt.write_all(text_lent::first(&page, printed.length)),
        Err(r) => host_input::say_refused(rt, r),
    }
}

fn main(rt: HostRuntime) -> io::Result<()> {
    let mut input = [0u8; MOST + 1];
    let n = host_input::read_full(&mut rt.stdin(), &mut input)?;
    if MOST < n {
        return host_input::say_too_long(&rt);
    }
    say(&rt, text_lent::first(&input, n))
}
