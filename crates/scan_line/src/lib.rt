// Lines on a page that the caller lends: bytes, a number in decimal, the line of a refusal. Each `put` writes at a place and answers the place behind what it
// wrote.
#![tactic(auto)]

ghost use Rattle.std.specs.Prelude.{◌≡◌, ◌++◌, ◌+◌, ◌≤◌, ◌<◌, length};
ghost use Rattle.std.proofs.lemmas.List.Edits.{sets};
ghost use Rattle.scan_line.specs.Line.{digit, decimal};
ghost use Rattle.scan_line.specs.Refused.{refused_line, too_long_line};
ghost use Rattle.scan_line.specs.Wrote.{Wrote};

use text::Refusal;

// These bytes.
// By a loop: `copy_from_slice` calls memmove, and include/nuvaleta.h promises that of the C library only memcpy and memset are needed.
pub fn put(page: &mut [u8], at: usize, bytes: &[u8]) -> usize
    requires { at + length bytes.now ≤ length page.old }
    ensures { Wrote page.old at bytes.now page.new result }
{
    let mut i = 0;
    let mut n = at;
    while i < bytes.len() {
        page[n] = bytes[i];
        n += 1;
        i += 1;
    }
    n
}

// A digit's byte.
fn digit_of(n: usize) -> u8
    requires { n < 10 }
    ensures { result ≡ digit n }
{
    n as u8 + b'0'
}

// A number in decimal.
fn put_decimal(page: &mut [u8], at: usize, n: usize) -> usize
    requires { at + length (decimal n) ≤ length page.old }
    ensures { Wrote page.old at (decimal n) page.new result }
{
    if n < 10 {
        page[at] = digit_of(n);
        return at + 1;
    }
    let last = put_decimal(page, at, n / 10);
    page[last] = digit_of(n % 10);
    last + 1
}

// A label, and a number behind it.
pub fn put_number(page: &mut [u8], at: usize, label: &[u8], n: usize) -> usize
    requires { at + length (label.now ++ decimal n) ≤ length page.old }
    ensures { Wrote page.old at (label.now ++ decimal n) page.new result }
{
    let digits = put(page, at, label);
    put_decimal(page, digits, n)
}

// Room for the line of any refusal: it has 62 bytes at the most.
pub const LINE: usize = 64;

// The line of a refusal with this number, keyword and place, from the first byte of the page on, and its length.
fn put_refused(page: &mut [u8; LINE], number: u32, keyword: u32, at: usize) -> usize
    ensures as_long { 64 ≡ length page.new }
    ensures line { (result ≡ length (refused_line (record { number = number; keyword = keyword; at = at })))
        × (page.new ≡ sets page.old 0 (refused_line (record { number = number; keyword = keyword; at = at }))) }
{
    let first = put_number(page, 0, b"refused ", number as usize);
    let second = put_number(page, first, b" keyword ", keyword as usize);
    let third = put_number(page, second, b" at ", at);
    put(page, third, b"\n")
}

// The line of a refusal, from the first byte of the page on, and its length. That the page is as long as before is said for a caller who lends it on.
pub fn print_refused(x: Refusal, page: &mut [u8; LINE]) -> usize
    ensures as_long { 64 ≡ length page.new }
    ensures line { (result ≡ length (refused_line x)) × (page.new ≡ sets page.old 0 (refused_line x)) }
{
    put_refused(page, x.number(), x.keyword, x.at)
}

// The line of an input that is too long for a program, from the first byte of the page on, and its length.
pub fn print_too_long(page: &mut [u8; LINE]) -> usize
    ensures { (result ≡ length too_long_line) × (page.new ≡ sets page.old 0 too_long_line) }
{
    put(page, 0, b"input too long\n")
}
