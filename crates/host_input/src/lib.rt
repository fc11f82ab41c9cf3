// What a program reads, standard input or a file, into what is lent; and what it says of an input that is refused.
#![tactic(auto)]

ghost use Rattle.std.specs.Prelude.{◌≡◌, ◌<◌, ℕ, length, take, IfOk, OnErr};
ghost use Rattle.std.specs.Io.{ReadsAtMost};
ghost use Rattle.std.specs.Io.KnownBytes.{Consumes, IsAtEnd};

use std::io;
use std::io::Read;
use text::Refusal;

// Reads until the space is full or the input ends, and answers how many bytes it read, which stand at the front of the space. Where a read fails, its error is
// the answer, and what was read before it stands there.
pub fn read_full<R: Read>(from: &mut R, space: &mut [u8]) -> io::Result<usize>
    ensures bound { ReadsAtMost result space.new }
    ensures bytes { IfOk result (λ n. Consumes (R.remaining from.old) (R.remaining from.new) (take n space.new)) }
    ensures end { IfOk result (λ n. n < length space.new → IsAtEnd (R.remaining from.new)) }
    ensures failed { OnErr result ((n : ℕ) × Consumes (R.remaining from.old) (R.remaining from.new) (take n space.new)) }
    ensures room { length space.new ≡ length space.old }
{
    let mut done = 0;
    while done < space.len() {
        let n = from.read(&mut space[done..])?;
        if n == 0 {
            return Ok(done);
        }
        done += n;
    }
    Ok(done)
}

// Says why a text is refused.
pub fn say_refused<R: Print>(rt: &R, r: Refusal) -> io::Result<()> {
    say_line(rt, |line| scan_line::print_refused(r, line))
}

// Says that an input is too long.
pub fn say_too_long<R: Print>(rt: &R) -> io::Result<()> {
    say_line(rt, |line| scan_line::print_too_long(line))
}

// Says the line that `print` puts on a page. It answers how long the line is.
fn say_line<R: Print, F: FnOnce(&mut [u8; scan_line::LINE]) -> usize>(
    rt: &R,
    print: F,
) -> io::Result<()>
    requires { F.IsAlwaysCallable print }
{
    let mut line = [0; scan_line::LINE];
    let n = print(&mut line);
    rt.write_all(text_lent::first(&line, n))
}
