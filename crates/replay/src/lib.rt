// What the programs that replay recorded answers share: the fields of a file, a run over its records, and what is said of it.
#![tactic(auto)]

ghost use Rattle.std.specs.Prelude.{◌≡◌, ◌+◌, ◌%◌, ◌<◌, ◌≤◌, length, IfOk};
ghost use Rattle.std.specs.Io.{ReadsAtMost};
ghost use Rattle.replay.specs.Fields.{byte_at, length_at, missing_at, on_by, behind, field_at, word_at};
ghost use Rattle.replay.specs.Records.{number_told_as, refusal_told_as, words_told_as, behind_all, begun, passed, RunsThrough};

use std::fs::File;
use std::io;
use std::rt::Files;
use text::{Reason, Refusal};

// No file of records is longer.
const MOST_FILE: usize = 524288;

const MISSING: u16 = u16::MAX;

// Stands for the place of a name that the Rust does not find.
pub const NOT_FOUND: u32 = 4294967295;

// The Rust's one error for refusals 5 and 6 after an include's value.
const FIVE_OR_SIX: u32 = 56;

// The byte at a place, 0 behind the end.
fn byte(d: &[u8], at: usize) -> u8
    ensures { result ≡ byte_at d.now at }
{
    d.get(at).copied().unwrap_or(0)
}

// The place `n` bytes on, or the end.
#[tactic(auto, unfolding(crate::specs::Fields::on_by))]
fn on_by(d: &[u8], at: usize, n: usize) -> usize
    ensures { result ≡ on_by d.now at n }
{
    at.saturating_add(n).min(d.len())
}

// The two bytes of a length.
#[tactic(auto, unfolding(crate::specs::Fields::length_at))]
fn length_at(d: &[u8], at: usize) -> u16
    ensures { result ≡ length_at d.now at }
{
    if at < d.len() {
        u16::from_le_bytes([byte(d, at), byte(d, at + 1)])
    } else {
        0
    }
}

// Whether the value at a place is missing.
#[tactic(auto, unfolding(crate::specs::Fields::missing_at))]
pub fn missing(d: &[u8], at: usize) -> bool
    ensures { result ≡ missing_at d.now at }
{
    length_at(d, at) == MISSING
}

// The place behind the field at a place.
#[tactic(auto, unfolding(crate::specs::Fields::behind, crate::specs::Fields::bytes_from))]
pub fn after(d: &[u8], at: usize) -> usize
    ensures { result ≡ behind d.now at }
{
    let from = on_by(d, at, 2);
    if missing(d, at) {
        from
    } else {
        on_by(d, from, usize::from(length_at(d, at)))
    }
}

// The bytes of the field at a place, none of a value that is missing.
pub fn field(d: &[u8], at: usize) -> &[u8]
    ensures { result.now ≡ field_at d.now at }
{
    &d[on_by(d, at, 2)..after(d, at)]
}

// The word at a place of a field.
#[tactic(auto, unfolding(crate::specs::Fields::word_at, crate::specs::Fields::four_bytes))]
pub fn word(f: &[u8], at: usize) -> u32
    ensures { result ≡ word_at f.now at }
{
    match f.get(at..).and_then(|rest| rest.first_chunk::<4>()) {
        Some(four) => u32::from_le_bytes(*four),
        None => 0,
    }
}

// Whether a number is the recorded one.
#[tactic(auto, unfolding(crate::specs::Records::number_told_as))]
fn number_told(recorded: u32, is: u32) -> bool
    ensures { result ≡ number_told_as recorded is }
{
    match recorded {
        FIVE_OR_SIX => is == Reason::OTHER_BYTE.0 || is == Reason::END_OF_TEXT.0,
        _ => recorded == is,
    }
}

// Whether a refusal is the recorded one: number, keyword and position, from a place on.
#[tactic(auto, unfolding(crate::specs::Records::refusal_told_as))]
pub fn refusal_agrees(answer: &[u8], at: usize, r: Refusal) -> bool
    requires { at ≤ 4 }
    ensures { result ≡ refusal_told_as answer.now at r }
{
    number_told(word(answer, at), r.number())
        && word(answer, at + 4) == r.keyword
        && word(answer, at + 8) == (r.at % 4294967296) as u32
}

// Whether words of a table are those that are recorded from a place on: each, or each second one and so on, by the step.
pub fn words_agree(f: &[u8], first: usize, table: &[u32], step: usize) -> bool
    requires { 0 < step }
    ensures { result ≡ words_told_as f.now first table.now step }
{
    let mut at = first;
    let mut i: usize = 0;
    // No `step_by`: it tells its items by products of places and the step, and the definition goes on by sums.
    while i < table.len() {
        if word(f, at) != table[i] {
            return false;
        }
        if table.len() - i <= step {
            return true;
        }
        at = on_by(f, at, 4);
        i += step;
    }
    true
}

// The place behind so many fields.
pub fn after_fields(d: &[u8], at: usize, count: u64) -> usize
    ensures { result ≡ behind_all count d.now at }
{
    let mut next = at;
    for _ in 0..count {
        next = after(d, next);
    }
    next
}

// A run over the records of a file: the place of the next one, how many there were, and how many of them are answered otherwise.
#[derive(Clone, Copy)]
pub struct Tally {
    pub at: usize,
    pub records: u64,
    pub different: u64,
}

pub fn start() -> Tally
    ensures { result ≡ begun }
{
    Tally {
        at: 0,
        records: 0,
        different: 0,
    }
}

impl Tally {
    // One record more, which agrees or not, and the place behind it.
    pub fn past(self, agrees: bool, next: usize) -> Tally
        ensures { result ≡ passed self agrees next }
    {
        Tally {
            at: next,
            records: self.records.wrapping_add(1),
            different: if agrees {
                self.different
            } else {
                self.different.wrapping_add(1)
            },
        }
    }

    // Says how many records of a kind there were, and how many differ.
    pub fn say<R: Print>(self, rt: &R, kind: &[u8]) -> io::Result<()> {
        print!(rt; "{}", self.records)?;
        rt.write_all(kind)?;
        println!(rt; " replayed, {} different", self.different)
    }
}

// The run over all records of a file. `look` says of a record's place whether it agrees, and the place behind it. A record takes a byte at least.
pub fn replay_all<F: Fn(&[u8], usize) -> (bool, usize)>(d: &[u8], look: F) -> Tally
    requires { F.IsAlwaysCallable look }
    ensures { RunsThrough (λ s at r. F.post look s at r) d.now result }
{
    let mut run = start();
    for _ in 0..d.len() {
        if d.len() <= run.at {
            return run;
        }
        let (agrees, next) = look(d, run.at);
        run = run.past(agrees, next);
    }
    run
}

// The same of a file, by its name.
pub fn replay_file<R: Files, F: Fn(&[u8], usize) -> (bool, usize)>(
    rt: &R,
    name: &[u8],
    look: F,
) -> io::Result<Tally>
    requires { F.IsAlwaysCallable look }
{
    let mut space = [0u8; MOST_FILE];
    let n = read_file(rt, name, &mut space)?;
    Ok(replay_all(&space[..n], look))
}

// Says the same of a file, by its name.
pub fn say_file<R: Print>(rt: &R, name: &[u8], run: Tally) -> io::Result<()> {
    rt.write_all(name)?;
    rt.write_all(b": ")?;
    run.say(rt, b"")
}

// A file's name as std takes it: a name that is no UTF-8 text opens no file.
fn path_of(name: &[u8]) -> io::Result<&str>
    ensures { IfOk result (λ path. path.now ≡ name.now) }
{
    match str::from_utf8(name) {
        Ok(path) => Ok(path),
        Err(_) => Err(io::Error::from(io::ErrorKind::InvalidInput)),
    }
}

// Reads a file into what is lent, until that is full or the file ends, and answers how many bytes it read. Where the file cannot be opened or read, the error
// is the answer.
pub fn read_file<R: Files>(rt: &R, name: &[u8], space: &mut [u8]) -> io::Result<usize>
    ensures bound { ReadsAtMost result space.new }
    ensures room { length space.new ≡ length space.old }
{
    let path = path_of(name)?;
    let mut file = File::open(rt, path)?;
    host_input::read_full(&mut file, space)
}

// Says whether something that is easy to get wrong is right.
pub fn trap<R: Print>(rt: &R, what: &[u8], right: bool) -> io::Result<()> {
    rt.write_all(what)?;
    if right {
        return rt.write_all(b": right\n");
    }
    rt.write_all(b": WRONG\n")
}
