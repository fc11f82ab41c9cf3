// One text, one cursor: the classes of bytes, gaps, keywords, a required byte. The Rust's parser with `&mut self` is a cursor by value
// here: each function takes the place and answers the next one.
// A function that needs a class is lent the table of classes.
#![tactic(auto)]

ghost use Rattle.std.specs.Prelude.{◌≡◌, true, ◌<◌, drop};
ghost use Rattle.text.specs.Bytes.{look, the_end};
ghost use Rattle.text.specs.Class.{class_of, class_table};
ghost use Rattle.text.specs.Scan.{in_ident, in_run, run_end, block_end, pair_at, comment_end, gap_end};
ghost use Rattle.text.specs.Keyword.{starts_ident, ends_keyword, wordly, begins, match_at, or_match};
ghost use Rattle.text.specs.Due.{due_here, due_at};
ghost use Rattle.text.specs.Refusal.{no_refusal, refusal_of, cut_at, is_high, high_at, refused_at};

use std::marker::Model;

// What stands at a place: a byte, or the end. A number and no Option: the theorems' `look` is that number, 256 for the end.
pub const NEWLINE: u16 = b'\n' as u16;

pub const QUOTE: u16 = b'"' as u16;

pub const APOSTROPHE: u16 = b'\'' as u16;

pub const STAR: u16 = b'*' as u16;

pub const PLUS: u16 = b'+' as u16;

pub const HYPHEN: u16 = b'-' as u16;

pub const DOT: u16 = b'.' as u16;

pub const SLASH: u16 = b'/' as u16;

pub const COLON: u16 = b':' as u16;

pub const SEMICOLON: u16 = b';' as u16;

pub const UNDERSCORE: u16 = b'_' as u16;

pub const OPEN_BRACE: u16 = b'{' as u16;

pub const CLOSE_BRACE: u16 = b'}' as u16;

pub const END: u16 = 256;

// Bytes from 128 on are refused (3) outside strings and comments.
const HIGH: u16 = 128;

// The classes of bytes. Numbers and no enum: the table of specs/Class.antt holds them, and a table of an enum reads no plainer.
pub const OTHER: u8 = 0;

pub const WHITE: u8 = 1;

pub const LETTER: u8 = 2;

pub const DIGIT: u8 = 3;

// How many byte values the table has.
const LOW: u16 = 128;

// The class of each of the 128 byte values.
const CLASSES: [u8; 128] = [
    0, 0, 0, 0, 0, 0, 0, 0, 0, 1, 1, 1, 1, 1, 0, 0, 0, 0, 0, 0, 0, 0, 0, 0, 0, 0, 0, 0, 0, 0, 0, 0,
    1, 0, 0, 0, 0, 0, 0, 0, 0, 0, 0, 0, 0, 0, 0, 0, 3, 3, 3, 3, 3, 3, 3, 3, 3, 3, 0, 0, 0, 0, 0, 0,
    0, 2, 2, 2, 2, 2, 2, 2, 2, 2, 2, 2, 2, 2, 2, 2, 2, 2, 2, 2, 2, 2, 2, 2, 2, 2, 2, 0, 0, 0, 0, 0,
    0, 2, 2, 2, 2, 2, 2, 2, 2, 2, 2, 2, 2, 2, 2, 2, 2, 2, 2, 2, 2, 2, 2, 2, 2, 2, 2, 0, 0, 0, 0, 0,
];

// The table of the classes of bytes, and no other. Whoever is called from outside takes it once, `let classes = text::classes();`, and lends it down.
#[derive(Clone, Copy)]
pub struct ByteClasses {
    table: [u8; 128],
}

impl Model for ByteClasses {
    ghost use Rattle.std.specs.Prelude.{ℕ, List, ◌≡◌};
    ghost use Rattle.text.specs.Class.{class_table};

    ghost Value = { List ℕ };

    ghost view = { λ c. c.table };

    ghost invariant = { λ c. c.table ≡ class_table };

    ghost inverse = { λ t. record { table = t } };
}

pub fn classes() -> ByteClasses
    ensures { result ≡ class_table }
{
    ByteClasses { table: CLASSES }
}

impl ByteClasses {
    // The same of an array that is this table, and the array of it: the class of each of the 128 byte values.
    pub fn of(table: [u8; 128]) -> ByteClasses
        requires { table ≡ class_table }
        ensures { result ≡ class_table }
    {
        ByteClasses { table }
    }

    pub fn table(self) -> [u8; 128]
        ensures { result ≡ class_table }
    {
        self.table
    }
}

// The class of what stands at a place: a byte, or 256 for the end. Whatever is 128 or more is other.
pub fn class(classes: &ByteClasses, b: u16) -> u8
    ensures { result ≡ class_of b }
{
    if b < LOW {
        classes.table[b as usize]
    } else {
        OTHER
    }
}

// A place in a text. The Rust's advance is `at + 1` here, and its is_eof is that the end stands here.
#[derive(Clone, Copy)]
pub struct Cursor {
    pub at: usize,
}

// Why a text is refused: document 01's number, which is what contracts see, with a name for each. It is no enum: functions that take a refusal take it with any
// number, and an enum could hold only those that have a name.
#[derive(Clone, Copy, Debug, PartialEq, Eq)]
pub struct Reason(pub u32);

impl Reason {
    // Nothing is refused.
    pub const NOTHING: Reason = Reason(0);

    pub const TEXT_TOO_LONG: Reason = Reason(1);

    pub const LENT_TOO_SHORT: Reason = Reason(2);

    // A byte of 128 or more outside strings and comments.
    pub const HIGH_BYTE: Reason = Reason(3);

    // No value after the keyword.
    pub const NO_VALUE: Reason = Reason(4);

    // Another byte than the one required, and the end instead of it.
    pub const OTHER_BYTE: Reason = Reason(5);

    pub const END_OF_TEXT: Reason = Reason(6);

    // An import that its block closes without a prefix.
    pub const NO_PREFIX: Reason = Reason(7);

    // The end inside a block.
    pub const OPEN_ENDED: Reason = Reason(8);

    // A module without a name.
    pub const NO_NAME: Reason = Reason(9);

    // A row too many.
    pub const TOO_MANY: Reason = Reason(10);

    // The text breaks off.
    pub const CUT_SHORT: Reason = Reason(11);

    pub const NOT_UTF8: Reason = Reason(12);
}

// A refusal: why, its keyword's number and its place. Contracts see the number of the reason.
#[derive(Clone, Copy)]
pub struct Refusal {
    pub reason: Reason,
    pub keyword: u32,
    pub at: usize,
}

impl Model for Refusal {
    ghost use Rattle.text.specs.Refused.{Refused};

    ghost Value = { Refused };

    ghost use Rattle.text.specs.Reasons.{seen, unseen};

    ghost view = { seen };

    ghost inverse = { unseen };
}

impl Refusal {
    // Document 01's number of the reason.
    pub fn number(self) -> u32
        ensures { result ≡ self.number }
    {
        self.reason.0
    }
}

// Document 01's numbers of the keywords.
pub const MODULE: u32 = 1;

pub const SUBMODULE: u32 = 2;

pub const BELONGS_TO: u32 = 3;

pub const NAMESPACE: u32 = 4;

pub const PREFIX: u32 = 5;

pub const YANG_VERSION: u32 = 6;

pub const REVISION: u32 = 7;

pub const IMPORT: u32 = 8;

pub const INCLUDE: u32 = 9;

pub const REVISION_DATE: u32 = 10;

// Number, keyword and place are 0 where nothing is refused.
pub fn no_refusal() -> Refusal
    ensures { result ≡ no_refusal }
{
    Refusal {
        reason: Reason::NOTHING,
        keyword: 0,
        at: 0,
    }
}

// The refusal of a text that breaks off: keyword 0, at the text's end.
pub fn cut_short(end: usize) -> Refusal
    ensures { result ≡ cut_at end }
{
    Refusal {
        reason: Reason::CUT_SHORT,
        keyword: 0,
        at: end,
    }
}

// The refusal that an answer is, or none.
pub fn refusal_of<T: Copy>(answer: Result<T, Refusal>) -> Refusal
    ensures { result ≡ refusal_of answer }
{
    match answer {
        Ok(_) => no_refusal(),
        Err(r) => r,
    }
}

// Whether a byte of 128 or more stands at a place. The end is none.
#[tactic(auto, unfolding(crate::specs::Refusal::is_high))]
pub fn is_high(b: u16) -> bool
    ensures { result ≡ is_high b }
{
    HIGH <= b && b != END
}

// The refusal of such a byte: keyword 0, at the byte.
pub fn high_byte(at: usize) -> Refusal
    ensures { result ≡ high_at at }
{
    Refusal {
        reason: Reason::HIGH_BYTE,
        keyword: 0,
        at,
    }
}

// The refusal of what stands at a place: of a byte of 128 or more (3), else for this reason with the keyword.
#[tactic(auto, unfolding(crate::specs::Refusal::refused_at))]
pub fn refused_at(b: u16, reason: Reason, keyword: u32, at: usize) -> Refusal
    ensures { result ≡ refused_at b reason.0 keyword at }
{
    if is_high(b) {
        return high_byte(at);
    }
    Refusal {
        reason,
        keyword,
        at,
    }
}

impl Cursor {
    // Past the gap that stands here: white bytes and comments.
    pub fn skip_whitespace_and_comments(self, classes: &ByteClasses, s: &[u8]) -> Cursor
        ensures { result.at ≡ gap_end s.now self.at }
    {
        let mut at = self.at;
        loop {
            let white = run_end(classes, Run::White, s, at);
            let next = comment_end(classes, s, white);
            if next == white {
                return Cursor { at: white };
            }
            at = next;
        }
    }
    // Past the keyword `word`, where it stands here as a whole identifier. No byte that ends a keyword belongs to one, so it is enough that
    // the bytes here begin with the word: `begins` and `ends_keyword` together are the Rust's peek_identifier and its comparison.
    pub fn match_keyword(self, classes: &ByteClasses, s: &[u8], word: &[u8]) -> Option<Cursor>
        requires { wordly word.now ≡ true }
        ensures { result ≡ match_at s.now self.at word.now }
    {
        if !begins(s, self.at, word) {
            return None;
        }
        let end = self.at + word.len();
        ends_keyword(classes, peek_char(s, end)).then_some(Cursor { at: end })
    }
    // Past the byte b after a gap. The refusal has the keyword that b is due for, and stands after the gap; a byte of 128 or more is 3.
    #[tactic(auto, unfolding(crate::specs::Due::due_at))]
    pub fn expect_char(
        self,
        classes: &ByteClasses,
        s: &[u8],
        b: u16,
        keyword: u32,
    ) -> Result<Cursor, Refusal>
        requires { b < the_end }
        ensures { result ≡ due_at s.now self.at b keyword }
    {
        let next = self.skip_whitespace_and_comments(classes, s);
        next.expect_here(s, b, keyword)
    }
    // The same where the gap was passed already.
    #[tactic(auto, unfolding(crate::specs::Due::due_here, crate::specs::Due::due_number, crate::specs::Refusal::refused_at, crate::specs::Refusal::is_high))]
    pub fn expect_here(self, s: &[u8], b: u16, keyword: u32) -> Result<Cursor, Refusal>
        requires { b < the_end }
        ensures { result ≡ due_here s.now self.at b keyword }
    {
        match peek_char(s, self.at) {
            c if c == b => Ok(Cursor { at: self.at + 1 }),
            END => Err(Refusal {
                reason: Reason::END_OF_TEXT,
                keyword,
                at: self.at,
            }),
            c => Err(refused_at(c, Reason::OTHER_BYTE, keyword, self.at)),
        }
    }
}

// Past the word where it stands here, else what is given.
#[tactic(auto, unfolding(crate::specs::Keyword::or_match))]
pub fn or_word(
    here: Cursor,
    classes: &ByteClasses,
    s: &[u8],
    word: &[u8],
    m: Option<Cursor>,
) -> Option<Cursor>
    requires { wordly word.now ≡ true }
    ensures { result ≡ or_match (match_at s.now here.at word.now) m }
{
    here.match_keyword(classes, s, word).or(m)
}

// The kinds of runs: white bytes, the rest of a line, an identifier's bytes, a name's bytes.
#[derive(Clone, Copy)]
pub enum Run {
    White,
    Line,
    Ident,
    Name,
}

// The place after the run that stands at a place. The place is the answer: with `for` the compiler kept a second counter beside it, and white bytes took longer.
pub fn run_end(classes: &ByteClasses, k: Run, s: &[u8], at: usize) -> usize
    ensures { result ≡ run_end k s.now at }
{
    let mut i = at;
    while i < s.len() {
        if !in_run(classes, k, s[i] as u16) {
            return i;
        }
        i += 1;
    }
    i
}

// Whether what stands at a place, and is not the end, belongs to a run.
#[tactic(auto, unfolding(crate::specs::Scan::in_run))]
fn in_run(classes: &ByteClasses, k: Run, b: u16) -> bool
    ensures { result ≡ in_run k b }
{
    match k {
        Run::White => class(classes, b) == WHITE,
        Run::Line => b != NEWLINE,
        Run::Ident => in_ident(classes, b),
        Run::Name => in_ident(classes, b) || b == COLON,
    }
}

// The place after the comment that stands at a place, or that place where none does.
#[tactic(auto, using(crate::proofs::Laws::pair_room), unfolding(crate::specs::Scan::comment_end))]
fn comment_end(classes: &ByteClasses, s: &[u8], at: usize) -> usize
    ensures { result ≡ comment_end s.now at }
{
    if pair_at(s, at, SLASH, SLASH) {
        return run_end(classes, Run::Line, s, at + 2);
    }
    if pair_at(s, at, SLASH, STAR) {
        return block_end(s, at + 2);
    }
    at
}

// The place after the first */ at or after a place, or the end.
fn block_end(s: &[u8], at: usize) -> usize
    ensures { result ≡ block_end s.now at }
{
    for i in at..s.len() {
        if pair_at(s, i, STAR, SLASH) {
            return i + 2;
        }
    }
    at.max(s.len())
}

// Whether the bytes at a place begin with a word. By a loop: the library's `starts_with` was tried, and keywords took a quarter longer with it.
fn begins(s: &[u8], at: usize, word: &[u8]) -> bool
    ensures { result ≡ begins word.now (drop at s.now) }
{
    let rest = &s[at.min(s.len())..];
    if rest.len() < word.len() {
        return false;
    }
    for i in 0..word.len() {
        if rest[i] != word[i] {
            return false;
        }
    }
    true
}

// Whether a keyword ends before this: white, {, ;, a quote, or the end.
#[tactic(auto, unfolding(crate::specs::Keyword::ends_keyword))]
fn ends_keyword(classes: &ByteClasses, b: u16) -> bool
    ensures { result ≡ ends_keyword b }
{
    class(classes, b) == WHITE || matches!(b, QUOTE | APOSTROPHE | SEMICOLON | OPEN_BRACE | END)
}

// Whether an identifier begins so: a letter or _. Each way out is a constant, so that the compiler asks once of each byte and not again where it was answered;
// with `||` a one-byte token took half as many instructions more.
#[tactic(auto, unfolding(crate::specs::Keyword::starts_ident))]
pub fn starts_ident(classes: &ByteClasses, b: u16) -> bool
    ensures { result ≡ starts_ident b }
{
    match class(classes, b) {
        LETTER => true,
        _ if b == UNDERSCORE => true,
        _ => false,
    }
}

// Whether an identifier goes on so: a letter, a digit, _, - or a dot.
#[tactic(auto, unfolding(crate::specs::Scan::in_ident))]
fn in_ident(classes: &ByteClasses, b: u16) -> bool
    ensures { result ≡ in_ident b }
{
    matches!(class(classes, b), LETTER | DIGIT) || matches!(b, UNDERSCORE | HYPHEN | DOT)
}

// What stands at a place: the byte, or the end.
pub fn peek_char(s: &[u8], at: usize) -> u16
    ensures { result ≡ look s.now at }
{
    if at < s.len() { s[at] as u16 } else { END }
}

// Whether the two bytes at a place are b and c: the Rust's peek_chars(2) and its comparison.
#[tactic(auto, unfolding(crate::specs::Scan::pair_at))]
fn pair_at(s: &[u8], at: usize, b: u16, c: u16) -> bool
    requires { (b < the_end) × (c < the_end) }
    ensures { result ≡ pair_at s.now at b c }
{
    peek_char(s, at) == b && peek_char(s, at + 1) == c
}
