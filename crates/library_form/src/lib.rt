// Numbers and names of the library image, read at a place: seven-bit groups, and a number with as many bytes after it.
#![tactic(auto)]

ghost use Rattle.std.specs.Prelude.{◌≡◌};
ghost use Rattle.std.specs.List.{list_all};
ghost use Rattle.library_form.specs.Form.{number_at, number_seen, fine_byte, name_at, name_seen};

// A byte of this value or more has its top bit set: another group of seven bits follows. A 1 in the second group is worth as much.
const TOP_BIT: usize = 128;

// What a 1 in the third group is worth.
const THIRD: usize = 16384;

// How many bytes a name has at the most.
pub const MOST_NAME: usize = 128;

// A name has bytes from the first of these to the second: what can be printed, but no blank.
const LEAST_BYTE: u8 = 33;

const MOST_BYTE: u8 = 126;

// Where an image or a bundle breaks its form.
pub type WrongAt = usize;

// A place in an image or a bundle.
#[derive(Clone, Copy)]
pub struct ImageCursor {
    pub at: usize,
}

// Whether all bytes may stand in a name.
fn printable(name: &[u8]) -> bool
    ensures { result ≡ list_all fine_byte name.now }
{
    name.iter().all(|b| (LEAST_BYTE..=MOST_BYTE).contains(b))
}

impl ImageCursor {
    // The number that starts here: up to three groups, in the shortest form. If anything is wrong with it, it is wrong at its first byte.
    pub fn number(self, s: &[u8]) -> Result<(usize, ImageCursor), WrongAt>
        ensures { number_seen result ≡ number_at s.now self.at }
    {
        let at = self.at;
        let Some(&a) = s.get(at) else {
            return Err(at);
        };
        let a = usize::from(a);
        if a < TOP_BIT {
            return Ok((a, ImageCursor { at: at + 1 }));
        }
        let second = at + 1;
        let Some(&b) = s.get(second) else {
            return Err(at);
        };
        let b = usize::from(b);
        if b == 0 {
            return Err(at);
        }
        if b < TOP_BIT {
            return Ok((a - TOP_BIT + TOP_BIT * b, ImageCursor { at: second + 1 }));
        }
        let third = second + 1;
        let Some(&c) = s.get(third) else {
            return Err(at);
        };
        let c = usize::from(c);
        if c == 0 || TOP_BIT <= c {
            return Err(at);
        }
        Ok((
            a - TOP_BIT + TOP_BIT * (b - TOP_BIT) + THIRD * c,
            ImageCursor { at: third + 1 },
        ))
    }

    // The name whose length starts here. If anything is wrong with it, it is wrong where its length starts.
    pub fn name(self, s: &[u8]) -> Result<(usize, usize), WrongAt>
        ensures { name_seen s.now result ≡ name_at s.now self.at }
    {
        let (len, next) = self.number(s)?;
        let first = next.at;
        if len < 1 || MOST_NAME < len || s.len() - first < len {
            return Err(self.at);
        }
        if !printable(&s[first..first + len]) {
            return Err(self.at);
        }
        Ok((first, len))
    }
}
