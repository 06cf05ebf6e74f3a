// Names, lists of names, and whom a NACK asks.
ghost use Rattle.std.specs.Prelude.{◌≡◌, [], map};
ghost use Rattle.frames.specs.Values.{name_ok, names_ok, asked_ok};
ghost use Rattle.frames.specs.Types.{meant, name_of, names_of, asked_of, NamesRest};
ghost use Rattle.frames.specs.Written.{name_bytes};
ghost use Rattle.frames.specs.Made.{AskedFrom, AskedAs, name_for};

use crate::refusal::Refusal;
use crate::table::Table;
use crate::types::{Level, Name, Names, RingSize, To};

impl Name {
    // The name with these fields, where they are in range for a ring of this size.
    // The level is the number that was sent, since one that the ring cannot meet is refused.
    pub fn new(size: RingSize, source: u8, number: u32, level: u8) -> Result<Name, Refusal>
        ensures { meant name_of result ≡ name_for size.heads (record { source = source; number = number; level = level }) }
    {
        match Level::new(level, size) {
            Ok(level) if source < size.heads && 1 <= number && number <= 500_000 => Ok(Name {
                source,
                number,
                level,
            }),
            _ => Err(Refusal::FieldOutOfRange),
        }
    }

    // Whether its fields are in range for a ring of this size.
    pub fn suits(self, size: RingSize) -> bool
        ensures { result ≡ name_ok size.heads (name_of self) }
    {
        self.source < size.heads && self.level.suits(size)
    }

    // Source (1), number (4), level (1).
    pub(crate) fn to_bytes(self) -> [u8; 6]
        ensures { result ≡ name_bytes (name_of self) }
    {
        let [a, b, c, d] = self.number.to_be_bytes();
        [self.source, a, b, c, d, self.level.number()]
    }
}

// Whether each of these names is in range for a ring of this size.
fn all_suit(names: &[Name], size: RingSize) -> bool
    ensures { result ≡ names_ok size.heads (map name_of names.now) }
{
    names.iter().all(|name| name.suits(size))
}

// Fills a place of Names that is not used.
const UNUSED: Name = Name {
    source: 0,
    number: 1,
    level: Level::Total,
};

impl Names {
    pub fn none() -> Names
        ensures answer { names_of result ≡ [] }
        ensures rest { NamesRest result }
    {
        Table::empty(UNUSED)
    }

    // Whether each is in range for a ring of this size.
    pub fn suit(&self, size: RingSize) -> bool
        ensures { result ≡ names_ok size.heads (names_of self.now) }
    {
        all_suit(self.as_slice(), size)
    }
}

// The byte 255 asks everyone, and any other that head.
impl From<u8> for To {
    ghost from_gives = { AskedFrom };

    fn from(byte: u8) -> To {
        match byte {
            255 => To::Everyone,
            head => To::Head(head),
        }
    }
}

impl From<To> for u8 {
    ghost from_gives = { AskedAs };

    fn from(to: To) -> u8 {
        match to {
            To::Head(head) => head,
            To::Everyone => 255,
        }
    }
}

impl To {
    // Whether a ring of this size has whom it asks.
    pub fn suits(self, size: RingSize) -> bool
        ensures { result ≡ asked_ok size.heads (asked_of self) }
    {
        match self {
            To::Head(head) => head < size.heads,
            To::Everyone => true,
        }
    }
}
