// Sizes of rings, and levels of messages.
ghost use Rattle.std.specs.Prelude.{◌≡◌};
ghost use Rattle.frames.specs.Bounds.{after as next_head, level_ok, needs as other_heads};
ghost use Rattle.frames.specs.Types.{meant, level_number};
ghost use Rattle.frames.specs.Made.{SizeFrom, LevelFrom, LevelNamed, level_for};

use crate::refusal::Refusal;
use crate::types::{Level, RingSize};
use std::str::FromStr;

// Two to eight heads.
impl TryFrom<u8> for RingSize {
    type Error = Refusal;

    ghost try_from_gives = { SizeFrom };

    fn try_from(heads: u8) -> Result<RingSize, Refusal> {
        match heads {
            0..=1 => Err(Refusal::TooFewHeads),
            2..=8 => Ok(RingSize { heads }),
            _ => Err(Refusal::TooManyHeads),
        }
    }
}

impl RingSize {
    // The head after this one, round the ring.
    pub fn after(self, head: u8) -> u8
        ensures { result ≡ next_head self.heads head }
    {
        ((u16::from(head) + 1) % u16::from(self.heads)) as u8
    }
}

// The level of this number, which some ring can meet.
impl TryFrom<u8> for Level {
    type Error = Refusal;

    ghost try_from_gives = { LevelFrom };

    fn try_from(number: u8) -> Result<Level, Refusal> {
        match number {
            0 => Ok(Level::Total),
            1 => Ok(Level::One),
            2 => Ok(Level::Two),
            3 => Ok(Level::Three),
            4 => Ok(Level::Four),
            5 => Ok(Level::Five),
            6 => Ok(Level::Six),
            7 => Ok(Level::Seven),
            8 => Ok(Level::Majority),
            9 => Ok(Level::Safe),
            _ => Err(Refusal::BadLevel),
        }
    }
}

// The level of this name. It suits a ring of any size.
impl FromStr for Level {
    type Err = Refusal;

    ghost from_str_gives = { LevelNamed };

    fn from_str(text: &str) -> Result<Level, Refusal> {
        match text {
            "total" => Ok(Level::Total),
            "majority" => Ok(Level::Majority),
            "safe" => Ok(Level::Safe),
            _ => Err(Refusal::BadLevel),
        }
    }
}

impl Level {
    // The level of this number, in a ring of this size.
    pub fn new(number: u8, size: RingSize) -> Result<Level, Refusal>
        ensures { meant level_number result ≡ level_for size.heads number }
    {
        let level = Level::try_from(number)?;
        if level.suits(size) {
            Ok(level)
        } else {
            Err(Refusal::BadLevel)
        }
    }

    // Its number, as it is sent: the case's own.
    pub fn number(self) -> u8
        ensures { result ≡ level_number self }
    {
        self as u8
    }

    // Whether a ring of this size can meet it.
    pub fn suits(self, size: RingSize) -> bool
        ensures { result ≡ level_ok size.heads (level_number self) }
    {
        self.number() < size.heads || self == Level::Majority || self == Level::Safe
    }

    // How many other heads must have a message of this level before it is delivered.
    pub fn needs(self, size: RingSize) -> u8
        ensures { result ≡ other_heads size.heads (level_number self) }
    {
        match self {
            Level::Safe => size.heads - 1,
            Level::Majority => size.heads / 2,
            others => others.number(),
        }
    }
}
