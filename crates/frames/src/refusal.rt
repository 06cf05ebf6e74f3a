// Why a call was refused.
ghost use Rattle.std.specs.Prelude.{◌≡◌};
ghost use Rattle.frames.specs.Refusals.{number_of};

use thiserror::Error;

// Every refusal of the repository, by its number and in a short sentence.
#[derive(Clone, Copy, PartialEq, Eq, Debug, Error)]
pub enum Refusal {
    // The fitter's doing.
    #[error("a ring has at most eight heads")]
    TooManyHeads = 1,
    #[error("a ring has at least two heads")]
    TooFewHeads = 2,
    // The caller's doing.
    #[error("there is no such head")]
    NoSuchHead = 3,
    #[error("no such level in a ring of this size")]
    BadLevel = 4,
    #[error("a body has 1 to 8 bytes")]
    BadBodyLength = 5,
    #[error("four messages of this head are not ordered yet")]
    TooManyUnordered = 6,
    #[error("this head's message numbers are used up")]
    NumbersUsedUp = 7,
    #[error("the stamps are used up")]
    StampsUsedUp = 8,
    #[error("the memory handed in is too short")]
    MemoryTooShort = 9,
    #[error("the stamp is no data slot of the queue")]
    NoDataSlot = 10,
    // The radio's doing.
    #[error("wrong length or unknown kind")]
    NotAFrame = 11,
    #[error("a field is out of range")]
    FieldOutOfRange = 12,
    #[error("it contradicts what this head knows")]
    Contradiction = 13,
    // The doing of who writes bodies.
    #[error("the value is out of range")]
    ValueOutOfRange = 14,
    #[error("the body is not of this kind, length or range")]
    NotThisKind = 15,
}

impl Refusal {
    // Its number, from 1 to 15.
    pub fn number(self) -> u8
        ensures { result ≡ number_of self }
    {
        self as u8
    }
}
