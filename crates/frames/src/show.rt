// Levels, names and receivers as text.
use crate::types::{Level, Name, To};
use std::fmt;

impl fmt::Display for Level {
    fn fmt<W: fmt::Write>(&self, f: &mut fmt::Formatter<W>) -> fmt::Result {
        match self {
            Level::Total => write!(f, "total"),
            Level::One => write!(f, "1 other head"),
            Level::Majority => write!(f, "majority"),
            Level::Safe => write!(f, "safe"),
            others => write!(f, "{} other heads", others.number()),
        }
    }
}

impl fmt::Display for Name {
    fn fmt<W: fmt::Write>(&self, f: &mut fmt::Formatter<W>) -> fmt::Result {
        let Name {
            source,
            number,
            level,
        } = self;
        write!(f, "source {source}, number {number}, level {level}")
    }
}

impl fmt::Display for To {
    fn fmt<W: fmt::Write>(&self, f: &mut fmt::Formatter<W>) -> fmt::Result {
        match self {
            To::Head(head) => write!(f, "{head}"),
            To::Everyone => write!(f, "everyone"),
        }
    }
}
