// How many lines there are of each sort.
ghost use Rattle.std.specs.Prelude.{◌≡◌, ℕ, List, [], ◌∷◌, slice_index};
ghost use Rattle.account.specs.Counts.{sort_of, place_of, with_one};

use crate::line::LineError;
use frames::refusal::Refusal;
use frames::types::Frame;
use std::marker::Model;

#[derive(Clone, Copy, PartialEq, Eq, Debug)]
pub enum Sort {
    DataFrame,
    AckFrame,
    NackFrame,
    NoFrame,
    OutOfRange,
    NoHex,
}

impl From<Result<Frame, LineError>> for Sort {
    ghost from_gives = { λ line sort. sort ≡ sort_of line };

    fn from(line: Result<Frame, LineError>) -> Sort {
        match line {
            Ok(Frame::Data(_)) => Sort::DataFrame,
            Ok(Frame::Ack(_)) => Sort::AckFrame,
            Ok(Frame::Nack(_)) => Sort::NackFrame,
            Err(LineError::Refused(Refusal::NotAFrame)) => Sort::NoFrame,
            Err(LineError::Refused(_)) => Sort::OutOfRange,
            Err(LineError::NotHex) => Sort::NoHex,
        }
    }
}

#[derive(Clone, Copy, Default)]
pub struct Tally {
    // a count for each sort, by its number
    counts: [u64; 6],
}

// Clauses see the counts, in the order of the sorts.
impl Model for Tally {
    ghost Value = { List ℕ };

    ghost view = { λ t. t.counts };

    ghost inverse = { λ cs. record { counts = cs } };
}

impl Tally {
    pub fn new() -> Tally
        ensures { result ≡ 0 ∷ 0 ∷ 0 ∷ 0 ∷ 0 ∷ 0 ∷ [] }
    {
        Tally::default()
    }

    // One line more of this sort.
    pub fn add(&mut self, sort: Sort)
        ensures { self.new ≡ with_one sort self.old }
    {
        let place = sort as usize;
        self.counts[place] = self.counts[place].saturating_add(1);
    }

    pub fn count(&self, sort: Sort) -> u64
        ensures { result ≡ slice_index self.now (place_of sort) }
    {
        self.counts[sort as usize]
    }
}
