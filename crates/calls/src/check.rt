// Whether an ACK contradicts what this head knows.
ghost use Rattle.std.specs.Prelude.{◌≡◌, ℕ, suc, ◌+◌, Bool, true, false, not, ◌&&◌, ◌||◌, length, nat_le};
ghost use Rattle.frames.specs.Types.{ack_meant, level_number, name_of, names_of};
ghost use Rattle.head.specs.Queue.{place_of, all_unknown};
ghost use Rattle.head.specs.Head.{low};
ghost use Rattle.head.specs.Hear.{found, own_above, other_level, bad_name, bad_names, contradicts as m_contradicts};
ghost use Rattle.calls.specs.Model.{model};

use crate::machine::Head;
use frames::types::{Ack, Name, Names};
use store::same::is_twice;

impl Head {
    fn is_slotted(&self, name: Name) -> bool
        ensures { result ≡ found (place_of (model self.now).queue (name_of name) 96 (model self.now).base) }
    {
        self.queue.find(name).is_some()
    }

    #[tactic(auto, using(crate::proofs::Lows::low_is))]
    fn is_old(&self, name: Name) -> bool
        ensures { result ≡ nat_le name.number (low (model self.now) name.source) }
    {
        name.number <= self.inbox.low(name.source)
    }

    // Own, with a number that was never made.
    pub(crate) fn is_own_above(&self, name: Name) -> bool
        ensures { result ≡ own_above (model self.now) (name_of name) }
    {
        name.source == self.me && self.made < name.number
    }

    // Pending at another level.
    fn is_otherwise(&self, name: Name) -> bool
        ensures { result ≡ other_level (level_number name.level) ((model self.now).pending name.source name.number) }
    {
        self.inbox
            .waiting(name)
            .is_some_and(|kept| name.level != kept.level)
    }

    fn is_bad(&self, name: Name) -> bool
        ensures { result ≡ bad_name (model self.now) (name_of name) }
    {
        self.is_slotted(name)
            || self.is_old(name)
            || self.is_own_above(name)
            || self.is_otherwise(name)
    }

    fn any_bad(&self, names: Names) -> bool
        ensures { result ≡ bad_names (model self.now) (names_of names) }
    {
        names.as_slice().iter().any(|name| self.is_bad(*name))
    }

    // A slot of the ACK's block is not unknown.
    fn is_taken(&self, ack: Ack) -> bool
        ensures { result ≡ not (all_unknown (model self.now).queue (suc (length (names_of ack.names))) ack.stamp) }
    {
        !self.queue.is_free(ack.stamp, ack.names.count + 1)
    }

    pub(crate) fn contradicts(&self, ack: Ack) -> bool
        ensures { result ≡ m_contradicts (model self.now) (ack_meant ack) }
    {
        ack.issuer == self.me
            || self.is_taken(ack)
            || is_twice(ack.names)
            || self.any_bad(ack.names)
    }
}
