// A head as a member of a ring: it is in its ranges, and what is pending of it can be sent.
ghost use Rattle.head.specs.Ranges.{InRange};
ghost use Rattle.calls.specs.Model.{model};
ghost use Rattle.calls.specs.Unmade.{NoneUnmade};

use crate::machine::Head;

// Its calls keep both facts: all that it keeps is in its ranges, and no own number above made is pending. A type of its own
// around a Head, with the same calls: who makes a Head from its fields is not asked for these.
#[derive(Clone, Copy)]
pub struct Member {
    pub head: Head,
    ghost ranged: { InRange head.size.heads (model head) },
    ghost unmade: { NoneUnmade (model head) },
}
