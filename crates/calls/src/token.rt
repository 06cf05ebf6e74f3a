// The token: whether this head has it, and the ACK that it may then issue.
ghost use Rattle.std.specs.Prelude.{◌≡◌, true};
ghost use Rattle.frames.specs.Types.{ack_meant, names_of};
ghost use Rattle.head.specs.Head.{holds, next_of, place, room, stamps_left, top};
ghost use Rattle.head.specs.Turn.{new_ack, to_order};
ghost use Rattle.calls.specs.Model.{model};
ghost use Rattle.calls.specs.Members.{model_of};

use crate::machine::Head;
use crate::member::Member;
use frames::types::{Ack, Names};

impl Head {
    // The head that the top ACK names as next; head 0 while no ACK is known.
    #[tactic(auto, unfolding(head::specs::Head::top))]
    fn next(&self) -> u8
        ensures { result ≡ next_of self.now.size.heads (top (model self.now)) }
    {
        self.queue
            .top()
            .map_or(0, |ack| self.size.after(ack.issuer))
    }

    // It is named as next, and has all that it knows of.
    #[tactic(auto, unfolding(head::specs::Head::holds))]
    pub(crate) fn holds_token(&self) -> bool
        ensures { result ≡ holds self.now.size.heads (model self.now) }
    {
        self.next() == self.me && self.mark() == self.end()
    }

    // An ACK of four names would stand in the queue.
    pub(crate) fn has_room(&self) -> bool
        ensures { result ≡ room (model self.now) }
    {
        self.end() + 4 <= self.queue.base + 95
    }

    // An ACK of four names would have a stamp for each.
    pub(crate) fn has_stamps(&self) -> bool
        ensures { result ≡ stamps_left (model self.now) }
    {
        self.end() + 4 <= 1_000_000
    }
}

impl Member {
    // Issues the next ACK: it takes the stamp end, and is placed.
    pub(crate) fn issue(&mut self, names: Names) -> Ack
        requires room { room (model_of self.old) ≡ true }
        requires stamps { stamps_left (model_of self.old) ≡ true }
        requires chosen { names_of names ≡ to_order self.old.head.size.heads (model_of self.old) }
        ensures size { self.new.head.size ≡ self.old.head.size }
        ensures ack { ack_meant result ≡ new_ack (model_of self.old) (names_of names) }
        ensures names { result.names ≡ names }
        ensures after { model_of self.new ≡ place (model_of self.old) (new_ack (model_of self.old) (names_of names)) }
    {
        let ack = Ack {
            stamp: self.head.end(),
            issuer: self.head.me,
            names,
        };
        self.head.place(ack);
        ack
    }
}
