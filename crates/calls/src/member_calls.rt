// A member of a ring: making it, and the calls that are those of its head.
// They stand twice, since a bare head need not stay a member: its calls ask less of it, and these keep what a member is known by.
ghost use Rattle.std.specs.Prelude.{◌≡◌, Some, None};
ghost use Rattle.frames.specs.Types.{meant};
ghost use Rattle.head.specs.Submit.{submit as m_submit};
ghost use Rattle.head.specs.Hear.{hear as m_hear};
ghost use Rattle.head.specs.Deliver.{deliver as m_deliver};
ghost use Rattle.calls.specs.Answers.{did, does, submission, hearing, handed};
ghost use Rattle.calls.specs.Model.{head_for};
ghost use Rattle.calls.specs.Members.{model_of, in_ring_of};

use crate::answers::{Delivered, Done, Hearing, Submission};
use crate::machine::Head;
use crate::member::Member;
use frames::refusal::Refusal;

impl Member {
    // The head of this number in a ring of this many heads, at its start.
    pub fn new(heads: u8, me: u8) -> Result<Member, Refusal>
        ensures { meant in_ring_of result ≡ head_for heads me }
    {
        let head = Head::new(heads, me)?;
        Ok(Member { head })
    }

    // A new message of this head. The level is a number: a Level would ask more of the caller.
    pub fn submit(&mut self, level: u8, bytes: &[u8]) -> Result<Done<Submission>, Refusal>
        ensures size { self.new.head.size ≡ self.old.head.size }
        ensures after { does submission result (model_of self.new) ≡ m_submit self.old.head.size.heads level bytes.now (model_of self.old) }
    {
        self.head.submit(level, bytes)
    }

    // The bytes of a packet.
    pub fn hear(&mut self, bytes: &[u8]) -> Result<Done<Hearing>, Refusal>
        ensures size { self.new.head.size ≡ self.old.head.size }
        ensures after { does hearing result (model_of self.new) ≡ m_hear self.old.head.size.heads (Some bytes.now) (model_of self.old) }
    {
        self.head.hear(bytes)
    }

    // No packet came.
    pub fn hear_nothing(&mut self) -> Done<Hearing>
        ensures size { self.new.head.size ≡ self.old.head.size }
        ensures after { did hearing result (model_of self.new) ≡ m_hear self.old.head.size.heads None (model_of self.old) }
    {
        self.head.hear_nothing()
    }

    // The next message of the common list.
    pub fn deliver(&mut self) -> Done<Delivered>
        ensures size { self.new.head.size ≡ self.old.head.size }
        ensures after { did handed result (model_of self.new) ≡ m_deliver self.old.head.size.heads (model_of self.old) }
    {
        self.head.deliver()
    }
}
