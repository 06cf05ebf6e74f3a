// Submitting a message.
ghost use Rattle.std.specs.Prelude.{◌≡◌, ℕ, suc, ◌+◌, ◌-◌, ◌<◌, ◌≤◌};
ghost use Rattle.head.specs.Submit.{submit as m_submit};
ghost use Rattle.calls.specs.Model.{model};
ghost use Rattle.calls.specs.Answers.{does, makes_before, submission};

use crate::answers::{Done, Submission};
use crate::machine::Head;
use frames::refusal::Refusal;
use frames::types::{Body, Frame, Level, Message, Name};

impl Head {
    // The new message. Before the upkeep.
    #[tactic(auto, using(crate::proofs::Lows::low_is, crate::proofs::Lows::low_own, crate::proofs::Lows::near), unfolding(head::specs::Submit::submit, head::specs::Head::keep))]
    fn compose(&mut self, level: u8, bytes: &[u8]) -> Result<Message, Refusal>
        ensures size { self.new.size ≡ self.old.size }
        ensures after { makes_before self.old.size.heads result (model self.new) ≡ m_submit self.old.size.heads level bytes.now (model self.old) }
    {
        let level = Level::new(level, self.size)?;
        let body = Body::try_from(bytes)?;
        if self.made - self.inbox.low(self.me) >= 4 {
            return Err(Refusal::TooManyUnordered);
        }
        if self.made >= 500_000 {
            return Err(Refusal::NumbersUsedUp);
        }
        let name = Name {
            source: self.me,
            number: self.made + 1,
            level,
        };
        let message = Message { name, body };
        self.inbox.keep(message);
        self.made += 1;
        Ok(message)
    }

    // A new message of this head, with its Data frame to put. The level is a number, since one that the ring cannot meet is
    // refused; a Level would ask more of the caller.
    pub fn submit(&mut self, level: u8, bytes: &[u8]) -> Result<Done<Submission>, Refusal>
        ensures size { self.new.size ≡ self.old.size }
        ensures after { does submission result (model self.new) ≡ m_submit self.old.size.heads level bytes.now (model self.old) }
    {
        let message = self.compose(level, bytes)?;
        self.settle();
        let answer = Submission::Made {
            number: message.name.number,
        };
        Ok(Done::new(answer, Some(Frame::Data(message))))
    }
}
