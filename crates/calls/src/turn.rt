// The turn of the member that holds the token.
ghost use Rattle.std.specs.Prelude.{◌≡◌};
ghost use Rattle.head.specs.Turn.{turn as m_turn};
ghost use Rattle.calls.specs.Answers.{does, does_before, turned};
ghost use Rattle.calls.specs.Members.{model_of};

use crate::answers::{Done, Turned};
use crate::member::Member;
use frames::refusal::Refusal;
use frames::types::Frame;
use store::put::frames_there;

impl Member {
    // Before the upkeep.
    #[tactic(auto, unfolding(head::specs::Turn::turn))]
    fn order(&mut self) -> Result<Done<Turned>, Refusal>
        ensures size { self.new.head.size ≡ self.old.head.size }
        ensures after { does_before self.old.head.size.heads turned result (model_of self.new) ≡ m_turn self.old.head.size.heads (model_of self.old) }
    {
        if !self.head.holds_token() {
            return Ok(Done::new(Turned::NotYours, None));
        }
        let names = self.gather();
        if names.count == 0 {
            return Ok(Done::new(Turned::Nothing, None));
        }
        if !self.head.has_room() {
            return Ok(Done::new(Turned::Crowded, None));
        }
        if !self.head.has_stamps() {
            return Err(Refusal::StampsUsedUp);
        }
        let ack = self.issue(names);
        Ok(Done {
            answer: Turned::Ordered {
                stamp: ack.stamp,
                count: names.count as u8,
            },
            puts: frames_there(Some(Frame::Ack(ack)), None, None),
            issued: Some(ack),
        })
    }

    // Orders up to four pending messages, if this head holds the token.
    pub fn turn(&mut self) -> Result<Done<Turned>, Refusal>
        ensures size { self.new.head.size ≡ self.old.head.size }
        ensures after { does turned result (model_of self.new) ≡ m_turn self.old.head.size.heads (model_of self.old) }
    {
        let done = self.order()?;
        self.head.settle();
        Ok(done)
    }
}
