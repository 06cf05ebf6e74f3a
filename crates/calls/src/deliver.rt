// Delivering: the next message of the common list, once enough other heads are known to have it.
ghost use Rattle.std.specs.Prelude.{◌≡◌, []};
ghost use Rattle.frames.specs.Types.{message_meant};
ghost use Rattle.head.specs.Answers.{done};
ghost use Rattle.head.specs.Deliver.{deliver as m_deliver, hand_over as m_hand_over, past_acks};
ghost use Rattle.head.specs.Slots.{whole};
ghost use Rattle.calls.specs.Answers.{did, handed};
ghost use Rattle.calls.specs.Model.{model};

use crate::answers::{Delivered, Done};
use crate::machine::Head;
use frames::types::Message;
use store::types::Slot;

impl Head {
    // Due moves past ACK slots.
    fn pass_acks(&mut self)
        ensures size { self.new.size ≡ self.old.size }
        ensures after { model self.new ≡ past_acks (model self.old) }
    {
        self.due = self.queue.skip_acks(self.due);
    }

    // The message at due, if enough other heads are known to have it.
    fn hand_whole(&mut self, message: Message) -> Delivered
        requires { (model self.old).queue self.old.due ≡ whole (message_meant message) }
        ensures size { self.new.size ≡ self.old.size }
        ensures after { done self.old.size.heads (handed result) (model self.new) [] ≡ m_hand_over self.old.size.heads (model self.old) (whole (message_meant message)) }
    {
        if self.queue.holders(self.ring(), self.due) < message.name.level.needs(self.size) {
            return Delivered::Waiting;
        }
        let stamp = self.due;
        self.due += 1;
        Delivered::Message { message, stamp }
    }

    // What stands at due, before the upkeep.
    fn hand_over(&mut self) -> Delivered
        ensures size { self.new.size ≡ self.old.size }
        ensures after { done self.old.size.heads (handed result) (model self.new) [] ≡ m_hand_over self.old.size.heads (model self.old) ((model self.old).queue (model self.old).due) }
    {
        let slot = self.queue.at(self.due as u64);
        let Slot::Data {
            name,
            body: Some(body),
        } = slot
        else {
            return Delivered::Waiting;
        };
        self.hand_whole(Message { name, body })
    }

    // The next message of the common list.
    #[tactic(auto, unfolding(head::specs::Deliver::deliver))]
    pub fn deliver(&mut self) -> Done<Delivered>
        ensures size { self.new.size ≡ self.old.size }
        ensures after { did handed result (model self.new) ≡ m_deliver self.old.size.heads (model self.old) }
    {
        self.pass_acks();
        let answer = self.hand_over();
        self.settle();
        Done::new(answer, None)
    }
}
