// Placing an ACK.
ghost use Rattle.std.specs.Prelude.{◌≡◌, suc, ◌+◌, ◌≤◌, true};
ghost use Rattle.frames.specs.Types.{ack_meant};
ghost use Rattle.head.specs.Queue.{all_unknown};
ghost use Rattle.head.specs.Head.{place as m_place};
ghost use Rattle.store.specs.Parts.{spans, OwnAck};
ghost use Rattle.calls.specs.Model.{model};

use crate::machine::Head;
use frames::types::Ack;

impl Head {
    // Sets the slots of an ACK, moves pending bodies in, and raises low.
    pub(crate) fn place(&mut self, ack: Ack)
        requires room { spans self.old.queue ack.stamp ack.names.count ≡ true }
        requires stamps { ack.stamp + ack.names.count ≤ 1000000 }
        requires own { OwnAck self.old.me self.old.made (ack_meant ack) }
        requires free { all_unknown (model self.old).queue (suc ack.names.count) ack.stamp ≡ true }
        ensures size { self.new.size ≡ self.old.size }
        ensures after { model self.new ≡ m_place (model self.old) (ack_meant ack) }
    {
        self.queue.lay(ack, &self.inbox);
        self.inbox.clear_all(ack.names);
        let low = self.queue.lows();
        self.inbox.raise_all(low);
        self.ticks = 0;
        self.tries = 0;
    }
}
