// The upkeep after every call that was not refused.
ghost use Rattle.std.specs.Prelude.{◌≡◌};
ghost use Rattle.head.specs.Upkeep.{settled};
ghost use Rattle.calls.specs.Model.{model};

use crate::machine::Head;

impl Head {
    // Gives up what can be.
    pub(crate) fn settle(&mut self)
        ensures size { self.new.size ≡ self.old.size }
        ensures after { model self.new ≡ settled self.old.size.heads (model self.old) }
    {
        self.queue.give_up(self.size.heads, self.due);
    }
}
