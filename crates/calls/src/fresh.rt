// A head at the start.
ghost use Rattle.std.specs.Prelude.{◌≡◌};
ghost use Rattle.frames.specs.Types.{meant};
ghost use Rattle.calls.specs.Model.{in_ring, head_for};

use crate::machine::Head;
use frames::refusal::Refusal;
use frames::types::RingSize;
use store::types::{Inbox, Queue};

impl Head {
    // The head of this number in a ring of this many heads.
    #[tactic(auto, using(head::proofs::Names::highest_false), unfolding(head::specs::Head::fresh))]
    pub fn new(heads: u8, me: u8) -> Result<Head, Refusal>
        ensures { meant in_ring result ≡ head_for heads me }
    {
        let size = RingSize::try_from(heads)?;
        if me >= size.heads {
            return Err(Refusal::NoSuchHead);
        }
        let queue = Queue::new();
        let inbox = Inbox::new();
        Ok(Head {
            size,
            me,
            made: 0,
            queue,
            inbox,
            due: 1,
            ticks: 0,
            tries: 0,
        })
    }
}
