// The questions that fill memory of the caller's.
ghost use Rattle.std.specs.Prelude.{◌≡◌};
ghost use Rattle.calls.specs.Asking.{holders_answer, holders_scratch, missing_answer, missing_list};
ghost use Rattle.calls.specs.Model.{model};

use crate::machine::Head;
use frames::refusal::Refusal;
use store::types::Slot;

impl Head {
    // Lists the stamps below end that are not full, ascending, at the front of at least 96 places, and answers how many. The memory
    // is the caller's, here and in holders, since there is no heap.
    #[tactic(auto, unfolding(head::specs::Head::end))]
    pub fn missing(&self, list: &mut [u32]) -> Result<usize, Refusal>
        ensures answer { result ≡ missing_answer (model self.now) list.old }
        ensures after { list.new ≡ missing_list (model self.now) list.old }
    {
        self.queue.missing(list).ok_or(Refusal::MemoryTooShort)
    }

    // How many other heads are known to have the data slot at a stamp. Of at least 96 scratch bytes, the one of each of the
    // queue's places becomes 1 plus the issuer where that place has the first ACK of a counted issuer, otherwise 0.
    #[tactic(auto, unfolding(head::specs::Questions::ask_holders))]
    pub fn holders(&self, stamp: u32, scratch: &mut [u8]) -> Result<u8, Refusal>
        ensures answer { result ≡ holders_answer self.now.size.heads (model self.now) stamp scratch.old }
        ensures after { scratch.new ≡ holders_scratch self.now.size.heads (model self.now) stamp scratch.old }
    {
        if scratch.len() < 96 {
            return Err(Refusal::MemoryTooShort);
        }
        let slot = self.queue.at(stamp as u64);
        let Slot::Data { .. } = slot else {
            return Err(Refusal::NoDataSlot);
        };
        self.queue.mark_holders(self.ring(), stamp, scratch);
        Ok(self.queue.holders(self.ring(), stamp))
    }
}
