// The questions to a ring, running or docked.
ghost use Rattle.std.specs.Prelude.{◌≡◌, ◌<◌, ◌≤◌, ℕ, MatchResult};
ghost use Rattle.frames.specs.declared.refusal.Refusal.TheVariants.{NoSuchHead};
ghost use Rattle.calls.specs.Members.{model_of};
ghost use Rattle.ring.specs.Ring.{Ring as MRing};
ghost use Rattle.ring.specs.Questions.{base_of, due_of, end_of, marks as marks_of};
ghost use Rattle.ring.specs.Asking.{missing_told, missing_listed, holders_told, holders_marked};
ghost use Rattle.ring.specs.Table.{head_at};
ghost use Rattle.ring.specs.Moves.{at_rest, ring_over};

use crate::types::{Docked, Heads, Ring};
use calls::member::Member;
use frames::refusal::Refusal;
use links::link::Link;
use std::array;

impl Heads {
    // The head of this number, where the ring has it.
    fn at(&self, head: u8) -> Result<&Member, Refusal>
        ensures { MatchResult result (λ h. (head < self.now.size.heads) × (h.now.head.size.heads ≡ self.now.size.heads) × (model_of h.now ≡ head_at self.now.all head)) (λ e. (self.now.size.heads ≤ head) × (e ≡ NoSuchHead)) }
    {
        if head < self.size.heads {
            Ok(&self.all[head as usize])
        } else {
            Err(Refusal::NoSuchHead)
        }
    }
}

// Each question has the answer that the model's ring gives: size is how many heads are asked, and asked the ring that they are.
pub trait Questions {
    ghost size: { Self → ℕ };

    ghost asked: { Self → MRing };

    // The heads that are asked.
    fn heads(&self) -> &Heads
        ensures size { result.now.size.heads ≡ size self.now }
        ensures heads { head_at result.now.all ≡ (asked self.now).heads };

    // Of each head its mark, 0 where there is none: eight numbers, as the dock reads them.
    fn marks(&self) -> [u32; 8]
        ensures { result ≡ marks_of (size self.now) (asked self.now) }
    {
        let heads = self.heads();
        array::from_fn(|head| match heads.at(head as u8) {
            Ok(member) => member.head.mark(),
            Err(_) => 0,
        })
    }

    // The first stamp of a head's queue.
    fn base(&self, head: u8) -> Result<u32, Refusal>
        ensures { result ≡ base_of (size self.now) (asked self.now) head }
    {
        Ok(self.heads().at(head)?.head.base())
    }

    // The next stamp that a head will deliver, or would have delivered.
    fn due(&self, head: u8) -> Result<u32, Refusal>
        ensures { result ≡ due_of (size self.now) (asked self.now) head }
    {
        Ok(self.heads().at(head)?.head.due())
    }

    // One past the highest stamp that a head knows.
    fn end(&self, head: u8) -> Result<u32, Refusal>
        ensures { result ≡ end_of (size self.now) (asked self.now) head }
    {
        Ok(self.heads().at(head)?.head.end())
    }

    // Lists the stamps that a head lacks below its end, ascending, at the front of at least 96 places, and answers how many.
    fn missing(&self, head: u8, list: &mut [u32]) -> Result<usize, Refusal>
        ensures answer { result ≡ missing_told (size self.now) (asked self.now) head list.old }
        ensures after { list.new ≡ missing_listed (size self.now) (asked self.now) head list.old }
    {
        self.heads().at(head)?.head.missing(list)
    }

    // How many other heads a head knows to have the data slot at a stamp. At least 96 scratch bytes tell by which ACKs.
    fn holders(&self, head: u8, stamp: u32, scratch: &mut [u8]) -> Result<u8, Refusal>
        ensures answer { result ≡ holders_told (size self.now) (asked self.now) head stamp scratch.old }
        ensures after { scratch.new ≡ holders_marked (size self.now) (asked self.now) head stamp scratch.old }
    {
        self.heads().at(head)?.head.holders(stamp, scratch)
    }
}

impl<L: Link> Questions for Ring<L> {
    ghost size = { λ r. r.heads.size.heads };

    ghost asked = { λ r. ring_over L.waits r };

    fn heads(&self) -> &Heads {
        &self.heads
    }
}

impl Questions for Docked {
    ghost size = { λ d. d.heads.size.heads };

    ghost asked = { λ d. at_rest d.heads };

    fn heads(&self) -> &Heads {
        &self.heads
    }
}
