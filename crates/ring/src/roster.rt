// Fitting heads, and starting the ring that they are.
ghost use Rattle.std.specs.Prelude.{◌≡◌, ◌+◌, ◌<◌, replicate, if◌then◌else◌, Ok, Err, MatchResult, nat_lt};
ghost use Rattle.frames.specs.declared.refusal.Refusal.TheVariants.{TooManyHeads, TooFewHeads};
ghost use Rattle.links.specs.Meaning.{Cleared};
ghost use Rattle.head.specs.Head.{fresh};
ghost use Rattle.calls.specs.Members.{model_of};
ghost use Rattle.ring.specs.Table.{head_at};
ghost use Rattle.ring.specs.Starting.{Started};

use crate::types::{Heads, NotStarted, Ring, Roster};
use calls::member::Member;
use frames::refusal::Refusal;
use frames::types::RingSize;
use links::link::Link;
use std::array;

// The head of this number at the start, in a ring of this size; past its size, as a head of eight.
fn fresh_head(size: RingSize, me: u8) -> Member
    requires { me < 8 }
    ensures head { model_of result ≡ fresh me }
    ensures size { me < size.heads → result.head.size.heads ≡ size.heads }
{
    let heads = if me < size.heads { size.heads } else { 8 };
    match Member::new(heads, me) {
        Ok(head) => head,
        Err(_) => unreachable(),
    }
}

impl Heads {
    // Each at the start.
    fn new(size: RingSize) -> Heads
        ensures size { result.size ≡ size }
        ensures heads { head_at result.all ≡ fresh }
    {
        Heads {
            all: array::from_fn(|me| fresh_head(size, me as u8)),
            size,
        }
    }
}

impl Roster {
    // No head is fitted yet.
    pub fn new() -> Roster
        ensures { result.count ≡ 0 }
    {
        Roster { count: 0 }
    }

    // One head more, which has the number answered. There is no ninth.
    pub fn fit(&mut self) -> Result<u8, Refusal>
        ensures answer { result ≡ (if nat_lt self.old.count 8 then Ok self.old.count else Err TooManyHeads) }
        ensures after { self.new.count ≡ (if nat_lt self.old.count 8 then self.old.count + 1 else 8) }
    {
        if self.count >= 8 {
            return Err(Refusal::TooManyHeads);
        }
        self.count += 1;
        Ok(self.count - 1)
    }

    // Clears the link, and runs the heads that are fitted, each at its start, over it. With fewer than two the link is not touched.
    pub fn start<L: Link>(self, mut link: L) -> Result<Ring<L>, NotStarted<L>>
        ensures { MatchResult result (λ s. Started self.count s.heads (L.waits s.link)) (λ e. (self.count < 2) × (e.refusal ≡ TooFewHeads) × (e.roster ≡ self) × (e.link ≡ link)) }
    {
        match RingSize::try_from(self.count) {
            Ok(size) => {
                link.clear(size);
                Ok(Ring {
                    heads: Heads::new(size),
                    link,
                })
            }
            Err(refusal) => Err(NotStarted {
                refusal,
                roster: self,
                link,
            }),
        }
    }
}
