// The calls on a running ring.
ghost use Rattle.std.specs.Prelude.{◌≡◌, ◌<◌, length, MatchResult, slice_index_or, slice_set};
ghost use Rattle.std.specs.Fn.{FnOnceReturnsAtMut};
ghost use Rattle.links.specs.Meaning.{Waits};
ghost use Rattle.head.specs.Answers.{refused};
ghost use Rattle.calls.specs.declared.member.Member.{Member};
ghost use Rattle.calls.specs.Answers.{submission as submitted, hearing as heard, turned, ticked, handed};
ghost use Rattle.ring.specs.Ring.{Call, Takes, submits, hears, turns, ticks, delivers};
ghost use Rattle.ring.specs.Moves.{Meaning, Means, Moved, Moves, answered};

use crate::put::send;
use crate::types::Ring;
use calls::answers::{Delivered, Done, Hearing, Submission, Ticked, Turned};
use calls::member::Member;
use frames::refusal::Refusal;
use links::link::Link;

// A call on the head at a place of a table.
#[inline(always)]
fn call_at<A, F: FnOnce(&mut Member) -> Result<Done<A>, Refusal>>(
    heads: &mut [Member],
    head: usize,
    call: F,
) -> Result<Done<A>, Refusal>
    requires there { head < length heads.old }
    requires callable { F.IsAlwaysCallable call }
    ensures { (x : Member) × (y : Member) × FnOnceReturnsAtMut F.FnOnce call x result y × (slice_index_or heads.old head x ≡ x) × (heads.new ≡ slice_set heads.old head y) }
{
    call(&mut heads[head])
}

impl<L: Link> Ring<L> {
    // Any call on a head that the ring does not have is refused.
    fn check(&self, head: u8) -> Result<(), Refusal>
        ensures { MatchResult result (λ _. head < self.now.heads.size.heads) (λ e. (c : Call) → Moves L.waits self.now head c (refused e) self.now) }
    {
        if head < self.heads.size.heads {
            Ok(())
        } else {
            Err(Refusal::NoSuchHead)
        }
    }

    // A call on a head of the ring: what it left to put is put, and its answer is answered.
    #[inline(always)]
    fn act<A, F: FnOnce(&mut Member) -> Result<Done<A>, Refusal>>(
        &mut self,
        head: u8,
        call: F,
    ) -> Result<A, Refusal>
        requires there { head < self.old.heads.size.heads }
        requires callable { F.IsAlwaysCallable call }
        requires meant { (m : Meaning A) × Means (FnOnceReturnsAtMut F.FnOnce call) m }
        ensures { (m : Meaning A) → Means (FnOnceReturnsAtMut F.FnOnce call) m → (w : Waits) → Takes m.call head m.taken w (L.waits self.old.link) → Moved self.old.heads w head m.call (answered m.word result) self.new.heads (L.waits self.new.link) }
    {
        let done = call_at(&mut self.heads.all, head as usize, call);
        send(&mut self.link, self.heads.size, done)
    }

    // A new message of a head. The level is a number: a Level would ask more of the caller.
    pub fn submit(&mut self, head: u8, level: u8, body: &[u8]) -> Result<Submission, Refusal>
        ensures { Moves L.waits self.old head (submits level body.now) (answered submitted result) self.new }
    {
        self.check(head)?;
        self.act(head, |member| member.submit(level, body))
    }

    // A head hears a packet that waits for it, or nothing.
    pub fn hear(&mut self, head: u8) -> Result<Hearing, Refusal>
        ensures { Moves L.waits self.old head hears (answered heard result) self.new }
    {
        self.check(head)?;
        let packet = self.link.take(head);
        self.act(head, |member| match packet {
            None => Ok(member.hear_nothing()),
            Some(packet) => member.hear(packet.as_slice()),
        })
    }

    // A head that holds the token orders what is pending.
    pub fn turn(&mut self, head: u8) -> Result<Turned, Refusal>
        ensures { Moves L.waits self.old head turns (answered turned result) self.new }
    {
        self.check(head)?;
        self.act(head, |member| member.turn())
    }

    // A head's clock goes on: now and then it asks or repeats.
    pub fn tick(&mut self, head: u8) -> Result<Ticked, Refusal>
        ensures { Moves L.waits self.old head ticks (answered ticked result) self.new }
    {
        self.check(head)?;
        self.act(head, |member| Ok(member.tick()))
    }

    // A head delivers the next message of the common list, once enough others are known to have it.
    pub fn deliver(&mut self, head: u8) -> Result<Delivered, Refusal>
        ensures { Moves L.waits self.old head delivers (answered handed result) self.new }
    {
        self.check(head)?;
        self.act(head, |member| Ok(member.deliver()))
    }
}
