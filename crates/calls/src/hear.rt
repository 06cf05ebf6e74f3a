// Hearing a packet: its kind decides, and then the first rule that applies.
ghost use Rattle.std.specs.Prelude.{◌≡◌, Bool, cond, if◌then◌else◌, Ok, Err, ◌+◌, ◌<◌, ◌≤◌, true, false, not, ◌&&◌, Some, None, ◌==◌};
ghost use Rattle.frames.specs.Types.{ack_meant, asked_of, body_of, frame_of, level_number, message_meant, name_of};
ghost use Rattle.frames.specs.Values.{frame_ok};
ghost use Rattle.head.specs.Slots.{named};
ghost use Rattle.head.specs.Queue.{names_it};
ghost use Rattle.head.specs.Hear.{hear_slot, hear_unslotted, same_kept, hear_data as m_hear_data, hear_ack as m_hear_ack, hear_nack as m_hear_nack, hear_frame, hear as m_hear, asks};
ghost use Rattle.head.specs.Upkeep.{settled};
ghost use Rattle.calls.specs.Model.{model};
ghost use Rattle.calls.specs.Answers.{did, does, does_before, hears_before, hearing};

use crate::answers::{Done, Hearing};
use crate::machine::Head;
use frames::read::read;
use frames::refusal::Refusal;
use frames::types::{Ack, Frame, Message, Nack, To};
use store::same::{is_body, is_list};
use store::types::{Kept, Slot};

// What is known under its number or stamp already: a repeat where it is equal, otherwise a contradiction.
fn repeated(equal: bool) -> Result<Hearing, Refusal>
    ensures { result ≡ (if equal then Ok Hearing.Repeat else Err Refusal.Contradiction) }
{
    equal
        .then_some(Hearing::Repeat)
        .ok_or(Refusal::Contradiction)
}

// Equal to what is pending under its number.
fn is_kept(message: Message, kept: Kept) -> bool
    ensures { result ≡ same_kept (message_meant message) (record { level = level_number kept.level; body = body_of kept.body }) }
{
    message.name.level == kept.level && is_body(message.body, kept.body)
}

impl Head {
    // The slot at a place names the message.
    #[tactic(auto, using(crate::proofs::Hearing::slot_whole, crate::proofs::Hearing::slot_rest), unfolding(head::specs::Head::fill))]
    fn take_slotted(&mut self, i: usize, message: Message) -> Result<Hearing, Refusal>
        requires place { i < 96 }
        requires named { names_it (name_of message.name) (named ((model self.old).queue (self.old.queue.base + i))) ≡ true }
        ensures size { self.new.size ≡ self.old.size }
        ensures after { hears_before self.old.size.heads result (model self.new) ≡ hear_slot self.old.size.heads (model self.old) (message_meant message) (self.old.queue.base + i) ((model self.old).queue (self.old.queue.base + i)) }
    {
        let slot = self.queue.at(self.queue.base as u64 + i as u64);
        let Slot::Data { name, body } = slot else {
            return Err(Refusal::Contradiction);
        };
        if message.name.level != name.level {
            return Err(Refusal::Contradiction);
        }
        let Some(body) = body else {
            self.queue.fill(i, message.body);
            self.ticks = 0;
            self.tries = 0;
            return Ok(Hearing::Filled);
        };
        repeated(is_body(message.body, body))
    }

    // No slot names the message.
    #[tactic(auto, using(crate::proofs::Lows::low_is, crate::proofs::Lows::near, crate::proofs::Hearing::repeat_or, crate::proofs::Hearing::new_near), unfolding(head::specs::Head::keep))]
    fn take_unslotted(&mut self, message: Message) -> Result<Hearing, Refusal>
        ensures size { self.new.size ≡ self.old.size }
        ensures after { hears_before self.old.size.heads result (model self.new) ≡ hear_unslotted self.old.size.heads (model self.old) (message_meant message) }
    {
        let name = message.name;
        let low = self.inbox.low(name.source);
        if name.number <= low {
            return Ok(Hearing::Repeat);
        }
        if name.number - low > 4 {
            return Ok(Hearing::Far);
        }
        let Some(kept) = self.inbox.waiting(name) else {
            self.inbox.keep(message);
            return Ok(Hearing::Kept);
        };
        repeated(is_kept(message, kept))
    }

    // A Data frame, before the upkeep.
    #[tactic(auto, unfolding(head::specs::Hear::hear_data))]
    fn take_data(&mut self, message: Message) -> Result<Hearing, Refusal>
        ensures size { self.new.size ≡ self.old.size }
        ensures after { hears_before self.old.size.heads result (model self.new) ≡ m_hear_data self.old.size.heads (message_meant message) (model self.old) }
    {
        if self.is_own_above(message.name) {
            return Err(Refusal::Contradiction);
        }
        match self.queue.find(message.name) {
            Some(i) => self.take_slotted(i, message),
            None => self.take_unslotted(message),
        }
    }

    // An ACK, before the upkeep.
    #[tactic(auto, using(crate::proofs::Hearing::new_own), unfolding(head::specs::Hear::hear_ack))]
    fn take_ack(&mut self, ack: Ack) -> Result<Hearing, Refusal>
        requires { ack.stamp + ack.names.count ≤ 1000000 }
        ensures size { self.new.size ≡ self.old.size }
        ensures after { hears_before self.old.size.heads result (model self.new) ≡ m_hear_ack self.old.size.heads (ack_meant ack) (model self.old) }
    {
        if ack.stamp < self.queue.base {
            return Ok(Hearing::Repeat);
        }
        if !self.queue.has_places(ack.stamp, ack.names.count) {
            return Ok(Hearing::Crowded);
        }
        let slot = self.queue.at(ack.stamp as u64);
        if let Slot::Ack { issuer, names } = slot {
            return repeated(issuer == ack.issuer && is_list(names, ack.names));
        }
        if self.contradicts(ack) {
            return Err(Refusal::Contradiction);
        }
        self.place(ack);
        Ok(Hearing::Placed)
    }

    // A NACK from another head asks this one.
    fn is_asked(&self, nack: Nack) -> bool
        ensures { result ≡ (asks (asked_of nack.to) self.now.me && not (nack.from == self.now.me)) }
    {
        match nack.to {
            To::Head(head) => head == self.me && nack.from != self.me,
            To::Everyone => nack.from != self.me,
        }
    }

    // A NACK, before the upkeep: the frame of a full slot is put again.
    #[tactic(auto, unfolding(head::specs::Hear::hear_nack))]
    fn take_nack(&self, nack: Nack) -> Done<Hearing>
        ensures { did hearing result (settled self.now.size.heads (model self.now)) ≡ m_hear_nack self.now.size.heads nack.from (asked_of nack.to) nack.stamp (model self.now) }
    {
        if !self.is_asked(nack) || nack.stamp < self.queue.base {
            return Done::new(Hearing::Nothing, None);
        }
        match self.queue.frame_at(nack.stamp) {
            Some(frame) => Done::new(Hearing::Resent, Some(frame)),
            None => Done::new(Hearing::Nothing, None),
        }
    }

    // A frame, before the upkeep: its kind decides, and within it the first rule that applies.
    fn take(&mut self, frame: Frame) -> Result<Done<Hearing>, Refusal>
        requires { frame_ok self.old.size.heads (frame_of frame) ≡ true }
        ensures size { self.new.size ≡ self.old.size }
        ensures after { does_before self.old.size.heads hearing result (model self.new) ≡ hear_frame self.old.size.heads (frame_of frame) (model self.old) }
    {
        match frame {
            Frame::Data(message) => Ok(Done::new(self.take_data(message)?, None)),
            Frame::Ack(ack) => Ok(Done::new(self.take_ack(ack)?, None)),
            Frame::Nack(nack) => Ok(self.take_nack(nack)),
        }
    }

    // The bytes of a packet, with the frame to put.
    #[tactic(auto, using(head::proofs::Ranges::read_in), unfolding(head::specs::Hear::hear))]
    pub fn hear(&mut self, bytes: &[u8]) -> Result<Done<Hearing>, Refusal>
        ensures size { self.new.size ≡ self.old.size }
        ensures after { does hearing result (model self.new) ≡ m_hear self.old.size.heads (Some bytes.now) (model self.old) }
    {
        let frame = read(self.size, bytes)?;
        let done = self.take(frame)?;
        self.settle();
        Ok(done)
    }

    // No packet came. With an Option of bytes it would be one call with hear, no plainer: only bytes can be refused.
    #[tactic(auto, unfolding(head::specs::Hear::hear))]
    pub fn hear_nothing(&mut self) -> Done<Hearing>
        ensures size { self.new.size ≡ self.old.size }
        ensures after { did hearing result (model self.new) ≡ m_hear self.old.size.heads None (model self.old) }
    {
        self.settle();
        Done::new(Hearing::Quiet, None)
    }
}
