// A tick of the clock: what a head sends when nothing was heard for a while.
ghost use Rattle.std.specs.Prelude.{◌≡◌, true, ◌&&◌};
ghost use Rattle.frames.specs.Types.{names_of};
ghost use Rattle.head.specs.Head.{holds, room, stamps_left, top};
ghost use Rattle.head.specs.Tick.{fire as m_fire, fire_ack as m_fire_ack, own_again, tick as m_tick, tick_token};
ghost use Rattle.head.specs.Turn.{to_order};
ghost use Rattle.head.specs.Upkeep.{settled};
ghost use Rattle.store.specs.Look.{put_of};
ghost use Rattle.calls.specs.Answers.{did, ticked};
ghost use Rattle.calls.specs.Model.{model};
ghost use Rattle.calls.specs.Members.{model_of};

use crate::answers::{Done, Ticked};
use crate::machine::Head;
use crate::member::Member;
use frames::types::{Ack, Frame, Nack, Names};
use store::look::{asked, wait};
use store::put::frames_there;
use store::types::Frames;

// What a tick did that put frames.
fn fired(puts: Frames, issued: Option<Ack>) -> Done<Ticked>
    ensures answer { result.answer ≡ Ticked.Fired puts.count }
    ensures puts { result.puts ≡ puts }
    ensures issued { result.issued ≡ issued }
{
    let count = puts.count as u8;
    Done {
        answer: Ticked::Fired { count },
        puts,
        issued,
    }
}

impl Head {
    // The top ACK, if it is this head's own.
    #[tactic(auto, unfolding(head::specs::Head::top))]
    fn own_top(&self) -> Option<Frame>
        ensures { put_of result ≡ own_again (model self.now) (top (model self.now)) }
    {
        self.queue
            .top()
            .filter(|ack| ack.issuer == self.me)
            .map(Frame::Ack)
    }

    // This head may issue an ACK now.
    fn may_issue(&self) -> bool
        ensures { result ≡ (holds self.now.size.heads (model self.now) && (room (model self.now) && stamps_left (model self.now))) }
    {
        self.holds_token() && self.has_room() && self.has_stamps()
    }
}

impl Member {
    // With no new ACK: the NACK, if one is wanted, and what is its own. Before the upkeep.
    fn fire(&mut self, nack: Option<Frame>) -> Done<Ticked>
        ensures size { self.new.head.size ≡ self.old.head.size }
        ensures after { did ticked result (settled self.old.head.size.heads (model_of self.new)) ≡ m_fire self.old.head.size.heads (model_of self.old) (put_of nack) }
    {
        let puts = frames_there(nack, self.head.own_top(), self.lowest_own());
        self.head.ticks = 0;
        self.head.tries = self.head.tries.saturating_add(1).min(15);
        fired(puts, None)
    }

    // With a new ACK. Before the upkeep.
    fn fire_ack(&mut self, names: Names) -> Done<Ticked>
        requires room { room (model_of self.old) ≡ true }
        requires stamps { stamps_left (model_of self.old) ≡ true }
        requires chosen { names_of names ≡ to_order self.old.head.size.heads (model_of self.old) }
        ensures size { self.new.head.size ≡ self.old.head.size }
        ensures after { did ticked result (settled self.old.head.size.heads (model_of self.new)) ≡ m_fire_ack self.old.head.size.heads (model_of self.old) (names_of names) }
    {
        let ack = self.issue(names);
        let puts = frames_there(Some(Frame::Ack(ack)), None, self.lowest_own());
        fired(puts, Some(ack))
    }

    // Nothing is missing: an ACK where one is due. Before the upkeep.
    fn pass_token(&mut self) -> Done<Ticked>
        ensures size { self.new.head.size ≡ self.old.head.size }
        ensures after { did ticked result (settled self.old.head.size.heads (model_of self.new)) ≡ tick_token self.old.head.size.heads (model_of self.old) }
    {
        if !self.head.may_issue() {
            return self.fire(None);
        }
        let names = self.gather();
        if names.count == 0 && !self.head.queue.is_busy(self.head.size.heads) {
            return self.fire(None);
        }
        self.fire_ack(names)
    }

    // Before the upkeep.
    #[tactic(auto, unfolding(head::specs::Tick::tick))]
    fn count_tick(&mut self) -> Done<Ticked>
        ensures size { self.new.head.size ≡ self.old.head.size }
        ensures after { did ticked result (settled self.old.head.size.heads (model_of self.new)) ≡ m_tick self.old.head.size.heads (model_of self.old) }
    {
        if self.head.ticks as u16 + 1 < wait(self.head.tries) as u16 {
            self.head.ticks += 1;
            return Done::new(Ticked::Idle, None);
        }
        let stamp = self.head.mark();
        if stamp < self.head.end() {
            let to = asked(self.head.queue.top(), self.head.tries, self.head.ring());
            return self.fire(Some(Frame::Nack(Nack {
                from: self.head.me,
                to,
                stamp,
            })));
        }
        self.pass_token()
    }

    // One tick: idle until the wait is over.
    pub fn tick(&mut self) -> Done<Ticked>
        ensures size { self.new.head.size ≡ self.old.head.size }
        ensures after { did ticked result (model_of self.new) ≡ m_tick self.old.head.size.heads (model_of self.old) }
    {
        let done = self.count_tick();
        self.head.settle();
        done
    }
}
