// Running a list of calls.
ghost use Rattle.std.specs.Prelude.{◌≡◌, List, MatchResult};
ghost use Rattle.ring.specs.Ring.{Event, Trip};
ghost use Rattle.ring.specs.Moves.{Moves, answered, ring_over};
ghost use Rattle.ring.specs.Runs.{LawfulRun, call_of, word_of};

use crate::request::{Answer, Call, Outcome, Request};
use crate::types::Ring;
use frames::refusal::Refusal;
use links::link::Link;
use std::alloc::{AllocError, Global};

impl<L: Link> Ring<L> {
    // A match, since a call is a value here.
    fn answer(&mut self, head: u8, call: Call) -> Result<Answer, Refusal>
        ensures { Moves L.waits self.old head (call_of call.entry) (answered word_of result) self.new }
    {
        match call {
            Call::Submit { level, body } => self.submit(head, level, body).map(Answer::Submitted),
            Call::Hear => self.hear(head).map(Answer::Heard),
            Call::Turn => self.turn(head).map(Answer::Turned),
            Call::Tick => self.tick(head).map(Answer::Ticked),
            Call::Deliver => self.deliver(head).map(Answer::Delivered),
        }
    }

    fn make(&mut self, request: Request) -> Outcome
        ensures moved { Moves L.waits self.old request.entry.head (call_of request.entry.call) (answered word_of result.result) self.new }
        ensures head { result.head ≡ request.entry.head }
    {
        let head = request.head;
        Outcome {
            head,
            result: self.answer(head, request.call),
        }
    }

    // Makes the calls in their order, and answers what came of each. Where memory for the answers is wanting, no call is made.
    pub fn run(&mut self, heap: Global, requests: &[Request]) -> Result<Vec<Outcome>, AllocError>
        ensures { MatchResult result (λ v. (es : List Event) → Trip self.old.heads.size.heads es (ring_over L.waits self.old) → LawfulRun L.waits requests.now v.items es self.old self.new) (λ _. (self.new.heads ≡ self.old.heads) × (self.new.link ≡ self.old.link)) }
    {
        let mut outcomes = Vec::with_capacity(heap, requests.len())?;
        for request in requests {
            outcomes.push_reserved(self.make(*request));
        }
        Ok(outcomes)
    }
}
