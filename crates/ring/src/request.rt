// Calls as values: what is asked of a ring, and what came of it.
use calls::answers::{Delivered, Hearing, Submission, Ticked, Turned};
use frames::refusal::Refusal;

// A call, with its inputs: a value and no closure, so that a list of calls can be made and a contract can speak of each.
// The level is a number, as in the call.
#[derive(Clone, Copy, PartialEq, Eq, Debug)]
pub enum Call<'a> {
    Submit { level: u8, body: &'a [u8] },
    Hear,
    Turn,
    Tick,
    Deliver,
}

// A call on a head.
#[derive(Clone, Copy, PartialEq, Eq, Debug)]
pub struct Request<'a> {
    pub head: u8,
    pub call: Call<'a>,
}

// What a call answered.
#[derive(Clone, Copy)]
pub enum Answer {
    Submitted(Submission),
    Heard(Hearing),
    Turned(Turned),
    Ticked(Ticked),
    Delivered(Delivered),
}

// What is seen of a call: the head that it was made on, and its answer or refusal.
#[derive(Clone, Copy)]
pub struct Outcome {
    pub head: u8,
    pub result: Result<Answer, Refusal>,
}
