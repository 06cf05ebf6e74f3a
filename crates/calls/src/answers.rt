// What the calls answer: the words of docs/PROTOCOL.md, one case for each. So an answer of a single case, or of one beside a case with nothing, is no plainer as a number or an Option.
use frames::types::{Ack, Message};
use store::types::Frames;

// What a call did: its answer, the frames that it puts, in this order, and the ACK that it issued, if any.
#[derive(Clone, Copy)]
pub struct Done<A> {
    pub answer: A,
    pub puts: Frames,
    pub issued: Option<Ack>,
}

// Made: with the number of the new message, whose Data frame is put.
#[derive(Clone, Copy)]
pub enum Submission {
    Made { number: u32 },
}

// Resent: a frame is put, and only then.
#[derive(Clone, Copy)]
pub enum Hearing {
    Quiet,
    Kept,
    Filled,
    Repeat,
    Far,
    Placed,
    Crowded,
    Resent,
    Nothing,
}

// Ordered: with the stamp of the new ACK, and how many messages it names.
#[derive(Clone, Copy)]
pub enum Turned {
    NotYours,
    Nothing,
    Crowded,
    Ordered { stamp: u32, count: u8 },
}

// Fired: with the number of frames put.
#[derive(Clone, Copy)]
pub enum Ticked {
    Idle,
    Fired { count: u8 },
}

// Message: the next one of the common list, with its stamp.
#[derive(Clone, Copy)]
pub enum Delivered {
    Waiting,
    Message { message: Message, stamp: u32 },
}
