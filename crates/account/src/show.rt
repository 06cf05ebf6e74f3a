// Lines and counts as text.
use crate::line::LineError;
use crate::tally::{Sort, Tally};
use bodies::kind::decode;
use bodies::values::{Door, Reading, SetPoint};
use frames::types::{Ack, Body, Frame, Name, RingSize};
use std::fmt;

// A line with its number, as heard in a ring of this size.
#[derive(Clone, Copy)]
pub struct Entry {
    pub number: u64,
    pub size: RingSize,
    pub line: Result<Frame, LineError>,
}

fn show_body<W: fmt::Write>(body: Body, f: &mut fmt::Formatter<W>) -> fmt::Result {
    write!(f, ", body")?;
    for byte in body.as_slice() {
        write!(f, " {byte:02X}")?;
    }
    if let Ok(reading) = decode::<Reading>(&body) {
        write!(f, ": {reading}")
    } else if let Ok(door) = decode::<Door>(&body) {
        write!(f, ": {door}")
    } else if let Ok(set_point) = decode::<SetPoint>(&body) {
        write!(f, ": {set_point}")
    } else {
        write!(f, ": no kind that is known")
    }
}

fn show_names<W: fmt::Write>(names: &[Name], f: &mut fmt::Formatter<W>) -> fmt::Result {
    if names.is_empty() {
        return write!(f, ", no names");
    }
    for name in names {
        write!(f, "; {name}")?;
    }
    Ok(())
}

fn show_ack<W: fmt::Write>(size: RingSize, ack: Ack, f: &mut fmt::Formatter<W>) -> fmt::Result {
    let next = size.after(ack.issuer);
    write!(
        f,
        "ACK: stamp {}, issuer {}, next {next}",
        ack.stamp, ack.issuer
    )?;
    show_names(ack.names.as_slice(), f)
}

impl fmt::Display for Entry {
    fn fmt<W: fmt::Write>(&self, f: &mut fmt::Formatter<W>) -> fmt::Result {
        write!(f, "{:>4}  ", self.number)?;
        match self.line {
            Ok(Frame::Data(message)) => {
                write!(f, "Data: {}", message.name)?;
                show_body(message.body, f)
            }
            Ok(Frame::Ack(ack)) => show_ack(self.size, ack, f),
            Ok(Frame::Nack(nack)) => {
                write!(
                    f,
                    "NACK: from {}, to {}, stamp {}",
                    nack.from, nack.to, nack.stamp
                )
            }
            Err(error) => write!(f, "{error}"),
        }
    }
}

impl fmt::Display for Tally {
    fn fmt<W: fmt::Write>(&self, f: &mut fmt::Formatter<W>) -> fmt::Result {
        writeln!(
            f,
            "accepted: {} Data, {} ACK, {} NACK",
            self.count(Sort::DataFrame),
            self.count(Sort::AckFrame),
            self.count(Sort::NackFrame)
        )?;
        writeln!(
            f,
            "refused: {} by 11, {} by 12",
            self.count(Sort::NoFrame),
            self.count(Sort::OutOfRange)
        )?;
        write!(f, "not base-sixteen text: {}", self.count(Sort::NoHex))
    }
}
