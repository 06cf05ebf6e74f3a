// What a head has to say.
use std::fmt;

// How many probes there can be, and how many compartments.
pub(crate) const PLACES: u8 = 8;

// In hundredths of a degree Celsius.
#[derive(Clone, Copy, PartialEq, Eq, Debug)]
pub struct Temperature {
    pub hundredths: i16,
}

#[derive(Clone, Copy, PartialEq, Eq, Debug)]
pub struct Reading {
    pub probe: u8,
    pub temperature: Temperature,
}

#[derive(Clone, Copy, PartialEq, Eq, Debug)]
pub struct Door {
    pub compartment: u8,
    pub open: bool,
}

#[derive(Clone, Copy, PartialEq, Eq, Debug)]
pub struct SetPoint {
    pub compartment: u8,
    pub temperature: Temperature,
}

impl fmt::Display for Temperature {
    fn fmt<W: fmt::Write>(&self, f: &mut fmt::Formatter<W>) -> fmt::Result {
        let sign = if self.hundredths < 0 { "-" } else { "" };
        let size = self.hundredths.unsigned_abs();
        let degrees = size / 100;
        let rest = size % 100;
        write!(f, "{sign}{degrees}.{rest:02} °C")
    }
}

impl fmt::Display for Reading {
    fn fmt<W: fmt::Write>(&self, f: &mut fmt::Formatter<W>) -> fmt::Result {
        write!(f, "probe {} reads {}", self.probe, self.temperature)
    }
}

impl fmt::Display for Door {
    fn fmt<W: fmt::Write>(&self, f: &mut fmt::Formatter<W>) -> fmt::Result {
        let state = if self.open { "open" } else { "shut" };
        write!(f, "door {} is {state}", self.compartment)
    }
}

impl fmt::Display for SetPoint {
    fn fmt<W: fmt::Write>(&self, f: &mut fmt::Formatter<W>) -> fmt::Result {
        write!(
            f,
            "compartment {} is set to {}",
            self.compartment, self.temperature
        )
    }
}
