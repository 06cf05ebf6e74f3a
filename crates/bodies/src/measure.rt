// A temperature at a place: what readings and set points have in common.
ghost use Rattle.std.specs.Prelude.{◌≡◌, ℕ};
ghost use Rattle.std.proofs.Common.{rules};
ghost use Rattle.bodies.specs.declared.values.Temperature.{Temperature as Degrees};
ghost use Rattle.bodies.specs.Layout.{temperature_ok};

use crate::values::{Reading, SetPoint, Temperature};

impl Temperature {
    // Whether it is from -50 to 50 degrees.
    pub fn is_in_range(self) -> bool
        ensures { result ≡ temperature_ok self.hundredths }
    {
        (-5000..=5000).contains(&self.hundredths)
    }
}

// A reading or a set point.
pub trait Measure: Sized {
    // the first byte of its bodies
    const KIND: u8;

    ghost KIND: { ℕ };

    ghost place_of: { Self → ℕ };

    ghost temperature_of: { Self → Degrees };
    // the measure of this place and temperature
    ghost measured: { ℕ → Degrees → Self };

    // Its place and its temperature.
    fn parts(&self) -> (u8, Temperature)
        ensures place { result.0 ≡ place_of self.now }
        ensures temperature { result.1 ≡ temperature_of self.now };

    fn from_parts(place: u8, temperature: Temperature) -> Self
        ensures { result ≡ measured place temperature };

    ghost whole: { (x : Self) → measured (place_of x) (temperature_of x) ≡ x };
}

impl Measure for Reading {
    const KIND: u8 = 1;

    ghost KIND = { 1 };

    ghost place_of = { λ r. r.probe };

    ghost temperature_of = { λ r. r.temperature };

    ghost measured = { λ p t. record { probe = p; temperature = t } };

    ghost whole = { Prim.search rules };

    fn parts(&self) -> (u8, Temperature) {
        (self.probe, self.temperature)
    }

    fn from_parts(probe: u8, temperature: Temperature) -> Reading {
        Reading { probe, temperature }
    }
}

impl Measure for SetPoint {
    const KIND: u8 = 3;

    ghost KIND = { 3 };

    ghost place_of = { λ s. s.compartment };

    ghost temperature_of = { λ s. s.temperature };

    ghost measured = { λ p t. record { compartment = p; temperature = t } };

    ghost whole = { Prim.search rules };

    fn parts(&self) -> (u8, Temperature) {
        (self.compartment, self.temperature)
    }

    fn from_parts(compartment: u8, temperature: Temperature) -> SetPoint {
        SetPoint {
            compartment,
            temperature,
        }
    }
}
