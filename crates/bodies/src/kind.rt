// A kind of body writes its values and reads them back.
ghost use Rattle.std.specs.Prelude.{◌≡◌, ℕ, Bool, true, List, ◌++◌, length, drop, IfOk, if◌then◌else◌, Ok, Err, Result};
ghost use Rattle.frames.specs.declared.refusal.Refusal.{Refusal as Refused};
ghost use Rattle.frames.specs.declared.refusal.Refusal.TheVariants.{ValueOutOfRange};
ghost use Rattle.frames.specs.Bounds.{body_length_ok};
ghost use Rattle.frames.specs.Types.{meant, body_of, BodyRest};
ghost use Rattle.bodies.specs.Layout.{measure_ok, measure_bytes};
ghost use Rattle.bodies.specs.Kinds.{door_ok, written_door, door_in, measure_in};
ghost use Rattle.std.proofs.Common.{rules};

use crate::measure::Measure;
use crate::values::{Door, PLACES, Temperature};
use frames::refusal::Refusal;
use frames::types::Body;

pub trait Kind: Sized {
    // whether a value is in range
    ghost good: { Self → Bool };
    // the bytes of a value
    ghost bytes: { Self → List ℕ };
    // the value that bytes hold, if they are of this kind
    ghost reads: { List ℕ → Result Self Refused };

    // Writes the value at the front of out, and answers its length. The memory is the caller's, since there is no heap.
    fn write(&self, out: &mut [u8; 8]) -> Result<usize, Refusal>
        ensures answer { result ≡ (if good self.now then Ok (length (bytes self.now)) else Err ValueOutOfRange) }
        ensures after { out.new ≡ (if good self.now then bytes self.now ++ drop (length (bytes self.now)) out.old else out.old) };

    // The value that the bytes hold.
    fn read(body: &[u8]) -> Result<Self, Refusal>
        ensures { result ≡ reads body.now };

    ghost back: { (x : Self) → good x ≡ true → reads (bytes x) ≡ Ok x };

    ghost fits: { (x : Self) → body_length_ok (length (bytes x)) ≡ true };
}

// The first byte of a door's body. A constant and no enum, as a measure's KIND: each kind of body is a type.
const DOOR: u8 = 2;

impl Kind for Door {
    ghost good = { door_ok };

    ghost bytes = { written_door };

    ghost reads = { door_in };

    ghost back = { Prim.search rules };

    ghost fits = { Prim.search rules };

    fn write(&self, out: &mut [u8; 8]) -> Result<usize, Refusal> {
        if self.compartment >= PLACES {
            return Err(Refusal::ValueOutOfRange);
        }
        out[..3].copy_from_slice(&[DOOR, self.compartment, u8::from(self.open)]);
        Ok(3)
    }

    fn read(body: &[u8]) -> Result<Door, Refusal> {
        match *body {
            [DOOR, compartment, open] if compartment < PLACES => Ok(Door {
                compartment,
                open: open != 0,
            }),
            _ => Err(Refusal::NotThisKind),
        }
    }
}

// A measure's kind, its place and its temperature in two bytes, the higher first.
impl<M: Measure> Kind for M {
    ghost good = { λ x. measure_ok (M.place_of x) (M.temperature_of x).hundredths };

    ghost bytes = { λ x. measure_bytes M.KIND (M.place_of x) (M.temperature_of x).hundredths };

    ghost reads = { measure_in M.measured M.KIND };

    ghost back = { Prim.search rules };

    ghost fits = { Prim.search rules };

    fn write(&self, out: &mut [u8; 8]) -> Result<usize, Refusal> {
        let (place, temperature) = self.parts();
        if place >= PLACES || !temperature.is_in_range() {
            return Err(Refusal::ValueOutOfRange);
        }
        let [high, low] = temperature.hundredths.to_be_bytes();
        out[..4].copy_from_slice(&[M::KIND, place, high, low]);
        Ok(4)
    }

    fn read(body: &[u8]) -> Result<M, Refusal> {
        let [kind, place, high, low] = *body else {
            return Err(Refusal::NotThisKind);
        };
        let temperature = Temperature {
            hundredths: i16::from_be_bytes([high, low]),
        };
        if kind == M::KIND && place < PLACES && temperature.is_in_range() {
            Ok(M::from_parts(place, temperature))
        } else {
            Err(Refusal::NotThisKind)
        }
    }
}

// The body that says the value. What comes is read back as the same value.
// No TryFrom, here and in decode: for every kind at once it would be a foreign trait on a foreign type.
pub fn encode<K: Kind>(value: &K) -> Result<Body, Refusal>
    ensures answer { meant body_of result ≡ (if K.good value.now then Ok (K.bytes value.now) else Err ValueOutOfRange) }
    ensures rest { IfOk result BodyRest }
    ensures back { IfOk result (λ b. K.reads (body_of b) ≡ Ok value.now) }
{
    let mut out = [0; 8];
    let len = value.write(&mut out)?;
    Body::try_from(&out[..len])
}

// The value that the body says, where it is of this kind.
pub fn decode<K: Kind>(body: &Body) -> Result<K, Refusal>
    ensures { result ≡ K.reads (body_of body.now) }
{
    K::read(body.as_slice())
}
