// Bytes from text in base sixteen.
ghost use Rattle.std.specs.Prelude.{◌≡◌, ℕ, ◌<◌, List, IfOk, vec_items, MatchOption};
ghost use Rattle.std.specs.Option.{option_map};
ghost use Rattle.account.specs.Hex.{blank, digit_value, hex_bytes};

use std::alloc::{AllocError, Global};

fn is_blank(c: u8) -> bool
    ensures { result ≡ blank c }
{
    matches!(c, b' ' | b'\t' | b'\r')
}

fn digit(c: u8) -> Option<u8>
    ensures value { result ≡ digit_value c }
    ensures bound { MatchOption result (⊥ → ⊥) (λ d. d < 16) }
{
    char::from(c).to_digit(16).map(|d| d as u8)
}

// The bytes that the text writes, a pair of digits each, with blanks anywhere; None where it is no base-sixteen text.
#[tactic(auto, using(crate::proofs::Digits::reading))]
pub fn parse(text: &[u8], heap: Global) -> Result<Option<Vec<u8>>, AllocError>
    ensures { IfOk result (λ o. option_map vec_items o ≡ hex_bytes text.now) }
{
    let mut bytes = Vec::new(heap);
    let mut high = None;
    for &c in text {
        if is_blank(c) {
            continue;
        }
        let Some(d) = digit(c) else {
            return Ok(None);
        };
        match high {
            None => high = Some(d),
            Some(h) => {
                bytes.push(h * 16 + d)?;
                high = None;
            }
        }
    }
    match high {
        None => Ok(Some(bytes)),
        Some(_) => Ok(None),
    }
}
