//! Octets as hexadecimal digits.
ghost use Rattle.std.specs.Prelude.{◌≡◌, ◌≢◌, ℕ, List, Err, IfOk, string_bytes};
ghost use Rattle.kdc_replay.specs.Octets.{Spells, spelling};

use crate::fault::LineFault;
use krb_names::Bytes;
use std::alloc::{AllocError, Global};

/// The digits of some octets, in lower case; `-` for none.
pub fn spell(alloc: Global, octets: &[u8]) -> Result<String, AllocError>
    ensures { IfOk result (λ text. string_bytes text ≡ spelling octets.now) }
{
    if octets.is_empty() {
        return String::from_str(alloc, "-");
    }
    hex::encode(alloc, octets)
}

/// The octets that a word spells.
pub fn read_octets(alloc: Global, word: &str) -> Result<Bytes, LineFault>
    ensures read { IfOk result (λ octets. spelling octets ≡ word.now) }
    ensures found { (octets : List ℕ) → Spells word.now octets → result ≢ Err LineFault.Unread }
{
    let octets = decode(alloc, word)?;
    if spell(alloc, octets.as_slice())?.as_str() == word {
        Ok(Bytes::from_vec(octets))
    } else {
        Err(LineFault::Unread)
    }
}

/// The octets, where the word spells some.
fn decode(alloc: Global, word: &str) -> Result<Vec<u8>, LineFault>
    ensures found { (octets : List ℕ) → Spells word.now octets → result ≢ Err LineFault.Unread }
    ensures only { (octets : List ℕ) → Spells word.now octets → IfOk result (λ found. found.items ≡ octets) }
{
    if word == "-" {
        return Ok(Vec::new(alloc));
    }
    Ok(hex::decode(alloc, word)?)
}
