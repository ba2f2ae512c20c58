//! Security identifiers as texts, MS-DTYP, section 2.4.2.1.
ghost use Rattle.std.specs.Prelude.{◌≡◌, ◌≤◌, [], ◌∷◌, take, option_map, IfSome, MatchOption};
ghost use Rattle.krb_names.specs.SidTexts.{after_prefix, hyphen_pieces, sid_of_text, sid_reading, sub_authorities_of};

use crate::decimal::parse_decimal;
use crate::refusal::NameRefusal;
use crate::sid::Sid;

const MOST_AUTHORITY: u64 = 0xffff_ffff_ffff;

const MOST_NUMBERS: usize = 15;

/// Reads `S-1-`, an authority below 2^48 and 1 to 15 numbers below 2^32, all in decimal digits with a hyphen between them. Takes no memory.
///
/// # Errors
/// `Empty` for the empty text, `BadText` for any other that is not of this form.
pub fn parse_sid(text: &str) -> Result<Sid, NameRefusal>
    ensures { result ≡ sid_reading text.now }
{
    if text.is_empty() {
        return Err(NameRefusal::Empty);
    }
    read_sid(text).ok_or(NameRefusal::BadText)
}

fn read_sid(text: &str) -> Option<Sid>
    ensures { result ≡ sid_of_text text.now }
{
    let Some(rest) = strip_version(text) else {
        return None;
    };
    let Some((first, others)) = split_at_hyphen(rest) else {
        return None;
    };
    let Some(authority) = parse_decimal(first, MOST_AUTHORITY) else {
        return None;
    };
    let mut numbers = [0; MOST_NUMBERS];
    match read_numbers(others, &mut numbers) {
        Some(count) => Some(Sid::new(authority, &numbers[..count])),
        None => None,
    }
}

fn strip_version(text: &str) -> Option<&str>
    ensures { option_map (λ rest. rest.now) result ≡ after_prefix text.now }
{
    text.strip_prefix("S-1-")
}

fn split_at_hyphen(text: &str) -> Option<(&str, &str)>
    ensures { MatchOption result (hyphen_pieces text.now ≡ text.now ∷ []) (λ parts. hyphen_pieces text.now ≡ parts.0.now ∷ hyphen_pieces parts.1.now) }
{
    text.split_once('-')
}

/// Reads the numbers between the hyphens into the front of the array, and tells how many there are.
fn read_numbers(text: &str, numbers: &mut [u32; MOST_NUMBERS]) -> Option<usize>
    ensures value { option_map (λ count. take count numbers.new) result ≡ sub_authorities_of (hyphen_pieces text.now) }
    ensures found { IfSome result (λ count. (1 ≤ count) × (count ≤ 15)) }
{
    let mut count = 0;
    for piece in text.split('-') {
        if count == MOST_NUMBERS {
            return None;
        }
        match parse_decimal(piece, u32::MAX as u64) {
            Some(number) => numbers[count] = number as u32,
            None => return None,
        }
        count += 1;
    }
    Some(count)
}
