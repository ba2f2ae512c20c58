//! Numbers as decimal digits.
ghost use Rattle.std.specs.Prelude.{◌≡◌};
ghost use Rattle.std.specs.Char.{is_ascii_digit};
ghost use Rattle.std.specs.List.{list_all};
ghost use Rattle.krb_names.specs.Decimals.{decimal_reading, has_leading_zero, is_decimal};

/// The number that a text writes in decimal digits, at most `most`; without sign, and without a leading zero other than `0` itself.
pub fn parse_decimal(text: &str, most: u64) -> Option<u64>
    ensures { result ≡ decimal_reading most text.now }
{
    if !is_decimal(text.as_bytes()) {
        return None;
    }
    let Ok(number) = text.parse::<u64>() else {
        return None;
    };
    if number <= most { Some(number) } else { None }
}

fn is_decimal(digits: &[u8]) -> bool
    ensures { result ≡ is_decimal digits.now }
{
    !digits.is_empty() && !has_leading_zero(digits) && are_digits(digits)
}

fn has_leading_zero(digits: &[u8]) -> bool
    ensures { result ≡ has_leading_zero digits.now }
{
    digits.len() > 1 && digits[0] == b'0'
}

pub(crate) fn are_digits(bytes: &[u8]) -> bool
    ensures { result ≡ list_all is_ascii_digit bytes.now }
{
    bytes.iter().all(|byte| byte.is_ascii_digit())
}
