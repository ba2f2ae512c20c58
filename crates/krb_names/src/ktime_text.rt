//! KerberosTime as text, RFC 4120, section 5.2.3.
ghost use Rattle.std.specs.Prelude.{◌≡◌, ◌<◌, ◌≤◌, length, IsTrue, Ok};
ghost use Rattle.krb_names.specs.Times.{BeginsWithDigits, civil_digits, civil_text, has_time_form, in_two_digits, ktime_reading, ktime_text, two_digits};

use crate::civil::CivilTime;
use crate::decimal::are_digits;
use crate::ktime::KTime;
use crate::refusal::NameRefusal;

/// Reads `YYYYMMDDHHMMSSZ`, a second from 1970 on. Takes no memory.
///
/// # Errors
/// `BadTime` for any other bytes, second 60 too.
pub fn ktime_read(text: &[u8]) -> Result<KTime, NameRefusal>
    ensures { result ≡ ktime_reading text.now }
{
    if !has_time_form(text) {
        return Err(NameRefusal::BadTime);
    }
    match read_civil(text).seconds() {
        Some(seconds) => Ok(KTime::new(seconds)),
        None => Err(NameRefusal::BadTime),
    }
}

/// Writes `YYYYMMDDHHMMSSZ`. Takes no memory.
pub fn ktime_write(t: KTime) -> [u8; 15]
    ensures value { result ≡ ktime_text t }
    ensures exact { ktime_reading result ≡ Ok t }
{
    write_civil(CivilTime::after(t.secs()))
}

fn write_civil(civil: CivilTime) -> [u8; 15]
    requires year { civil.year ≤ 9999 }
    requires month { civil.month ≤ 99 }
    requires day { civil.day ≤ 99 }
    requires hour { civil.hour ≤ 99 }
    requires minute { civil.minute ≤ 99 }
    requires second { civil.second ≤ 99 }
    ensures { result ≡ civil_text civil }
{
    let [y0, y1] = in_two_digits((civil.year / 100) as u8);
    let [y2, y3] = in_two_digits((civil.year % 100) as u8);
    let [n0, n1] = in_two_digits(civil.month);
    let [d0, d1] = in_two_digits(civil.day);
    let [h0, h1] = in_two_digits(civil.hour);
    let [m0, m1] = in_two_digits(civil.minute);
    let [s0, s1] = in_two_digits(civil.second);
    [y0, y1, y2, y3, n0, n1, d0, d1, h0, h1, m0, m1, s0, s1, b'Z']
}

fn has_time_form(text: &[u8]) -> bool
    ensures value { result ≡ has_time_form text.now }
    ensures found { IsTrue result → BeginsWithDigits text.now }
{
    text.len() == 15 && are_digits(&text[..14]) && text[14] == b'Z'
}

fn read_civil(text: &[u8]) -> CivilTime
    requires long { length text.now ≡ 15 }
    requires digits { BeginsWithDigits text.now }
    ensures value { result ≡ civil_digits text.now }
    ensures found { (result.year ≤ 9999) × (result.month ≤ 99) × (result.day ≤ 99) }
{
    CivilTime {
        year: two_digits(text, 0) as u16 * 100 + two_digits(text, 2) as u16,
        month: two_digits(text, 4),
        day: two_digits(text, 6),
        hour: two_digits(text, 8),
        minute: two_digits(text, 10),
        second: two_digits(text, 12),
    }
}

fn two_digits(text: &[u8], place: usize) -> u8
    requires long { length text.now ≡ 15 }
    requires digits { BeginsWithDigits text.now }
    requires inside { place < 13 }
    ensures value { result ≡ two_digits text.now place }
    ensures found { result ≤ 99 }
{
    (text[place] - b'0') * 10 + (text[place + 1] - b'0')
}

fn in_two_digits(number: u8) -> [u8; 2]
    requires { number ≤ 99 }
    ensures { result ≡ in_two_digits number }
{
    [b'0' + number / 10, b'0' + number % 10]
}
