//! Times as the calendar and the clock show them, in UTC, from 1970 on (ISO 8601).
ghost use Rattle.std.specs.Prelude.{◌≡◌, ◌<◌, ◌≤◌, ◌≤ℤ◌, pos, true, None, Some, IfSome, if◌then◌else◌};
ghost use Rattle.jiff_core.specs.Date.{epoch_day};

use jiff_core::civil::Date;

const DAY: u64 = 86_400;

/// A year, a month from 1, a day from 1, an hour, a minute and a second.
#[derive(Clone, Copy)]
pub(crate) struct CivilTime {
    pub year: u16,
    pub month: u8,
    pub day: u8,
    pub hour: u8,
    pub minute: u8,
    pub second: u8,
}

impl CivilTime {
    ghost use Rattle.krb_names.specs.Calendar.{is_civil, seconds_of, civil_of};

    /// Its seconds since 1970, where the calendar and the clock show it.
    pub(crate) fn seconds(self) -> Option<u64>
        requires year { self.year ≤ 9999 }
        requires month { self.month ≤ 99 }
        requires day { self.day ≤ 99 }
        ensures value { result ≡ (if is_civil self then Some (seconds_of self) else None) }
        ensures found { IfSome result (λ seconds. seconds ≤ 253402300799) }
    {
        if self.year < 1970 || self.hour > 23 || self.minute > 59 || self.second > 59 {
            return None;
        }
        let Ok(date) = Date::new(self.year as i16, self.month as i8, self.day as i8) else {
            return None;
        };
        let clock = self.hour as u64 * 3600 + self.minute as u64 * 60 + self.second as u64;
        Some(days_of(date) * DAY + clock)
    }

    /// The time after so many seconds since 1970, up to the end of the year 9999.
    pub(crate) fn after(seconds: u64) -> CivilTime
        requires { seconds ≤ 253402300799 }
        ensures value { result ≡ civil_of seconds }
        ensures exact { (is_civil result ≡ true) × (seconds_of result ≡ seconds) }
        ensures found { (result.year ≤ 9999) × (result.month ≤ 12) × (result.day ≤ 31) × (result.hour < 24) × (result.minute < 60) × (result.second < 60) }
    {
        let date = date_after(seconds / DAY);
        let clock = seconds % DAY;
        CivilTime {
            year: year_of(date),
            month: date.month,
            day: date.day,
            hour: (clock / 3600) as u8,
            minute: (clock / 60 % 60) as u8,
            second: (clock % 60) as u8,
        }
    }
}

fn date_after(days: u64) -> Date
    requires { days ≤ 2932896 }
    ensures value { epoch_day result ≡ pos days }
    ensures found { pos 1970 ≤ℤ result.year }
{
    match Date::from_unix_epoch_day(days as i64) {
        Ok(date) => date,
        Err(_) => unreachable!(),
    }
}

fn year_of(date: Date) -> u16
    requires { pos 1970 ≤ℤ date.year }
    ensures { date.year ≡ pos result }
{
    date.year as u16
}

fn days_of(date: Date) -> u64
    requires { pos 1970 ≤ℤ date.year }
    ensures value { epoch_day date ≡ pos result }
    ensures found { result ≤ 2932896 }
{
    date.to_unix_epoch_day() as u64
}
