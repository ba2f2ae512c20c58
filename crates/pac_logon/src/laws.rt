//! What holds of logon information and its layout. These functions do nothing.

ghost use Rattle.std.specs.Prelude.{◌≡◌, ◌<◌, ◌≤◌, ◌^◌, length, Ok, All};
ghost use Rattle.krb_names.specs.Utf16.{utf16le_text};
ghost use Rattle.ndr_core.specs.Forms.{IsObjectForm};
ghost use Rattle.ndr_core.specs.Object.{object, spelling, IsObject};
ghost use Rattle.pac_logon.specs.Logon.{logon, IsDomainSid, IsWritable};

use crate::logon_info::LogonInfo;
use krb_names::Sid;

/// What is written is logon information, and is read again; bytes have at most one reading, and none are a proper
/// prefix of others.
pub fn keeps_laws()
    ensures ok { (info : LogonInfo) → IsWritable info → IsObject logon (spelling logon info) info }
    ensures exact { (info : LogonInfo) → IsWritable info → object logon (spelling logon info) ≡ Ok info }
    // Of all that is spelt in fewer than 2^31 bytes.
    ensures form { IsObjectForm logon }
{}

/// The widths of its numbers.
fn fields_fit(time: u64, number: u32, control: u32)
    ensures time { time < 2 ^ 64 }
    ensures number { number < 2 ^ 32 }
    ensures control { control < 2 ^ 32 }
{}

/// The width of each number.
fn numbers_fit(numbers: &[u32])
    ensures { All (λ n. n < 2 ^ 32) numbers.now }
{}

/// An identifier of at most 14 sub-authorities leaves room for a number.
fn sid_keeps_bounds(sid: &Sid)
    requires few { length sid.now.numbers ≤ 14 }
    ensures { IsDomainSid sid.now }
{
    sid.authority();
    numbers_fit(sid.numbers());
}

/// Within these bounds it can be written: the other bounds are those of its types.
pub fn keeps_bounds(info: &LogonInfo)
    requires name { length (utf16le_text info.now.subject.name) ≤ 65534 }
    requires domain { length (utf16le_text info.now.subject.domain) ≤ 65534 }
    requires sid { length info.now.subject.domain_sid.numbers ≤ 14 }
    requires few { length info.now.subject.groups ≤ 1024 }
    ensures { IsWritable info.now }
{
    let subject = &info.subject;
    fields_fit(info.time, subject.number, subject.control);
    subject.name.as_str();
    subject.domain.as_str();
    sid_keeps_bounds(&subject.domain_sid);
    numbers_fit(subject.groups.as_slice());
}
