//! The structures of a PAC as bytes.
ghost use Rattle.std.specs.Prelude.{◌≤◌, length, IfOk, IsTrue};
ghost use Rattle.krb_names.specs.Utf16.{utf16le_text};

use krb_names::{Sid, Text, Texts, to_utf16le};
use ndr_core::{LogonFault, NdrCause, NdrRefusal};
use pac_buffers::*;
use std::alloc::{AllocError, Global};
use std::test::Fail;

/// Type 1, 8 bytes at 24.
const ALONE: [u8; 32] = [
    1, 0, 0, 0, 0, 0, 0, 0, //
    1, 0, 0, 0, 8, 0, 0, 0, 24, 0, 0, 0, 0, 0, 0, 0, //
    0, 0, 0, 0, 0, 0, 0, 0,
];

/// Type 1, 7 bytes at 25.
const MISALIGNED: [u8; 32] = [
    1, 0, 0, 0, 0, 0, 0, 0, //
    1, 0, 0, 0, 7, 0, 0, 0, 25, 0, 0, 0, 0, 0, 0, 0, //
    0, 0, 0, 0, 0, 0, 0, 0,
];

/// Type 1, 8 bytes at 16, in the list.
const OVER_LIST: [u8; 32] = [
    1, 0, 0, 0, 0, 0, 0, 0, //
    1, 0, 0, 0, 8, 0, 0, 0, 16, 0, 0, 0, 0, 0, 0, 0, //
    0, 0, 0, 0, 0, 0, 0, 0,
];

/// Type 1, 8 bytes at 2^64 - 8.
const FAR: [u8; 32] = [
    1, 0, 0, 0, 0, 0, 0, 0, //
    1, 0, 0, 0, 8, 0, 0, 0, 0xf8, 0xff, 0xff, 0xff, 0xff, 0xff, 0xff, 0xff, //
    0, 0, 0, 0, 0, 0, 0, 0,
];

/// Types 1 and 6, 8 bytes at 40 each.
const OVERLAP: [u8; 48] = [
    2, 0, 0, 0, 0, 0, 0, 0, //
    1, 0, 0, 0, 8, 0, 0, 0, 40, 0, 0, 0, 0, 0, 0, 0, //
    6, 0, 0, 0, 8, 0, 0, 0, 40, 0, 0, 0, 0, 0, 0, 0, //
    0, 0, 0, 0, 0, 0, 0, 0,
];

/// Type 1, 8 bytes at 40, and again at 48.
const TWICE: [u8; 56] = [
    2, 0, 0, 0, 0, 0, 0, 0, //
    1, 0, 0, 0, 8, 0, 0, 0, 40, 0, 0, 0, 0, 0, 0, 0, //
    1, 0, 0, 0, 8, 0, 0, 0, 48, 0, 0, 0, 0, 0, 0, 0, //
    0, 0, 0, 0, 0, 0, 0, 0, 0, 0, 0, 0, 0, 0, 0, 0,
];

/// Type 1, 8 bytes at 72; types 10, 6 and 7 with no bytes.
const FOUR: [u8; 80] = [
    4, 0, 0, 0, 0, 0, 0, 0, //
    1, 0, 0, 0, 8, 0, 0, 0, 72, 0, 0, 0, 0, 0, 0, 0, //
    10, 0, 0, 0, 0, 0, 0, 0, 80, 0, 0, 0, 0, 0, 0, 0, //
    6, 0, 0, 0, 0, 0, 0, 0, 80, 0, 0, 0, 0, 0, 0, 0, //
    7, 0, 0, 0, 0, 0, 0, 0, 80, 0, 0, 0, 0, 0, 0, 0, //
    1, 2, 3, 4, 5, 6, 7, 8,
];

#[test]
fn refusals(rt: HostRuntime) {
    for (bytes, refusal) in [
        ([0; 7].as_slice(), PacRefusal::Truncated),
        (&[0; 8], PacRefusal::Missing(1)),
        (&[0xff, 0xff, 0xff, 0xff, 0, 0, 0, 0], PacRefusal::Truncated),
        (&ALONE, PacRefusal::Missing(6)),
        (&ALONE[..31], PacRefusal::Truncated),
        (&MISALIGNED, PacRefusal::Misaligned),
        (&OVER_LIST, PacRefusal::Overlap),
        (&OVERLAP, PacRefusal::Overlap),
        (&TWICE, PacRefusal::Twice(1)),
        (&FAR, PacRefusal::Truncated),
    ] {
        assert!(rt; bytes.len() < 100);
        assert_eq!(rt; PacView::read(bytes).err(), Some(refusal));
    }
}

#[test]
fn buffers(rt: HostRuntime) -> Result<(), Fail> {
    let pac = PacView::read(&FOUR).ok().ok_or("a PAC")?;
    assert_eq!(rt;
        pac.buffer(1).ok_or("a buffer")?,
        [1, 2, 3, 4, 5, 6, 7, 8].as_slice()
    );
    assert_eq!(rt; pac.place(6).ok_or("a place")?.start, 80);
    assert!(rt; pac.buffer(11).is_none());
    assert_eq!(rt; pac.bytes().len(), 80);
    Ok(())
}

/// S-1-5-21-1-1-1-1001 in its packed form.
const REQUESTOR: [u8; 28] = [
    1, 5, 0, 0, 0, 0, 0, 5, 21, 0, 0, 0, 1, 0, 0, 0, 1, 0, 0, 0, 1, 0, 0, 0, 0xe9, 3, 0, 0,
];

#[test]
fn requestor(rt: HostRuntime) -> Result<(), Fail> {
    let sid = Sid::new(5, &[21, 1, 1, 1, 1001]);
    let bytes = Requestor { sid }.write(rt.alloc())?;
    assert_eq!(rt; bytes.as_slice(), REQUESTOR.as_slice());
    let read = Requestor::read(rt.alloc(), &REQUESTOR).ok().ok_or("a SID")?;
    assert_eq!(rt; read.sid.numbers(), [21, 1, 1, 1, 1001].as_slice());
    Ok(())
}

#[test]
fn signature(rt: HostRuntime) -> Result<(), Fail> {
    let signature = SignatureData {
        sum_type: 16,
        sum: [7; 12],
    };
    let bytes = signature.write(rt.alloc())?;
    let spelt = [16, 0, 0, 0, 7, 7, 7, 7, 7, 7, 7, 7, 7, 7, 7, 7];
    assert_eq!(rt; bytes.as_slice(), spelt.as_slice());
    let read = SignatureData::read(rt.alloc(), &spelt)
        .ok()
        .ok_or("a signature")?;
    assert_eq!(rt; read.sum_type, 16);
    Ok(())
}

/// Whether a text fits in a string of a PAC.
fn is_short(alloc: Global, text: &Text) -> Result<bool, AllocError>
    ensures { IfOk result (λ short. IsTrue short → length (utf16le_text text.now) ≤ 65534) }
{
    Ok(to_utf16le(alloc, text.as_str())?.len() <= 65534)
}

/// alice, authenticated at the first second of 1970.
const CLIENT: [u8; 20] = [
    0x00, 0x80, 0x3e, 0xd5, 0xde, 0xb1, 0x9d, 0x01, // ClientId
    10, 0, // NameLength
    b'a', 0, b'l', 0, b'i', 0, b'c', 0, b'e', 0, // Name
];

#[test]
fn client(rt: HostRuntime) -> Result<(), Fail> {
    let name = Text::copy(rt.alloc(), "alice")?;
    assert!(rt; is_short(rt.alloc(), &name)?);
    let time = 116_444_736_000_000_000;
    let bytes = ClientInfo { time, name }.write()?;
    assert_eq!(rt; bytes.as_slice(), CLIENT.as_slice());
    let read = ClientInfo::read(rt.alloc(), &CLIENT)
        .ok()
        .ok_or("a client")?;
    assert_eq!(rt; read.time, time);
    assert_eq!(rt; read.name.as_str(), "alice");
    Ok(())
}

/// Asked for db/main, through web@R.
const DELEGATION: [u8; 104] = [
    1, 0x10, 8, 0, 0xcc, 0xcc, 0xcc, 0xcc, 88, 0, 0, 0, 0, 0, 0, 0, // header
    0, 0, 2, 0, // pointer to the structure
    14, 0, 14, 0, 4, 0, 2, 0, // S4U2proxyTarget
    1, 0, 0, 0, 8, 0, 2, 0, // TransitedListSize, S4UTransitedServices
    7, 0, 0, 0, 0, 0, 0, 0, 7, 0, 0, 0, // the target's counts
    b'd', 0, b'b', 0, b'/', 0, b'm', 0, b'a', 0, b'i', 0, b'n', 0, 0, 0, // its units
    1, 0, 0, 0, // the count of services
    10, 0, 10, 0, 12, 0, 2, 0, // the service
    5, 0, 0, 0, 0, 0, 0, 0, 5, 0, 0, 0, // its counts
    b'w', 0, b'e', 0, b'b', 0, b'@', 0, b'R', 0, 0, 0, 0, 0, 0, 0, // its units, and padding
];

#[test]
fn delegation(rt: HostRuntime) -> Result<(), Fail> {
    let target = Text::copy(rt.alloc(), "db/main")?;
    let service = Text::copy(rt.alloc(), "web@R")?;
    assert!(rt; is_short(rt.alloc(), &target)?);
    assert!(rt; is_short(rt.alloc(), &service)?);
    let mut services = Texts::new(rt.alloc());
    services.push(service)?;
    let bytes = DelegationInfo { target, services }.write()?;
    assert_eq!(rt; bytes.as_slice(), DELEGATION.as_slice());
    let read = DelegationInfo::read(rt.alloc(), &DELEGATION)
        .ok()
        .ok_or("a delegation")?;
    assert_eq!(rt; read.target.as_str(), "db/main");
    assert_eq!(rt; read.services.len(), 1);
    Ok(())
}

#[test]
fn a_cut_delegation_is_truncated(rt: HostRuntime) {
    let cut = DelegationInfo::read(rt.alloc(), &DELEGATION[..103]);
    assert!(rt;
        matches!(
            cut,
            Err(LogonFault::Ndr(NdrRefusal {
                cause: NdrCause::Truncated,
                place: 103
            }))
        )
    );
}

/// Logon and client information, and two signatures.
const BUILT: [u8; 120] = [
    4, 0, 0, 0, 0, 0, 0, 0, // cBuffers, Version
    1, 0, 0, 0, 8, 0, 0, 0, 72, 0, 0, 0, 0, 0, 0, 0, // logon information
    10, 0, 0, 0, 3, 0, 0, 0, 80, 0, 0, 0, 0, 0, 0, 0, // client information
    6, 0, 0, 0, 16, 0, 0, 0, 88, 0, 0, 0, 0, 0, 0, 0, // server signature
    7, 0, 0, 0, 16, 0, 0, 0, 104, 0, 0, 0, 0, 0, 0, 0, // KDC signature
    1, 2, 3, 4, 5, 6, 7, 8, //
    9, 9, 9, 0, 0, 0, 0, 0, //
    15, 0, 0, 0, 5, 5, 5, 5, 5, 5, 5, 5, 5, 5, 5, 5, //
    16, 0, 0, 0, 0, 0, 0, 0, 0, 0, 0, 0, 0, 0, 0, 0,
];

#[test]
fn built(rt: HostRuntime) -> Result<(), Fail> {
    let logon = [1, 2, 3, 4, 5, 6, 7, 8];
    let mut pac = Pac::build(rt.alloc(), &logon, &[9, 9, 9], None, false, 15, 16)?;
    assert!(rt; pac.put(6, &[5; 12]));
    assert!(rt; !pac.put(1, &[5; 12]));
    assert!(rt; !pac.put(16, &[5; 12]));
    assert_eq!(rt; pac.as_slice(), BUILT.as_slice());
    Ok(())
}

#[test]
fn built_for_a_service(rt: HostRuntime) -> Result<(), Fail> {
    let services = [7; 9];
    let pac = Pac::build(rt.alloc(), &[1; 5], &[2; 3], Some(&services), true, 15, 16)?;
    assert_eq!(rt; pac.place(1), Some(104..109));
    assert_eq!(rt; pac.place(10), Some(112..115));
    assert_eq!(rt; pac.place(11), Some(120..129));
    assert_eq!(rt; pac.place(6), Some(136..152));
    assert_eq!(rt; pac.place(7), Some(152..168));
    assert_eq!(rt; pac.place(16), Some(168..184));
    Ok(())
}

#[test]
fn a_cut_requestor_is_truncated(rt: HostRuntime) {
    let cut = Requestor::read(rt.alloc(), &REQUESTOR[..27]);
    assert!(rt;
        matches!(
            cut,
            Err(LogonFault::Ndr(NdrRefusal {
                cause: NdrCause::Truncated,
                place: 27,
            }))
        )
    );
}
