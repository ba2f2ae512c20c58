use der_forms::Form;
use krb_tickets::{Malformed, Message, PlainMessage, TicketFault, read_message};
use s4u_padata::{ForUser, PacOptions, X509User, for_user_bytes};
use std::alloc::Global;
use std::test::Fail;

/// A PA-S4U-X509-USER with a certificate and no options.
const USER: [u8; 58] = [
    0x30, 0x38, // PA-S4U-X509-USER
    0xa0, 0x27, 0x30, 0x25, // user-id
    0xa0, 0x03, 0x02, 0x01, 0x07, // nonce
    0xa1, 0x12, 0x30, 0x10, 0xa0, 0x03, 0x02, 0x01, 0x01, 0xa1, 0x09, 0x30, 0x07, 0x1b, 0x05, 0x61,
    0x6c, 0x69, 0x63, 0x65, // cname
    0xa2, 0x03, 0x1b, 0x01, 0x52, // crealm
    0xa3, 0x05, 0x04, 0x03, 0x01, 0x02, 0x03, // subject-certificate
    0xa1, 0x0d, 0x30, 0x0b, 0xa0, 0x03, 0x02, 0x01, 0x10, 0xa1, 0x04, 0x04, 0x02, 0x09, 0x09, // checksum
];

/// A PA-FOR-USER for alice.
const NAME: [u8; 55] = [
    0x30, 0x35, // PA-FOR-USER
    0xa0, 0x12, 0x30, 0x10, 0xa0, 0x03, 0x02, 0x01, 0x01, 0xa1, 0x09, 0x30, 0x07, 0x1b, 0x05, 0x61,
    0x6c, 0x69, 0x63, 0x65, // userName
    0xa1, 0x03, 0x1b, 0x01, 0x52, // userRealm
    0xa2, 0x0e, 0x30, 0x0c, 0xa0, 0x04, 0x02, 0x02, 0xff, 0x76, 0xa1, 0x04, 0x04, 0x02, 0x09, 0x09, // cksum
    0xa3, 0x0a, 0x1b, 0x08, 0x4b, 0x65, 0x72, 0x62, 0x65, 0x72, 0x6f, 0x73, // auth-package
];

/// A PA-PAC-OPTIONS that asks for resource-based constrained delegation.
const OPTIONS: [u8; 11] = [
    0x30, 0x09, // PA-PAC-OPTIONS
    0xa0, 0x07, 0x03, 0x05, 0x00, 0x10, 0x00, 0x00, 0x00, // flags
];

/// What the checksum of NAME covers.
const COVERED: [u8; 18] = *b"\x01\x00\x00\x00aliceRKerberos";

fn is_kept<T: Message>(alloc: Global, bytes: &[u8]) -> Result<bool, TicketFault> {
    if bytes.len() > 1000 {
        return Ok(false);
    }
    let value = T::read(alloc, bytes)?;
    Ok(value.write()?.as_slice() == bytes)
}

fn is_plain_kept<T: PlainMessage>(alloc: Global, bytes: &[u8]) -> Result<bool, TicketFault> {
    if bytes.len() > 1000 {
        return Ok(false);
    }
    let value = T::read(alloc, bytes)?;
    Ok(value.write(alloc)?.as_slice() == bytes)
}

fn place_of_fault<T: Form>(alloc: Global, bytes: &[u8]) -> Option<u32> {
    if bytes.len() > 1000 {
        return None;
    }
    match read_message::<T>(alloc, bytes) {
        Err(TicketFault::Malformed(Malformed { place })) => Some(place),
        _ => None,
    }
}

/// Each is read and written, a user-id as it was received; without its last byte it is refused where that byte is missing.
#[test]
fn padata_is_read_and_written(rt: HostRuntime) -> Result<(), Fail> {
    let alloc = rt.alloc();
    assert!(rt; is_kept::<X509User>(alloc, &USER)?);
    assert_eq!(rt; place_of_fault::<X509User>(alloc, &USER[..57]), Some(57));
    assert!(rt; is_kept::<ForUser>(alloc, &NAME)?);
    assert_eq!(rt; place_of_fault::<ForUser>(alloc, &NAME[..54]), Some(54));
    assert!(rt; is_plain_kept::<PacOptions>(alloc, &OPTIONS)?);
    assert_eq!(rt;
        place_of_fault::<PacOptions>(alloc, &OPTIONS[..10]),
        Some(10)
    );
    let name = ForUser::read(alloc, &NAME)?;
    let covered = for_user_bytes(alloc, &name.user, name.package.as_str())?;
    assert_eq!(rt; covered.as_slice(), COVERED.as_slice());
    Ok(())
}
