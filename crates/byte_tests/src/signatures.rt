//! A PAC signed and compared.
use krb_names::{Etype, Key};
use pac_buffers::{Pac, PacView};
use pac_sign::*;
use std::alloc::{AllocError, Global};
use std::test::Fail;

fn server() -> Key {
    Key::new(Etype::Aes256, &[1; 32])
}

fn realm() -> Key {
    Key::new(Etype::Aes128, &[2; 16])
}

/// What is wrong once the byte at this place is another one.
fn fault_at(alloc: Global, pac: &Pac, at: usize) -> Result<Option<SignFault>, AllocError> {
    let mut bytes = pac.as_slice().to_vec(alloc)?;
    if at >= bytes.len() || bytes.len() > 1000 {
        return Ok(None);
    }
    bytes[at] ^= 1;
    match PacView::read(bytes.as_slice()) {
        Ok(view) => Ok(verify(&view, &server(), Some(&realm()), Some(b"part")).err()),
        Err(_) => Ok(None),
    }
}

#[test]
fn what_was_signed_verifies(rt: HostRuntime) -> Result<(), Fail> {
    let mut pac = Pac::build(rt.alloc(), &[5; 8], &[6; 4], None, true, 16, 15)?;
    sign(&mut pac, &server(), &realm(), Some(b"part"));
    assert!(rt; pac.as_slice().len() < 1000);
    let view = PacView::read(pac.as_slice()).ok().ok_or("a PAC")?;
    assert!(rt; verify(&view, &server(), None, None).is_ok());
    assert!(rt; verify(&view, &server(), Some(&realm()), None).is_ok());
    assert!(rt; verify(&view, &server(), Some(&realm()), Some(b"part")).is_ok());
    let other = verify(&view, &server(), Some(&realm()), Some(b"other"));
    assert_eq!(rt; other, Err(SignFault::Ticket));
    let swapped = verify(&view, &realm(), Some(&server()), Some(b"part"));
    assert_eq!(rt; swapped, Err(SignFault::Server));
    Ok(())
}

/// Buffers 1 at 88, 10 at 96, 6 at 104, 7 at 120 and 16 at 136.
#[test]
fn a_changed_byte_is_told(rt: HostRuntime) -> Result<(), Fail> {
    let mut pac = Pac::build(rt.alloc(), &[5; 8], &[6; 4], None, true, 16, 15)?;
    sign(&mut pac, &server(), &realm(), Some(b"part"));
    for (at, fault) in [
        (88, SignFault::Server),
        (100, SignFault::Server),
        (104, SignFault::Server),
        (119, SignFault::Server),
        (135, SignFault::Kdc),
        (136, SignFault::Server),
        (151, SignFault::Server),
    ] {
        assert_eq!(rt; fault_at(rt.alloc(), &pac, at)?, Some(fault));
    }
    Ok(())
}
