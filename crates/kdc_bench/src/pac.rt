//! Reading and verifying a PAC.
ghost use Rattle.std.specs.Prelude.{◌≤◌, length};

use krb_names::{Etype, Items, Key, Sid, Text, to_utf16le};
use pac_buffers::{ClientInfo, Pac, PacView};
use pac_logon::{LogonInfo, Subject4, read_logon, write_logon};
use pac_sign::{sign, verify};
use std::alloc::Global;

// What the ticket signature covers.
const PART: [u8; 400] = [0x61; 400];

// FILETIME of 1970.
const TIME: u64 = 116_444_736_000_000_000;

/// A PAC of 800 bytes, read again and again, with its logon information: its length, and how many groups it has.
pub fn read(alloc: Global, etype: Etype, count: u32) -> Option<Vec<u8>> {
    let pac = signed(alloc, etype)?;
    let bytes = pac.as_slice();
    if bytes.len() > 4096 {
        return None;
    }
    let mut last = 0u8;
    for _ in 0..count {
        last ^= groups_in(alloc, bytes)?;
    }
    told(alloc, bytes, last)
}

fn groups_in(alloc: Global, bytes: &[u8]) -> Option<u8>
    requires { length bytes.now ≤ 4096 }
{
    let view = PacView::read(bytes).ok()?;
    let logon = view.buffer(1)?;
    if logon.len() > 4096 {
        return None;
    }
    let info = read_logon(alloc, logon).ok()?;
    u8::try_from(info.subject.groups.len()).ok()
}

/// The same PAC, verified again and again: its length, and how often it was right.
pub fn verified(alloc: Global, etype: Etype, count: u32) -> Option<Vec<u8>> {
    let pac = signed(alloc, etype)?;
    let key = key(etype);
    let view = PacView::read(pac.as_slice()).ok()?;
    let mut right = 0u8;
    for _ in 0..count {
        if verify(&view, &key, Some(&key), Some(&PART)).is_ok() {
            right = right.wrapping_add(1);
        }
    }
    told(alloc, pac.as_slice(), right)
}

fn told(alloc: Global, bytes: &[u8], byte: u8) -> Option<Vec<u8>> {
    let [high, low] = u16::try_from(bytes.len()).ok()?.to_be_bytes();
    [high, low, byte].to_vec(alloc).ok()
}

fn key(etype: Etype) -> Key {
    match etype {
        Etype::Aes128 => Key::new(etype, &[7; 16]),
        Etype::Aes256 => Key::new(etype, &[7; 32]),
    }
}

// The PAC of a user of 40 groups, signed by one key.
fn signed(alloc: Global, etype: Etype) -> Option<Pac> {
    let kind = match etype {
        Etype::Aes128 => 15,
        Etype::Aes256 => 16,
    };
    let logon = logon(alloc)?;
    let client = client(alloc)?;
    if logon.len() > 4096 || client.len() > 4096 {
        return None;
    }
    let mut pac = Pac::build(
        alloc,
        logon.as_slice(),
        client.as_slice(),
        None,
        true,
        kind,
        kind,
    )
    .ok()?;
    let key = key(etype);
    sign(&mut pac, &key, &key, Some(&PART));
    Some(pac)
}

fn logon(alloc: Global) -> Option<Items<u8>> {
    let name = Text::copy(alloc, "ana").ok()?;
    let domain = Text::copy(alloc, "SHOP.EXAMPLE").ok()?;
    if to_utf16le(alloc, name.as_str()).ok()?.len() > 100 {
        return None;
    }
    if to_utf16le(alloc, domain.as_str()).ok()?.len() > 100 {
        return None;
    }
    let subject = Subject4 {
        name,
        domain,
        domain_sid: Sid::new(5, &[21, 1, 2, 3]),
        number: 1105,
        control: 0x10,
        groups: Items::copy(alloc, &[513; 40]).ok()?,
    };
    write_logon(
        alloc,
        &LogonInfo {
            subject,
            time: TIME,
        },
    )
    .ok()
}

fn client(alloc: Global) -> Option<Items<u8>> {
    let name = Text::copy(alloc, "ana").ok()?;
    if to_utf16le(alloc, name.as_str()).ok()?.len() > 100 {
        return None;
    }
    ClientInfo { time: TIME, name }.write().ok()
}
