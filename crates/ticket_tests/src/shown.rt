//! Tickets that do not open, with the rule that is told.
use dir_core::{Account, Directory, KeyRec, RealmRec, Rule};
use krb_names::{Bytes, Etype, Items, Key, Principal, Text, parse_realm, parse_sid};
use krb_tickets::{EncryptedData, Ticket};
use std::alloc::Global;
use std::test::Fail;
use ticket_codec::*;

/// Realm R alone, whose key is of version 3, with an account `web` that has the SPN `http/web` and a key of version 3.
fn directory(alloc: Global) -> Result<Directory, Fail> {
    let mut spns = Items::new(alloc);
    spns.push(Text::copy(alloc, "http/web")?)?;
    let mut accounts = Items::new(alloc);
    accounts.push(Account {
        name: Text::copy(alloc, "web")?,
        number: 1101,
        key: KeyRec {
            key: Key::new(Etype::Aes128, &[9; 16]),
            version: 3,
        },
        salt: Text::copy(alloc, "Rweb")?,
        spns,
        disabled: false,
        not_delegated: false,
        trusted_to_auth: false,
        preauth: true,
        classic: Items::new(alloc),
        resource: Items::new(alloc),
        groups: Items::new(alloc),
    })?;
    let mut realms = Vec::new(alloc);
    realms.push(RealmRec {
        name: parse_realm(alloc, "R")?,
        sid: parse_sid("S-1-5-21-1")?,
        krbtgt: KeyRec {
            key: Key::new(Etype::Aes128, &[7; 16]),
            version: 3,
        },
        max_life: 36_000,
        accounts,
        trusts: Items::new(alloc),
    })?;
    Ok(Directory::new(alloc, realms)?)
}

/// A ticket of R for a name of two parts, whose cipher is no sealed text.
fn ticket(alloc: Global, service: &str, of: &str, etype: i32, kvno: u32) -> Result<Ticket, Fail> {
    let mut parts = Items::new(alloc);
    parts.push(Text::copy(alloc, service)?)?;
    parts.push(Text::copy(alloc, of)?)?;
    Ok(Ticket {
        realm: parse_realm(alloc, "R")?,
        sname: Principal {
            kind: 2,
            parts,
            realm: parse_realm(alloc, "R")?,
        },
        sealed: EncryptedData {
            etype,
            kvno: Some(kvno),
            cipher: Bytes::copy(alloc, &[1; 40])?,
        },
    })
}

#[test]
fn the_first_rule_that_fails_is_told(rt: HostRuntime) -> Result<(), Fail> {
    let dir = directory(rt.alloc())?;
    let cases = [
        (Role::Header, "krbtgt", "U", 17, 3, Rule::G2),
        (Role::Header, "krbtgt", "R", 17, 4, Rule::G3),
        (Role::Header, "krbtgt", "R", 18, 3, Rule::G3),
        (Role::Header, "krbtgt", "R", 17, 3, Rule::G4),
        (Role::CrossEvidence, "krbtgt", "R", 17, 3, Rule::P2),
        (Role::Evidence(0), "krbtgt", "R", 17, 3, Rule::P2),
        (Role::Evidence(0), "http", "web", 17, 4, Rule::P3),
        (Role::Evidence(0), "http", "web", 17, 3, Rule::P4),
    ];
    if dir.realm_count() == 0 {
        return Err(Fail::from("a realm"));
    }
    for (role, service, of, etype, kvno, rule) in cases {
        let ticket = ticket(rt.alloc(), service, of, etype, kvno)?;
        if ticket.sealed.cipher.len() > 40 {
            return Err(Fail::from("a short cipher"));
        }
        let told = unseal(rt.alloc(), &dir, 0, role, &ticket).err();
        assert_eq!(rt; told, Some(ShowFault::Deny(rule)));
    }
    Ok(())
}
