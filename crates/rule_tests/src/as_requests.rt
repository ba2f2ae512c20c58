//! AS-REQs with what each is answered.
use as_core::*;
use dir_core::{Account, Directory, KeyRec, RealmRec};
use kdc_records::{Aim, Branch, Decision, Rule, Wish};
use krb_names::{
    Etype, Items, KTime, Key, Moment, Principal, Signed, Text, parse_realm, parse_sid,
};
use std::alloc::Global;
use std::test::Fail;

const NOW: u64 = 1_700_000_000;

fn key(octet: u8) -> KeyRec {
    KeyRec {
        key: Key::new(Etype::Aes256, &[octet; 32]),
        version: 1,
    }
}

fn account(alloc: Global, name: &str, number: u8) -> Result<Account, Fail> {
    Ok(Account {
        name: Text::copy(alloc, name)?,
        number: u32::from(number),
        key: key(number),
        salt: Text::copy(alloc, name)?,
        spns: Items::new(alloc),
        disabled: name == "carol",
        not_delegated: name == "bob",
        trusted_to_auth: false,
        preauth: name != "bob",
        classic: Items::new(alloc),
        resource: Items::new(alloc),
        groups: Items::new(alloc),
    })
}

/// Realm R of alice, bob, who is marked and needs no pre-authentication, and carol, who is disabled.
fn directory(alloc: Global) -> Result<Directory, Fail> {
    let mut accounts = Items::new(alloc);
    for (name, number) in [("alice", 1), ("bob", 2), ("carol", 3)] {
        accounts.push(account(alloc, name, number)?)?;
    }
    let mut realms = Vec::new(alloc);
    realms.push(RealmRec {
        name: parse_realm(alloc, "R")?,
        sid: parse_sid("S-1-5-21-1")?,
        krbtgt: key(17),
        max_life: 36_000,
        accounts,
        trusts: Items::new(alloc),
    })?;
    Ok(Directory::new(alloc, realms)?)
}

fn name(alloc: Global, parts: &[&str]) -> Result<Principal, Fail> {
    let mut items = Items::new(alloc);
    for part in parts {
        items.push(Text::copy(alloc, part)?)?;
    }
    Ok(Principal {
        kind: 1,
        parts: items,
        realm: parse_realm(alloc, "R")?,
    })
}

/// A request of a client for krbtgt of a realm, with these options and these types.
fn wish(alloc: Global, client: &str, of: &str, options: u32, etypes: &[i32]) -> Result<Wish, Fail> {
    Ok(Wish {
        branch: Branch::Initial,
        realm: parse_realm(alloc, "R")?,
        client: Some(name(alloc, &[client])?),
        server: Some(name(alloc, &["krbtgt", of])?),
        options,
        from: None,
        till: KTime::new(0),
        etypes: Signed::copy(alloc, etypes)?,
        nonce: 1,
        user: None,
        rbcd: false,
        extra: 0,
        both: false,
    })
}

/// The flags of what is granted, and when it ends; or the rule that denies.
fn told(decision: Decision) -> Result<(u32, u64), Rule> {
    match decision {
        Decision::Grant(terms) if terms.aim == Aim::Krbtgt => Ok((terms.flags, terms.end.secs())),
        Decision::Grant(_) => Ok((0, 0)),
        Decision::Deny(rule) => Err(rule),
    }
}

#[test]
fn the_first_rule_that_fails_denies(rt: HostRuntime) -> Result<(), Fail> {
    let dir = directory(rt.alloc())?;
    let now = Moment {
        secs: NOW,
        micros: 0,
    };
    let stamped = StampView::At(now);
    let cases = [
        (
            "alice",
            "R",
            0x4000_0000,
            18,
            stamped,
            Ok((0x4060_0000, NOW + 36_000)),
        ),
        (
            "bob",
            "R",
            0x4000_0000,
            18,
            StampView::Absent,
            Ok((0x0040_0000, NOW + 36_000)),
        ),
        ("dan", "R", 0, 18, StampView::Absent, Err(Rule::A1)),
        ("carol", "R", 0, 18, StampView::Absent, Err(Rule::A2)),
        ("alice", "U", 0, 18, StampView::Absent, Err(Rule::A3)),
        (
            "alice",
            "R",
            0x0400_0000,
            17,
            StampView::Absent,
            Err(Rule::A4),
        ),
        (
            "alice",
            "R",
            0x0002_0000,
            17,
            StampView::Absent,
            Err(Rule::A5),
        ),
        ("alice", "R", 0, 17, StampView::Absent, Err(Rule::A6)),
        ("alice", "R", 0, 18, StampView::Absent, Err(Rule::A7)),
        ("alice", "R", 0, 18, StampView::Unread, Err(Rule::A8)),
    ];
    if dir.realm_count() == 0 {
        return Err(Fail::from("a realm"));
    }
    for (client, of, options, etype, stamp, expected) in cases {
        let wish = wish(rt.alloc(), client, of, options, &[etype, 23])?;
        assert_eq!(rt; told(decide_as(&dir, 0, now, &wish, &stamp)), expected);
    }
    Ok(())
}
