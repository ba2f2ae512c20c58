//! Names over three realms, with what they aim at and the account that they give.
use dir_core::{Account, Aim, Directory, KeyRec, RealmRec, Trust};
use krb_names::{Etype, Items, Key, Principal, Text, parse_realm, parse_sid};
use route_rules::*;
use std::process::Abort;

/// A key of 32 equal octets.
fn key(octet: u8) -> KeyRec {
    KeyRec {
        key: Key {
            etype: Etype::Aes256,
            raw: [octet; 32],
        },
        version: 1,
    }
}

fn text(rt: &(impl Abort + AllocGlobal), text: &str) -> Text {
    Text::copy(rt.alloc(), text).expect(rt, "memory")
}

fn account(rt: &(impl Abort + AllocGlobal), name: &str, number: u32, octet: u8) -> Account {
    Account {
        name: text(rt, name),
        number,
        key: key(octet),
        salt: text(rt, name),
        spns: Items::new(rt.alloc()),
        disabled: false,
        not_delegated: false,
        trusted_to_auth: false,
        preauth: true,
        classic: Items::new(rt.alloc()),
        resource: Items::new(rt.alloc()),
        groups: Items::new(rt.alloc()),
    }
}

/// A realm with a user of this name and a service with this SPN. The octets of its keys are one that ends in 0, and those behind it.
fn realm(
    rt: &(impl Abort + AllocGlobal),
    name: &str,
    sid: &str,
    octet: u8,
    user: &str,
    spn: &str,
) -> RealmRec {
    let mut accounts = Items::new(rt.alloc());
    let mut service = account(rt, "service", 1002, octet | 2);
    service.spns.push(text(rt, spn)).expect(rt, "memory");
    accounts
        .push(account(rt, user, 1001, octet | 1))
        .expect(rt, "memory");
    accounts.push(service).expect(rt, "memory");
    RealmRec {
        name: parse_realm(rt.alloc(), name).expect(rt, "a realm"),
        sid: parse_sid(sid).expect(rt, "a SID"),
        krbtgt: key(octet),
        max_life: 36000,
        accounts,
        trusts: Items::new(rt.alloc()),
    }
}

fn add_trust(rt: &(impl Abort + AllocGlobal), realm: &mut RealmRec, partner: &str, octet: u8) {
    let trust = Trust {
        partner: parse_realm(rt.alloc(), partner).expect(rt, "a realm"),
        key: key(octet),
        reach: Items::new(rt.alloc()),
    };
    realm.trusts.push(trust).expect(rt, "memory");
}

/// Realms R and U, which trust each other, and V, which trusts none.
fn three_realms(rt: &(impl Abort + AllocGlobal)) -> Directory {
    let mut of_r = realm(rt, "R", "S-1-5-21-1-1-1", 0x10, "alice", "http/web");
    let mut of_u = realm(rt, "U", "S-1-5-21-2-2-2", 0x20, "erin", "nfs/u/x");
    add_trust(rt, &mut of_r, "U", 0x13);
    add_trust(rt, &mut of_u, "R", 0x23);
    let of_v = realm(rt, "V", "S-1-5-21-3-3-3", 0x30, "victor", "nfs/v");
    let mut realms = Vec::new(rt.alloc());
    realms.push(of_r).expect(rt, "memory");
    realms.push(of_u).expect(rt, "memory");
    realms.push(of_v).expect(rt, "memory");
    Directory::new(rt.alloc(), realms).expect(rt, "a directory")
}

/// A name of this kind, of the parts between the commas.
fn name(rt: &(impl Abort + AllocGlobal), kind: i32, joined: &str) -> Principal {
    let mut parts = Items::new(rt.alloc());
    for part in joined.split(',') {
        parts.push(text(rt, part)).expect(rt, "memory");
    }
    Principal {
        kind,
        parts,
        realm: parse_realm(rt.alloc(), "V").expect(rt, "a realm"),
    }
}

#[test]
fn names_aim_at_services_accounts_and_trusts(rt: HostRuntime) {
    let dir = three_realms(&rt);
    let cases = [
        (1, "krbtgt,R", Some(Aim::Krbtgt), None),
        (10, "krbtgt,U", Some(Aim::Hop(0)), None),
        (2, "krbtgt,V", None, None),
        (2, "krbtgt,W", None, None),
        (10, "alice@R", Some(Aim::Account(0)), Some((0, 0))),
        (10, "erin@U", Some(Aim::Hop(0)), Some((1, 0))),
        (10, "victor@V", None, Some((2, 0))),
        (10, "alice", Some(Aim::Account(0)), Some((0, 0))),
        (1, "alice", Some(Aim::Account(0)), Some((0, 0))),
        (1, "alice@R", None, None),
        (1, "erin", None, None),
        (2, "http,web", Some(Aim::Account(1)), Some((0, 1))),
        (3, "nfs,u,x", Some(Aim::Hop(0)), Some((1, 1))),
        (1, "nfs,u/x", Some(Aim::Hop(0)), Some((1, 1))),
        (2, "nfs,v", None, Some((2, 1))),
        (2, "nfs,w", None, None),
        (2, "http/web", None, None),
        (2, "nfs,u,x,", None, None),
    ];
    if dir.realm_count() == 3 {
        for (kind, joined, aim, place) in cases {
            let named = name(&rt, kind, joined);
            assert_eq!(rt; resolve(&dir, 0, &named), aim);
            assert_eq!(rt; resolve_account(&dir, 0, &named), place);
        }
        let back = name(&rt, 1, "krbtgt,R");
        assert_eq!(rt; resolve(&dir, 1, &back), Some(Aim::Hop(0)));
    }
}
