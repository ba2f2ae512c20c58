//! Directories with what is found in them, or with the reason for which they are refused.
use dir_core::*;
use krb_names::{Etype, Items, Key, Text, parse_realm, parse_sid};
use std::process::Abort;

/// A key of 32 equal octets.
pub(crate) fn key(octet: u8) -> KeyRec {
    KeyRec {
        key: Key {
            etype: Etype::Aes256,
            raw: [octet; 32],
        },
        version: 1,
    }
}

pub(crate) fn text(rt: &(impl Abort + AllocGlobal), text: &str) -> Text {
    Text::copy(rt.alloc(), text).expect(rt, "memory")
}

fn account(
    rt: &(impl Abort + AllocGlobal),
    name: &str,
    number: u32,
    octet: u8,
    spn: Option<&str>,
) -> Account {
    let mut spns = Items::new(rt.alloc());
    if let Some(spn) = spn {
        spns.push(text(rt, spn)).expect(rt, "memory");
    }
    Account {
        name: text(rt, name),
        number,
        key: key(octet),
        salt: text(rt, name),
        spns,
        disabled: false,
        not_delegated: false,
        trusted_to_auth: false,
        preauth: true,
        classic: Items::new(rt.alloc()),
        resource: Items::new(rt.alloc()),
        groups: Items::new(rt.alloc()),
    }
}

fn trust(rt: &(impl Abort + AllocGlobal), partner: &str, octet: u8, reach: Option<&str>) -> Trust {
    let mut names = Items::new(rt.alloc());
    if let Some(name) = reach {
        names.push(text(rt, name)).expect(rt, "memory");
    }
    Trust {
        partner: parse_realm(rt.alloc(), partner).expect(rt, "a realm"),
        key: key(octet),
        reach: names,
    }
}

fn realm(
    rt: &(impl Abort + AllocGlobal),
    name: &str,
    sid: &str,
    octet: u8,
    accounts: Vec<Account>,
    trust: Trust,
) -> RealmRec {
    let mut trusts = Items::new(rt.alloc());
    trusts.push(trust).expect(rt, "memory");
    RealmRec {
        name: parse_realm(rt.alloc(), name).expect(rt, "a realm"),
        sid: parse_sid(sid).expect(rt, "a SID"),
        krbtgt: key(octet),
        max_life: 36000,
        accounts: Items::from_vec(accounts),
        trusts,
    }
}

/// Realms R, with alice, bob and web, and U, with erin, that trust each other.
pub(crate) fn two_realms(
    rt: &(impl Abort + AllocGlobal),
    octet_of_alice: u8,
    reach: Option<&str>,
) -> Vec<RealmRec> {
    let alloc = rt.alloc();
    let mut of_r = Vec::new(alloc);
    of_r.push(account(rt, "alice", 1001, octet_of_alice, None))
        .expect(rt, "memory");
    of_r.push(account(rt, "bob", 1002, 0x22, None))
        .expect(rt, "memory");
    of_r.push(account(rt, "web", 1101, 0x31, Some("http/web")))
        .expect(rt, "memory");
    let mut of_u = Vec::new(alloc);
    of_u.push(account(rt, "erin", 1001, 0x41, None))
        .expect(rt, "memory");
    let mut realms = Vec::new(alloc);
    realms
        .push(realm(
            rt,
            "R",
            "S-1-5-21-1-1-1",
            0x11,
            of_r,
            trust(rt, "U", 0x51, None),
        ))
        .expect(rt, "memory");
    realms
        .push(realm(
            rt,
            "U",
            "S-1-5-21-2-2-2",
            0x12,
            of_u,
            trust(rt, "R", 0x52, reach),
        ))
        .expect(rt, "memory");
    realms
}

#[test]
fn a_directory_is_looked_up(rt: HostRuntime) {
    let made = Directory::new(rt.alloc(), two_realms(&rt, 0x21, None)).expect(&rt, "a directory");
    let dir = made.try_clone().expect(&rt, "memory");
    let web = parse_sid("S-1-5-21-1-1-1-1101").expect(&rt, "a SID");
    assert_eq!(rt; dir.realm_count(), 2);
    assert_eq!(rt; dir.realm_by_name("U"), Some(1));
    assert_eq!(rt; dir.account_by_spn("http/web"), Some((0, 2)));
    assert_eq!(rt; dir.account_by_sid(&web), Some((0, 2)));
    if dir.realm_count() == 2 {
        assert_eq!(rt; dir.account_by_name(0, "bob"), Some(1));
        assert_eq!(rt; dir.next_hop(0, 1), Some(0));
        assert_eq!(rt; dir.next_hop(0, 0), None);
        assert_eq!(rt; dir.reached(1, 0, "R"), true);
    }
}

#[test]
fn the_first_reason_is_told(rt: HostRuntime) {
    let none = Directory::new(rt.alloc(), Vec::new(rt.alloc())).err();
    assert_eq!(rt;
        none,
        Some(DirRefusal {
            cause: DirCause::MissingField,
            place: DirPlace::Whole
        })
    );
    let same = Directory::new(rt.alloc(), two_realms(&rt, 0x22, None)).err();
    assert_eq!(rt;
        same,
        Some(DirRefusal {
            cause: DirCause::SameKey,
            place: DirPlace::Account(0, 2)
        })
    );
    let own = Directory::new(rt.alloc(), two_realms(&rt, 0x21, Some("U"))).err();
    assert_eq!(rt;
        own,
        Some(DirRefusal {
            cause: DirCause::UnknownRef,
            place: DirPlace::Trust(1, 1)
        })
    );
}

#[test]
fn rules_have_names_and_codes(rt: HostRuntime) {
    assert_eq!(rt; Rule::P11.code(), 13);
    assert_eq!(rt; Rule::P11.name(), "P11");
    assert_eq!(rt; Rule::A7.code(), 25);
}
