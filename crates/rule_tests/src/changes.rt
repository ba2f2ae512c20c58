//! Changes with their outcomes: `None` where the change is made.
use crate::directories::{key, text, two_realms};
use dir_core::*;
use krb_names::{Spn, parse_sid, parse_spn};
use std::process::Abort;

/// Realms R, with alice (1001), bob (1002) and web (1101, http/web), and U, with erin (1001), that trust each other.
fn directory(rt: &(impl Abort + AllocGlobal)) -> Directory {
    Directory::new(rt.alloc(), two_realms(rt, 0x21, None)).expect(rt, "a directory")
}

fn spn(rt: &(impl Abort + AllocGlobal), name: &str) -> Spn {
    parse_spn(rt.alloc(), name).expect(rt, "a service principal name")
}

/// The change is made, or is refused for this cause.
fn tell(
    rt: &(impl Abort + AllocGlobal),
    dir: &mut Directory,
    change: &Change,
    expected: Option<DirCause>,
) {
    assert_eq!(rt; dir.change(change).err(), expected);
}

fn add(
    rt: &(impl Abort + AllocGlobal),
    dir: &mut Directory,
    name: &str,
    number: u32,
    octet: u8,
    expected: Option<DirCause>,
) {
    let change = Change::AddAccount(text(rt, "R"), text(rt, name), number, key(octet));
    tell(rt, dir, &change, expected);
}

#[test]
fn a_new_account_is_new(rt: HostRuntime) {
    let mut dir = directory(&rt);
    let cases = [
        ("krbtgt", 1003, 0x23, Some(DirCause::BadField)),
        ("carol", 0, 0x23, Some(DirCause::BadField)),
        ("alice", 1003, 0x22, Some(DirCause::Duplicate)),
        ("carol", 1002, 0x23, Some(DirCause::Duplicate)),
        ("carol", 1003, 0x52, Some(DirCause::SameKey)),
        ("carol", 1003, 0x23, None),
    ];
    for (name, number, octet, expected) in cases {
        add(&rt, &mut dir, name, number, octet, expected);
    }
}

fn remove(
    rt: &(impl Abort + AllocGlobal),
    dir: &mut Directory,
    name: &str,
    expected: Option<DirCause>,
) {
    let change = Change::RemoveAccount(text(rt, "R"), text(rt, name));
    tell(rt, dir, &change, expected);
}

/// The directory without alice.
fn without_alice(rt: &(impl Abort + AllocGlobal)) -> Directory {
    let mut dir = directory(rt);
    remove(rt, &mut dir, "krbtgt", Some(DirCause::BadField));
    remove(rt, &mut dir, "erin", Some(DirCause::UnknownRef));
    remove(rt, &mut dir, "alice", None);
    dir
}

#[test]
fn numbers_and_keys_are_spent(rt: HostRuntime) {
    let mut dir = without_alice(&rt).try_clone().expect(&rt, "memory");
    let cases = [
        ("alice", 2001, 0x61, None),
        ("al2", 1001, 0x62, Some(DirCause::Duplicate)),
        ("al2", 2002, 0x21, Some(DirCause::SameKey)),
        ("al2", 2002, 0x62, None),
    ];
    for (name, number, octet, expected) in cases {
        add(&rt, &mut dir, name, number, octet, expected);
    }
}

fn set_key(
    rt: &(impl Abort + AllocGlobal),
    dir: &mut Directory,
    name: &str,
    octet: u8,
    version: u32,
    expected: Option<DirCause>,
) {
    let key = KeyRec {
        version,
        ..key(octet)
    };
    let change = Change::SetKey(text(rt, "R"), text(rt, name), key);
    tell(rt, dir, &change, expected);
}

#[test]
fn a_new_key_spends_the_old_one(rt: HostRuntime) {
    let mut dir = directory(&rt);
    let cases = [
        ("web", 0x33, 0, Some(DirCause::BadField)),
        ("erin", 0x33, 1, Some(DirCause::UnknownRef)),
        ("web", 0x21, 2, Some(DirCause::SameKey)),
        ("web", 0x31, 2, None),
        ("web", 0x31, 3, None),
        ("web", 0x32, 4, None),
        ("web", 0x31, 5, Some(DirCause::SameKey)),
    ];
    for (name, octet, version, expected) in cases {
        set_key(&rt, &mut dir, name, octet, version, expected);
    }
}

fn set_mark(
    rt: &(impl Abort + AllocGlobal),
    dir: &mut Directory,
    name: &str,
    mark: Mark,
    expected: Option<DirCause>,
) {
    let change = Change::SetMark(text(rt, "R"), text(rt, name), mark, true);
    tell(rt, dir, &change, expected);
}

#[test]
fn marks_are_set(rt: HostRuntime) {
    let mut dir = directory(&rt);
    let cases = [
        ("krbtgt", Mark::Disabled, Some(DirCause::BadField)),
        ("erin", Mark::Disabled, Some(DirCause::UnknownRef)),
        ("bob", Mark::Disabled, None),
        ("bob", Mark::NotDelegated, None),
        ("bob", Mark::TrustedToAuth, None),
        ("bob", Mark::Preauth, None),
    ];
    for (name, mark, expected) in cases {
        set_mark(&rt, &mut dir, name, mark, expected);
    }
}

fn set_spn(
    rt: &(impl Abort + AllocGlobal),
    dir: &mut Directory,
    adds: bool,
    realm: &str,
    name: &str,
    expected: Option<DirCause>,
) {
    let web = spn(rt, "http/web");
    let change = if adds {
        Change::AddSpn(text(rt, realm), text(rt, name), web)
    } else {
        Change::RemoveSpn(text(rt, realm), text(rt, name), web)
    };
    tell(rt, dir, &change, expected);
}

#[test]
fn service_names_stand_once(rt: HostRuntime) {
    let mut dir = directory(&rt);
    let cases = [
        (true, "R", "a b", Some(DirCause::BadField)),
        (true, "X", "erin", Some(DirCause::UnknownRef)),
        (true, "U", "erin", Some(DirCause::Duplicate)),
        (false, "R", "bob", Some(DirCause::UnknownRef)),
        (false, "R", "web", None),
        (true, "U", "erin", None),
    ];
    for (adds, realm, name, expected) in cases {
        set_spn(&rt, &mut dir, adds, realm, name, expected);
    }
}

fn set_classic(
    rt: &(impl Abort + AllocGlobal),
    dir: &mut Directory,
    adds: bool,
    name: &str,
    expected: Option<DirCause>,
) {
    let service = spn(rt, name);
    let change = if adds {
        Change::AddClassic(text(rt, "R"), text(rt, "web"), service)
    } else {
        Change::RemoveClassic(text(rt, "R"), text(rt, "web"), service)
    };
    tell(rt, dir, &change, expected);
}

#[test]
fn services_are_listed(rt: HostRuntime) {
    let mut dir = directory(&rt);
    let cases = [
        (true, "krbtgt/R", Some(DirCause::BadField)),
        (false, "cifs/a", Some(DirCause::UnknownRef)),
        (true, "cifs/a", None),
        (true, "cifs/b", None),
        (true, "cifs/a", Some(DirCause::Duplicate)),
        (false, "cifs/b", None),
        (true, "cifs/a", Some(DirCause::Duplicate)),
    ];
    for (adds, name, expected) in cases {
        set_classic(&rt, &mut dir, adds, name, expected);
    }
}

fn set_resource(
    rt: &(impl Abort + AllocGlobal),
    dir: &mut Directory,
    adds: bool,
    name: &str,
    expected: Option<DirCause>,
) {
    let web = parse_sid("S-1-5-21-1-1-1-1101").expect(rt, "a SID");
    let change = if adds {
        Change::AddResource(text(rt, "R"), text(rt, name), web)
    } else {
        Change::RemoveResource(text(rt, "R"), text(rt, name), web)
    };
    tell(rt, dir, &change, expected);
}

#[test]
fn requestors_are_listed(rt: HostRuntime) {
    let mut dir = directory(&rt);
    let cases = [
        (true, "krbtgt", Some(DirCause::BadField)),
        (true, "erin", Some(DirCause::UnknownRef)),
        (false, "bob", Some(DirCause::UnknownRef)),
        (true, "bob", None),
        (true, "bob", Some(DirCause::Duplicate)),
        (false, "bob", None),
    ];
    for (adds, name, expected) in cases {
        set_resource(&rt, &mut dir, adds, name, expected);
    }
}

fn set_group(
    rt: &(impl Abort + AllocGlobal),
    dir: &mut Directory,
    adds: bool,
    name: &str,
    number: u32,
    expected: Option<DirCause>,
) {
    let change = if adds {
        Change::AddGroup(text(rt, "R"), text(rt, name), number)
    } else {
        Change::RemoveGroup(text(rt, "R"), text(rt, name), number)
    };
    tell(rt, dir, &change, expected);
}

/// The directory with bob in as many groups as an account can be in.
fn with_full_groups(rt: &(impl Abort + AllocGlobal)) -> Directory {
    let mut dir = directory(rt);
    for number in 0..128 {
        set_group(rt, &mut dir, true, "bob", number, None);
    }
    dir
}

#[test]
fn a_full_list_takes_no_more(rt: HostRuntime) {
    let mut dir = with_full_groups(&rt);
    let cases = [
        (true, "krbtgt", 0, Some(DirCause::BadField)),
        (true, "erin", 0, Some(DirCause::UnknownRef)),
        (true, "bob", 128, Some(DirCause::TooMany)),
        (true, "bob", 127, Some(DirCause::Duplicate)),
        (false, "bob", 128, Some(DirCause::UnknownRef)),
        (false, "bob", 127, None),
    ];
    for (adds, name, number, expected) in cases {
        set_group(&rt, &mut dir, adds, name, number, expected);
    }
}

fn set_life(
    rt: &(impl Abort + AllocGlobal),
    dir: &mut Directory,
    realm: &str,
    life: u64,
    expected: Option<DirCause>,
) {
    tell(rt, dir, &Change::SetLife(text(rt, realm), life), expected);
}

#[test]
fn a_life_is_at_most_a_year(rt: HostRuntime) {
    let mut dir = directory(&rt);
    let cases = [
        ("R", 0, Some(DirCause::BadField)),
        ("R", 31_536_001, Some(DirCause::BadField)),
        ("X", 60, Some(DirCause::UnknownRef)),
        ("R", 31_536_000, None),
    ];
    for (realm, life, expected) in cases {
        set_life(&rt, &mut dir, realm, life, expected);
    }
}

fn set_reach(
    rt: &(impl Abort + AllocGlobal),
    dir: &mut Directory,
    adds: bool,
    partner: &str,
    reach: &str,
    expected: Option<DirCause>,
) {
    let change = if adds {
        Change::AddReach(text(rt, "R"), text(rt, partner), text(rt, reach))
    } else {
        Change::RemoveReach(text(rt, "R"), text(rt, partner), text(rt, reach))
    };
    tell(rt, dir, &change, expected);
}

#[test]
fn other_realms_are_reached(rt: HostRuntime) {
    let mut dir = directory(&rt);
    let cases = [
        (true, "U", "a b", Some(DirCause::BadField)),
        (true, "R", "U", Some(DirCause::UnknownRef)),
        (true, "U", "R", Some(DirCause::UnknownRef)),
        (true, "U", "X", Some(DirCause::UnknownRef)),
        (false, "U", "U", Some(DirCause::UnknownRef)),
        (true, "U", "U", None),
        (true, "U", "U", Some(DirCause::Duplicate)),
        (false, "U", "U", None),
    ];
    for (adds, partner, reach, expected) in cases {
        set_reach(&rt, &mut dir, adds, partner, reach, expected);
    }
}
