//! Texts with the answer that each has, and each public call once.
use krb_names::*;
use std::process::Abort;
use std::test::Fail;

/// A text, and why it is refused.
type Row<'a> = (&'a str, Option<NameRefusal>);

fn expect_names(rt: &(impl Abort + AllocGlobal), rows: &[Row]) {
    for (text, refusal) in rows {
        assert_eq!(rt; parse_name(rt.alloc(), text).err(), *refusal, "name {text}");
    }
}

fn expect_realms(rt: &(impl Abort + AllocGlobal), rows: &[Row]) {
    for (text, refusal) in rows {
        assert_eq!(rt;
            parse_realm(rt.alloc(), text).err(),
            *refusal,
            "realm {text}"
        );
    }
}

fn expect_services(rt: &(impl Abort + AllocGlobal), rows: &[Row]) {
    for (text, refusal) in rows {
        assert_eq!(rt;
            parse_spn(rt.alloc(), text).err(),
            *refusal,
            "service {text}"
        );
    }
}

#[test]
fn texts_are_names_or_are_refused(rt: HostRuntime) {
    expect_names(
        &rt,
        &[
            ("alice@R", None),
            ("", Some(NameRefusal::Empty)),
            ("@R", Some(NameRefusal::Empty)),
            ("alice@", Some(NameRefusal::Empty)),
            ("alice", Some(NameRefusal::BadText)),
            ("alice@R@R", Some(NameRefusal::BadText)),
        ],
    );
    expect_realms(
        &rt,
        &[
            ("EXAMPLE.COM", None),
            ("\u{a0}", None),
            ("", Some(NameRefusal::Empty)),
            ("a b", Some(NameRefusal::BadText)),
            ("a,b", Some(NameRefusal::BadText)),
            ("\u{85}", Some(NameRefusal::BadText)),
        ],
    );
    expect_services(
        &rt,
        &[
            ("http/web", None),
            ("http/web/x", None),
            ("", Some(NameRefusal::Empty)),
            ("http/", Some(NameRefusal::Empty)),
            ("http", Some(NameRefusal::BadText)),
            ("http/web/x/y", Some(NameRefusal::BadText)),
        ],
    );
}

#[test]
fn a_piece_has_at_most_255_bytes(rt: HostRuntime) -> Result<(), Fail> {
    let fits = "a".repeat(rt.alloc(), 255)?;
    assert!(rt; is_name_text(fits.as_str()));
    let long = "a".repeat(rt.alloc(), 256)?;
    expect_services(&rt, &[(long.as_str(), Some(NameRefusal::TooLong))]);
    Ok(())
}

#[test]
fn texts_are_security_identifiers_or_are_refused(rt: HostRuntime) {
    let realm = Sid::new(5, &[21, 1, 1, 1]);
    let rows = [
        ("S-1-5-21-1-1-1", Ok(realm)),
        ("S-1-5-21-1-1-1-1001", Ok(realm.followed_by(1001))),
        (
            "S-1-281474976710655-4294967295",
            Ok(Sid::new(281_474_976_710_655, &[u32::MAX])),
        ),
        ("", Err(NameRefusal::Empty)),
        ("S-1-", Err(NameRefusal::BadText)),
        ("S-1-5", Err(NameRefusal::BadText)),
        ("S-1-5-01", Err(NameRefusal::BadText)),
        ("S-1-5-+1", Err(NameRefusal::BadText)),
        ("S-1-281474976710656-1", Err(NameRefusal::BadText)),
        ("S-1-5-4294967296", Err(NameRefusal::BadText)),
        (
            "S-1-5-1-2-3-4-5-6-7-8-9-10-11-12-13-14-15-16",
            Err(NameRefusal::BadText),
        ),
    ];
    for (text, sid) in rows {
        assert_eq!(rt; parse_sid(text), sid, "identifier {text}");
    }
    assert_eq!(rt; realm.authority(), 5);
    assert_eq!(rt; realm.numbers(), [21, 1, 1, 1].as_slice());
}

#[test]
fn times_are_seconds_of_the_calendar(rt: HostRuntime) {
    let rows = [
        (b"20231114221320Z", 1_700_000_000),
        (b"19700101000000Z", 0),
        (b"20240229000000Z", 1_709_164_800),
        (b"99991231235959Z", 253_402_300_799),
    ];
    for (text, secs) in rows {
        let time = KTime::new(secs);
        assert_eq!(rt; time.secs(), secs);
        assert_eq!(rt; ktime_read(text), Ok(time), "at {secs}");
        assert_eq!(rt; ktime_write(time), *text, "at {secs}");
    }
    let refused = [
        b"20230229000000Z",
        b"20231114221360Z",
        b"20231114240000Z",
        b"19691231235959Z",
        b"20231114221320z",
        b"+0231114221320Z",
    ];
    for text in refused {
        assert_eq!(rt; ktime_read(text), Err(NameRefusal::BadTime));
    }
}

#[test]
fn texts_in_utf16_are_read_back(rt: HostRuntime) -> Result<(), Fail> {
    let rows = [
        ("db/main", b"d\0b\0/\0m\0a\0i\0n\0".as_slice()),
        ("\u{12345}", b"\x08\xd8\x45\xdf".as_slice()),
    ];
    for (text, octets) in rows {
        assert_eq!(rt; to_utf16le(rt.alloc(), text)?.as_slice(), octets);
        assert_eq!(rt;
            from_utf16le(rt.alloc(), octets)?,
            Some(Text::copy(rt.alloc(), text)?)
        );
    }
    for octets in [b"\0\xd8".as_slice(), b"a\0b".as_slice()] {
        assert_eq!(rt; from_utf16le(rt.alloc(), octets)?, None);
    }
    Ok(())
}

#[test]
fn a_principal_is_its_parts_and_its_realm(rt: HostRuntime) -> Result<(), Fail> {
    let alice = parse_name(rt.alloc(), "alice@R")?;
    assert_eq!(rt; alice.realm.as_str(), "R");
    let mut other = alice.try_clone(rt.alloc())?;
    other.kind = 2;
    assert!(rt; alice.is_same(&other));
    Ok(())
}

#[test]
fn names_and_identifiers_are_told(rt: HostRuntime) -> Result<(), Fail> {
    let mut text = String::new(rt.alloc());
    push_name(&mut text, &parse_name(rt.alloc(), "alice@R")?)?;
    text.push_str(" ")?;
    push_sid(&mut text, &parse_sid("S-1-5-21-1-1001")?)?;
    assert_eq!(rt; text.as_str(), "alice@R S-1-5-21-1-1001");
    Ok(())
}

#[test]
fn a_service_keeps_its_text(rt: HostRuntime) -> Result<(), Fail> {
    let service = parse_spn(rt.alloc(), "http/web")?;
    let copied = service.try_clone(rt.alloc())?;
    assert!(rt; copied == service);
    assert_eq!(rt; copied.as_str(), "http/web");
    Ok(())
}

#[test]
fn a_list_keeps_its_items(rt: HostRuntime) -> Result<(), Fail> {
    let mut bytes = Bytes::copy(rt.alloc(), b"ab")?;
    bytes.push(99)?;
    assert_eq!(rt; bytes.get(2), Some(&99));
    let copied = Bytes::from_vec(bytes.try_clone(rt.alloc())?.into_vec());
    assert_eq!(rt; copied.len(), 3);
    assert_eq!(rt; copied.as_slice(), b"abc".as_slice());
    Ok(())
}

#[test]
fn a_list_of_texts_is_copied(rt: HostRuntime) -> Result<(), Fail> {
    let mut texts = Texts::new(rt.alloc());
    texts.push(Text::from_string(String::from_str(rt.alloc(), "text")?))?;
    let copied = texts.try_clone(rt.alloc())?;
    assert!(rt; copied.as_slice() == texts.as_slice());
    Ok(())
}

#[test]
fn keys_have_the_octets_of_their_type_and_do_not_tell_them(rt: HostRuntime) -> Result<(), Fail> {
    for (number, etype, length) in [(17, Etype::Aes128, 16), (18, Etype::Aes256, 32)] {
        assert_eq!(rt; Etype::from_number(number), Some(etype));
        assert_eq!(rt; etype.number(), number);
        assert_eq!(rt; etype.key_length(), length);
    }
    let octets = [7; 32];
    let key = Key::new(Etype::Aes256, &octets);
    assert_eq!(rt; key.bytes(), octets.as_slice());
    let told = format!(in rt.alloc(); "{key:?}")?;
    assert_eq!(rt; told.as_str(), "Key { etype: Aes256, .. }");
    Ok(())
}
