//! Lines that pass the limits of a whole directory: 100,000 accounts, 100,000 spent keys and as many spent numbers.
use super::changes::answer;
use dir_core::{Account, Contents, Directory, KeyRec, RealmRec, SpentNumber};
use dir_text::read_directory;
use krb_names::{Etype, Items, Key, Text, parse_realm, parse_sid};
use std::alloc::AllocError;
use std::process::Abort;
use std::test::Fail;

/// The limit of each of the three.
const LIMIT: u32 = 100_000;

/// The text of a realm R of so many accounts.
fn text_of_many(rt: &(impl Abort + AllocGlobal), count: u32) -> Result<String, AllocError> {
    let mut text = String::from_str(
        rt.alloc(),
        r#"{"realms":[{"name":"R","sid":"S-1-5-21-1","krbtgt":{"etype":17,"kvno":1,"key":"00000000000000000000000000000001"},"accounts":["#,
    )?;
    for i in 0..count {
        if i != 0 {
            text.push_str(",")?;
        }
        let number = i as u64 + 1;
        let key = i as u64 + 2;
        let account = format!(in rt.alloc();
            r#"{{"name":"u{i}","number":{number},"key":{{"etype":17,"kvno":1,"key":"{key:032x}"}}}}"#
        )?;
        text.push_str(account.as_str())?;
    }
    text.push_str("]}]}")?;
    Ok(text)
}

#[test]
fn accounts_are_added_up_to_their_limit(rt: HostRuntime) -> Result<(), Fail> {
    let text = text_of_many(&rt, LIMIT - 1)?;
    let mut dir = read_directory(rt.alloc(), text.as_bytes())
        .ok()
        .ok_or("a directory")?;
    let lines =
        b"add-account R last 200001 17 1 f1f1f1f1f1f1f1f1f1f1f1f1f1f1f1f1\nadd-account R more 200002 17 1 f2f2f2f2f2f2f2f2f2f2f2f2f2f2f2f2";
    assert_eq!(rt; answer(&rt, &mut dir, lines)?.as_str(), "TooMany 2");
    let lines =
        b"remove-account R u0\nadd-account R last 200001 17 1 f1f1f1f1f1f1f1f1f1f1f1f1f1f1f1f1\nadd-account R more 200002 17 1 f2f2f2f2f2f2f2f2f2f2f2f2f2f2f2f2";
    assert_eq!(rt; answer(&rt, &mut dir, lines)?.as_str(), "Ok");
    Ok(())
}

/// The key whose first bytes are this number.
fn key(number: u32) -> KeyRec {
    let mut bytes = [0; 16];
    bytes[..4].copy_from_slice(&number.to_be_bytes());
    KeyRec {
        key: Key::new(Etype::Aes128, &bytes),
        version: 1,
    }
}

fn account(
    rt: &(impl Abort + AllocGlobal),
    name: &str,
    number: u32,
) -> Result<Account, AllocError> {
    Ok(Account {
        name: Text::copy(rt.alloc(), name)?,
        number,
        key: key(2_000_000_000 + number % 1000),
        salt: Text::copy(rt.alloc(), name)?,
        spns: Items::new(rt.alloc()),
        disabled: false,
        not_delegated: false,
        trusted_to_auth: false,
        preauth: true,
        classic: Items::new(rt.alloc()),
        resource: Items::new(rt.alloc()),
        groups: Items::new(rt.alloc()),
    })
}

/// Realm R, with alice and bob.
fn realm(rt: &(impl Abort + AllocGlobal)) -> Result<RealmRec, AllocError> {
    let mut accounts = Items::new(rt.alloc());
    accounts.push(account(rt, "alice", 1)?)?;
    accounts.push(account(rt, "bob", 2)?)?;
    Ok(RealmRec {
        name: parse_realm(rt.alloc(), "R").expect(rt, "a realm"),
        sid: parse_sid("S-1-5-21-1").expect(rt, "a SID"),
        krbtgt: key(3_000_000_000),
        max_life: 36000,
        accounts,
        trusts: Items::new(rt.alloc()),
    })
}

/// The directory of that realm in which so many keys and so many numbers are spent.
fn directory(
    rt: &(impl Abort + AllocGlobal),
    keys: u32,
    numbers: u32,
) -> Result<Directory, AllocError> {
    let mut realms = Items::new(rt.alloc());
    realms.push(realm(rt)?)?;
    let mut spent_keys = Items::new(rt.alloc());
    for number in 0..keys {
        spent_keys.push(key(number))?;
    }
    let mut spent_numbers = Items::new(rt.alloc());
    for number in 0..numbers {
        spent_numbers.push(SpentNumber {
            realm: Text::copy(rt.alloc(), "R")?,
            number: 1000u32.saturating_add(number),
        })?;
    }
    let contents = Contents {
        realms,
        spent_keys,
        spent_numbers,
    };
    Ok(Directory::of_contents(rt.alloc(), contents).expect(rt, "a directory"))
}

/// A case: what is answered, how many more keys and numbers can be spent, and the lines.
const CASES: [(&str, u32, u32, &str); 8] = [
    (
        "Ok",
        1,
        LIMIT,
        "set-key R alice 17 2 f1f1f1f1f1f1f1f1f1f1f1f1f1f1f1f1",
    ),
    (
        "TooMany 2",
        1,
        LIMIT,
        "set-key R alice 17 2 f1f1f1f1f1f1f1f1f1f1f1f1f1f1f1f1\nset-key R bob 17 2 f2f2f2f2f2f2f2f2f2f2f2f2f2f2f2f2",
    ),
    (
        "TooMany 2",
        1,
        LIMIT,
        "remove-account R alice\nset-key R bob 17 2 f2f2f2f2f2f2f2f2f2f2f2f2f2f2f2f2",
    ),
    (
        "TooMany 2",
        1,
        LIMIT,
        "set-key R alice 17 2 f1f1f1f1f1f1f1f1f1f1f1f1f1f1f1f1\nremove-account R bob",
    ),
    ("TooMany 1", 0, LIMIT, "remove-account R bob"),
    (
        "TooMany 2",
        LIMIT,
        1,
        "remove-account R alice\nremove-account R bob",
    ),
    (
        "Ok",
        LIMIT,
        0,
        "set-key R alice 17 2 f1f1f1f1f1f1f1f1f1f1f1f1f1f1f1f1",
    ),
    (
        "SameKey 1",
        0,
        LIMIT,
        "set-key R alice 17 2 00000001000000000000000000000000",
    ),
];

#[test]
fn keys_and_numbers_are_spent_up_to_their_limit(rt: HostRuntime) -> Result<(), Fail> {
    for (wanted, keys, numbers, lines) in CASES {
        let mut dir = directory(
            &rt,
            LIMIT.saturating_sub(keys),
            LIMIT.saturating_sub(numbers),
        )?;
        assert_eq!(rt;
            answer(&rt, &mut dir, lines.as_bytes())?.as_str(),
            wanted,
            "{lines}"
        );
    }
    Ok(())
}
