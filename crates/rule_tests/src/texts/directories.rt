//! Directories with the reason for which they are refused, each the first of those that hold.
use dir_text::read_directory;
use std::alloc::AllocError;
use std::process::Abort;
use std::test::Fail;

/// What the names in a case stand for: the members of two realms, two accounts and two trusts, and keys.
const NAMES: &str = r#"R0="name":"R","sid":"S-1-5-21-1","krbtgt":K1
U0="name":"U","sid":"S-1-5-21-2","krbtgt":K2
A0="name":"a","number":1,"key":K3
B0="name":"b","number":2,"key":K4
RU="partner":"U","key":K5
UR="partner":"R","key":K6
K1={"etype":17,"kvno":1,"key":"11111111111111111111111111111111"}
K2={"etype":17,"kvno":1,"key":"22222222222222222222222222222222"}
K3={"etype":17,"kvno":1,"key":"33333333333333333333333333333333"}
K4={"etype":17,"kvno":1,"key":"44444444444444444444444444444444"}
K5={"etype":17,"kvno":4294967295,"key":"55555555555555555555555555555555"}
K6={"etype":18,"kvno":1,"key":"abcdefABCDEF6666666666666666666666666666666666666666666666666666"}"#;

/// A case: what is answered, and the text.
const CASES: &str = r#"Ok|{"realms":[{R0}]}
Ok|{"realms":[{R0,"max_life":31536000,"accounts":[{A0,"spns":["s/1"],"classic":["s/2"],"resource":["S-1-5-7"],"groups":[0,4294967295]},{B0}],"trusts":[{RU,"reach":["U"]}]},{U0,"trusts":[{UR}]}]}
Ok|{"realms":[{R0,"accounts":[{A0},{"name":"A","number":2,"key":K4}]}]}
Ok|{"realms":[{R0,"accounts":[{A0}]},{U0,"accounts":[{"name":"a","number":1,"key":K4}]}]}
NotJson Whole|
NotJson Whole|{"realms":
NotJson Whole|{"realms":[{R0}]} x
BadField Whole|[]
BadField Whole|{"realms":1}
BadField Whole|{"realms":{R0}}
MissingField Whole|{}
MissingField Whole|{"x":1}
MissingField Whole|{"realms":[]}
MissingField Whole|{"realms":[],"x":1}
MissingField Realm(0)|{"realms":[{}],"x":1}
BadField Whole|{"realms":[{R0}],"x":1}
BadField Realm(0)|{"realms":[1]}
BadField Realm(1)|{"realms":[{R0},[]]}
MissingField Realm(0)|{"realms":[{"sid":"S-1-5-21-1","krbtgt":K1}]}
MissingField Realm(0)|{"realms":[{"name":"R","krbtgt":K1}]}
MissingField Realm(0)|{"realms":[{"name":"R","sid":"S-1-5-21-1"}]}
BadField Realm(0)|{"realms":[{"name":"","krbtgt":K1}]}
BadField Realm(0)|{"realms":[{"name":"R@U","sid":"S-1-5-21-1","krbtgt":K1}]}
BadField Realm(0)|{"realms":[{"name":"R","sid":"S-1-","krbtgt":K1}]}
BadField Realm(0)|{"realms":[{"name":"R","sid":"S-1-5-1-2-3-4-5-6-7-8-9-10-11-12-13-14-15","krbtgt":K1}]}
BadField Realm(0)|{"realms":[{"name":"R","sid":"S-1-5-21-1","krbtgt":1}]}
MissingField Realm(0)|{"realms":[{"name":"R","sid":"S-1-5-21-1","krbtgt":{"kvno":1,"key":""}}]}
BadField Realm(0)|{"realms":[{"name":"R","sid":"S-1-5-21-1","krbtgt":{"etype":16,"key":""}}]}
BadField Realm(0)|{"realms":[{"name":"R","sid":"S-1-5-21-1","krbtgt":{"etype":17,"kvno":0,"key":"11111111111111111111111111111111"}}]}
BadField Realm(0)|{"realms":[{"name":"R","sid":"S-1-5-21-1","krbtgt":{"etype":18,"kvno":1,"key":"11111111111111111111111111111111"}}]}
BadField Realm(0)|{"realms":[{"name":"R","sid":"S-1-5-21-1","krbtgt":{"etype":17,"kvno":1,"key":"1111111111111111111111111111111g"}}]}
BadField Realm(0)|{"realms":[{"name":"R","sid":"S-1-5-21-1","krbtgt":{"etype":17,"kvno":1,"key":"11111111111111111111111111111111","x":1}}]}
BadField Realm(0)|{"realms":[{R0,"max_life":0}]}
BadField Realm(0)|{"realms":[{R0,"max_life":31536001}]}
BadField Realm(0)|{"realms":[{R0,"accounts":null}]}
BadField Realm(0)|{"realms":[{R0,"trusts":{}}]}
BadField Realm(0)|{"realms":[{R0,"x":1}]}
BadField Account(0, 1)|{"realms":[{R0,"accounts":[1],"x":1}]}
BadField Account(0, 2)|{"realms":[{R0,"accounts":[{A0},1]}]}
BadField Account(1, 1)|{"realms":[{R0,"accounts":[{A0}]},{U0,"accounts":[1]}]}
MissingField Account(0, 1)|{"realms":[{R0,"accounts":[{"number":0,"key":K3}]}]}
MissingField Account(0, 1)|{"realms":[{R0,"accounts":[{"name":"a","key":K3}]}]}
MissingField Account(0, 1)|{"realms":[{R0,"accounts":[{"name":"a","number":1}]}]}
BadField Account(0, 1)|{"realms":[{R0,"accounts":[{"name":"krbtgt"}]}]}
BadField Account(0, 1)|{"realms":[{R0,"accounts":[{"name":"a b"}]}]}
BadField Account(0, 1)|{"realms":[{R0,"accounts":[{"name":"a","number":0}]}]}
BadField Account(0, 1)|{"realms":[{R0,"accounts":[{"name":"a","number":4294967296}]}]}
BadField Account(0, 1)|{"realms":[{R0,"accounts":[{"name":"a","number":1.0}]}]}
BadField Account(0, 1)|{"realms":[{R0,"accounts":[{"name":"a","number":1,"key":null}]}]}
BadField Account(0, 1)|{"realms":[{R0,"accounts":[{A0,"salt":1}]}]}
BadField Account(0, 1)|{"realms":[{R0,"accounts":[{A0,"spns":["s"]}]}]}
BadField Account(0, 1)|{"realms":[{R0,"accounts":[{A0,"spns":["krbtgt/R"]}]}]}
BadField Account(0, 1)|{"realms":[{R0,"accounts":[{A0,"spns":["s/1/2/3"]}]}]}
BadField Account(0, 1)|{"realms":[{R0,"accounts":[{A0,"disabled":1}]}]}
BadField Account(0, 1)|{"realms":[{R0,"accounts":[{A0,"preauth":null}]}]}
BadField Account(0, 1)|{"realms":[{R0,"accounts":[{A0,"classic":["krbtgt/R"]}]}]}
BadField Account(0, 1)|{"realms":[{R0,"accounts":[{A0,"resource":["5"]}]}]}
BadField Account(0, 1)|{"realms":[{R0,"accounts":[{A0,"groups":[-1]}]}]}
BadField Account(0, 1)|{"realms":[{R0,"accounts":[{A0,"x":1}]}]}
BadField Trust(0, 1)|{"realms":[{R0,"trusts":[1]},{U0,"trusts":[{UR}]}]}
MissingField Trust(0, 1)|{"realms":[{R0,"trusts":[{"key":K5}]}]}
MissingField Trust(0, 1)|{"realms":[{R0,"trusts":[{"partner":"U"}]}]}
BadField Trust(0, 1)|{"realms":[{R0,"trusts":[{"partner":"U/V"}]}]}
BadField Trust(0, 1)|{"realms":[{R0,"trusts":[{RU,"reach":1}]}]}
BadField Trust(0, 1)|{"realms":[{R0,"trusts":[{RU,"reach":[""]}]}]}
BadField Trust(0, 1)|{"realms":[{R0,"trusts":[{RU,"x":1}]}]}
BadField Trust(1, 1)|{"realms":[{R0,"trusts":[{RU}]},{U0,"trusts":[{"partner":1}]}]}
Duplicate Realm(1)|{"realms":[{R0},{"name":"R","sid":"S-1-5-21-2","krbtgt":K2}]}
Duplicate Realm(1)|{"realms":[{R0},{"name":"U","sid":"S-1-5-21-1","krbtgt":K2}]}
Duplicate Realm(1)|{"realms":[{R0},{"name":"U","sid":"S-1-5-21-1-7","krbtgt":K2}]}
Duplicate Realm(1)|{"realms":[{R0},{"name":"U","sid":"S-1-5-21","krbtgt":K2}]}
Ok|{"realms":[{R0},{"name":"U","sid":"S-1-5-21-10","krbtgt":K2}]}
Duplicate Account(0, 2)|{"realms":[{R0,"accounts":[{A0},{"name":"a","number":2,"key":K4}]}]}
Duplicate Account(0, 2)|{"realms":[{R0,"accounts":[{A0},{"name":"b","number":1,"key":K4}]}]}
Duplicate Account(0, 2)|{"realms":[{R0,"accounts":[{A0,"spns":["s/1"]},{B0,"spns":["s/2","s/1"]}]}]}
Duplicate Account(1, 1)|{"realms":[{R0,"accounts":[{A0,"spns":["s/1"]}]},{U0,"accounts":[{B0,"spns":["s/1"]}]}]}
Duplicate Account(0, 1)|{"realms":[{R0,"accounts":[{A0,"spns":["s/1","s/2","s/1"]}]}]}
Duplicate Account(0, 1)|{"realms":[{R0,"accounts":[{A0,"classic":["s/1","s/2","s/1"]}]}]}
Duplicate Account(0, 1)|{"realms":[{R0,"accounts":[{A0,"resource":["S-1-5-7","S-1-5-8","S-1-5-7"]}]}]}
Duplicate Account(0, 1)|{"realms":[{R0,"accounts":[{A0,"groups":[7,8,7]}]}]}
Duplicate Trust(0, 2)|{"realms":[{R0,"trusts":[{RU},{"partner":"U","key":K6}]}]}
Duplicate Trust(0, 1)|{"realms":[{R0,"trusts":[{RU,"reach":["V","W","V"]}]}]}
Duplicate Account(0, 3)|{"realms":[{R0,"accounts":[{A0},{B0},{"name":"c","number":2,"key":K5},{"name":"a","number":4,"key":K6}]}]}
Duplicate Account(0, 2)|{"realms":[{R0,"accounts":[{A0},{"name":"a","number":2,"key":K4}]},{"name":"R","sid":"S-1-5-21-2","krbtgt":K2}]}
SameKey Account(0, 1)|{"realms":[{R0,"accounts":[{"name":"a","number":1,"key":K1}]}]}
SameKey Account(0, 2)|{"realms":[{R0,"accounts":[{A0},{"name":"b","number":2,"key":K3}]}]}
SameKey Realm(1)|{"realms":[{R0},{"name":"U","sid":"S-1-5-21-2","krbtgt":K1}]}
SameKey Account(1, 1)|{"realms":[{R0,"accounts":[{A0}]},{U0,"accounts":[{"name":"b","number":2,"key":K3}]}]}
SameKey Trust(0, 1)|{"realms":[{R0,"accounts":[{A0}],"trusts":[{"partner":"U","key":K3}]},{U0,"trusts":[{UR}]}]}
SameKey Trust(1, 1)|{"realms":[{R0,"trusts":[{RU}]},{U0,"trusts":[{"partner":"R","key":K5}]}]}
UnknownRef Trust(0, 1)|{"realms":[{R0,"trusts":[{"partner":"V","key":K5}]}]}
UnknownRef Trust(0, 1)|{"realms":[{R0,"trusts":[{"partner":"R","key":K5}]}]}
UnknownRef Trust(0, 1)|{"realms":[{R0,"trusts":[{RU}]},{U0}]}
UnknownRef Trust(1, 1)|{"realms":[{R0,"trusts":[{RU}]},{U0,"trusts":[{UR,"reach":["U"]}]}]}
UnknownRef Trust(0, 1)|{"realms":[{R0,"trusts":[{RU,"reach":["V"]}]},{U0,"trusts":[{UR,"reach":["U"]}]}]}
BadField Realm(1)|{"realms":[{R0,"accounts":[{A0},{A0}]},{U0,"x":1}]}
Duplicate Account(1, 2)|{"realms":[{R0,"accounts":[{"name":"a","number":1,"key":K1}]},{U0,"accounts":[{A0},{"name":"a","number":2,"key":K4}]}]}
Duplicate Realm(1)|{"realms":[{R0,"trusts":[{RU,"reach":["V"]}]},{"name":"R","sid":"S-1-5-21-2","krbtgt":K1}]}
SameKey Account(1, 1)|{"realms":[{R0,"trusts":[{RU}]},{U0,"accounts":[{"name":"a","number":1,"key":K2}]}]}"#;

/// A case's text, with what its names stand for.
fn text_of(rt: &(impl Abort + AllocGlobal), shape: &str) -> Result<String, AllocError> {
    let mut text = String::from_str(rt.alloc(), shape)?;
    for name in NAMES.lines() {
        let (name, meaning) = name.split_once('=').expect(rt, "a name");
        text = text.replace(rt.alloc(), name, meaning)?;
    }
    Ok(text)
}

/// What is answered to a text.
fn answer(rt: &(impl Abort + AllocGlobal), text: &[u8]) -> Result<String, Fail> {
    match read_directory(rt.alloc(), text) {
        Ok(_) => Ok(String::from_str(rt.alloc(), "Ok")?),
        Err(refusal) => Ok(format!(in rt.alloc(); "{:?} {:?}", refusal.cause, refusal.place)?),
    }
}

#[test]
fn each_directory_is_read_or_refused(rt: HostRuntime) -> Result<(), Fail> {
    for case in CASES.lines() {
        let (wanted, shape) = case.split_once('|').ok_or("a case")?;
        let text = text_of(&rt, shape)?;
        let found = answer(&rt, text.as_bytes())?;
        assert_eq!(rt; found.as_str(), wanted, "{shape}");
    }
    Ok(())
}

/// A limit: what is answered above it, the limit, and the text with a star for the entries.
const LIMITS: [(&str, usize, &str); 9] = [
    ("TooMany Whole", 64, r#"{"realms":[*]}"#),
    (
        "TooMany Realm(0)",
        100_000,
        r#"{"realms":[{R0,"accounts":[*]}]}"#,
    ),
    (
        "TooMany Realm(1)",
        99_999,
        r#"{"realms":[{R0,"accounts":[{A0}]},{U0,"accounts":[*]}]}"#,
    ),
    ("TooMany Realm(0)", 32, r#"{"realms":[{R0,"trusts":[*]}]}"#),
    (
        "TooMany Account(0, 1)",
        32,
        r#"{"realms":[{R0,"accounts":[{A0,"spns":[*]}]}]}"#,
    ),
    (
        "TooMany Account(0, 1)",
        256,
        r#"{"realms":[{R0,"accounts":[{A0,"classic":[*]}]}]}"#,
    ),
    (
        "TooMany Account(0, 1)",
        256,
        r#"{"realms":[{R0,"accounts":[{A0,"resource":[*]}]}]}"#,
    ),
    (
        "TooMany Account(0, 1)",
        128,
        r#"{"realms":[{R0,"accounts":[{A0,"groups":[*]}]}]}"#,
    ),
    (
        "TooMany Trust(0, 1)",
        63,
        r#"{"realms":[{R0,"trusts":[{RU,"reach":[*]}]}]}"#,
    ),
];

/// What is answered to a text with so many entries, and one more, none of which reads.
fn answer_with(rt: &(impl Abort + AllocGlobal), shape: &str, count: usize) -> Result<String, Fail> {
    let mut entries = "null,".repeat(rt.alloc(), count)?;
    entries.push_str("null")?;
    let text = text_of(rt, shape)?.replace(rt.alloc(), "*", entries.as_str())?;
    answer(rt, text.as_bytes())
}

#[test]
fn a_list_above_its_limit_is_told_before_its_entries(rt: HostRuntime) -> Result<(), Fail> {
    for (wanted, limit, shape) in LIMITS {
        let found = answer_with(&rt, shape, limit)?;
        assert_eq!(rt; found.as_str(), wanted, "{shape}");
        let found = answer_with(&rt, shape, limit - 1)?;
        assert_eq!(rt; found.as_str().starts_with("BadField"), true, "{shape}");
    }
    Ok(())
}

#[test]
fn a_salt_has_at_most_1024_bytes(rt: HostRuntime) -> Result<(), Fail> {
    for (length, wanted) in [(1024, "Ok"), (1025, "BadField Account(0, 1)")] {
        let salt = "s".repeat(rt.alloc(), length)?;
        let shape = text_of(&rt, r#"{"realms":[{R0,"accounts":[{A0,"salt":"*"}]}]}"#)?;
        let text = shape.replace(rt.alloc(), "*", salt.as_str())?;
        assert_eq!(rt; answer(&rt, text.as_bytes())?.as_str(), wanted);
    }
    Ok(())
}
