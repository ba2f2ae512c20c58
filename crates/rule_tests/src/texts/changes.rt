//! Batches of change lines with what is answered to them, over a directory of two realms.
use dir_core::{DirCause, DirPlace, DirRefusal, Directory};
use dir_text::{apply_changes, read_directory};
use std::alloc::AllocError;
use std::process::Abort;
use std::test::Fail;

/// Realms R, with alice and web, and U, with erin, that trust each other.
const DIRECTORY: &str =
    r#"{"realms":[{"name":"R","sid":"S-1-5-21-1","krbtgt":{"etype":17,"kvno":1,"key":"11111111111111111111111111111111"},
"accounts":[{"name":"alice","number":1001,"key":{"etype":17,"kvno":1,"key":"21212121212121212121212121212121"}},
{"name":"web","number":1002,"key":{"etype":17,"kvno":1,"key":"31313131313131313131313131313131"},"spns":["http/web"],"classic":["db/main"],"resource":["S-1-5-21-1-1001"],"groups":[513]}],
"trusts":[{"partner":"U","key":{"etype":17,"kvno":1,"key":"51515151515151515151515151515151"}}]},
{"name":"U","sid":"S-1-5-21-2","krbtgt":{"etype":17,"kvno":1,"key":"12121212121212121212121212121212"},
"accounts":[{"name":"erin","number":1001,"key":{"etype":17,"kvno":1,"key":"41414141414141414141414141414141"}}],
"trusts":[{"partner":"R","key":{"etype":17,"kvno":1,"key":"52525252525252525252525252525252"},"reach":["R"]}]}]}"#;

/// What the names in a case stand for: the ends of lines, and keys.
const NAMES: &str = "OLD=21212121212121212121212121212121
WEB=31313131313131313131313131313131
TGT=12121212121212121212121212121212
LEG=52525252525252525252525252525252
NEW=AbAbAbAbAbAbAbAbAbAbAbAbAbAbAbAb
LONG=AbAbAbAbAbAbAbAbAbAbAbAbAbAbAbAbAbAbAbAbAbAbAbAbAbAbAbAbAbAbAbAb";

/// A case: what is answered, and the lines, each but the last with a semicolon behind it.
const CASES: &str = "Ok|
Ok|;
Ok|;;set R alice disabled on;
Ok|set R alice disabled on
BadField 1|Set R alice disabled on
BadField 1|set-mark R alice disabled on
BadField 1|set
BadField 1| set R alice disabled on
BadField 1|set  R alice disabled on
BadField 1|set R alice disabled on 
BadField 1|set R alice disabled on on
BadField 1|set R alice disabled
BadField 1|set\tR alice disabled on
BadField 1|set R alice disabled on\r;
BadField 1|\r;
UnknownRef 2|set R alice disabled on;set R nobody disabled on;set
UnknownRef 3|;;set R nobody disabled on
BadField 2|set R alice disabled on;x;set R nobody disabled on
UnknownRef 1|set R nobody disabled on;x
Ok|add-account R new 2001 17 1 NEW
Ok|add-account R new 4294967295 18 4294967295 LONG
Ok|add-account U alice 1002 17 1 NEW
BadField 1|add-account R new 2001 17 1
BadField 1|add-account R new 2001 17 1 NEW NEW
BadField 1|add-account R@ new 2001 17 1 NEW
BadField 1|add-account R krbtgt 2001 17 1 NEW
BadField 1|add-account R new/ 2001 17 1 NEW
BadField 1|add-account R new 0 17 1 NEW
BadField 1|add-account R new 02001 17 1 NEW
BadField 1|add-account R new +2001 17 1 NEW
BadField 1|add-account R new 4294967296 17 1 NEW
BadField 1|add-account R new 2001 16 1 NEW
BadField 1|add-account R new 2001 017 1 NEW
BadField 1|add-account R new 2001 17 0 NEW
BadField 1|add-account R new 2001 17 4294967296 NEW
BadField 1|add-account R new 2001 17 1 LONG
BadField 1|add-account R new 2001 18 1 NEW
BadField 1|add-account R new 2001 17 1 AbAbAbAbAbAbAbAbAbAbAbAbAbAbAbA
BadField 1|add-account R new 2001 17 1 AbAbAbAbAbAbAbAbAbAbAbAbAbAbAbAg
UnknownRef 1|add-account V alice 1001 17 1 OLD
Duplicate 1|add-account R alice 2001 17 1 NEW
Duplicate 1|add-account R new 1001 17 1 NEW
Duplicate 1|add-account R alice 2001 17 1 WEB
SameKey 1|add-account R new 2001 17 1 WEB
SameKey 1|add-account R new 2001 17 2 TGT
SameKey 1|add-account U new 2001 17 2 LEG
Duplicate 2|remove-account R alice;add-account R new 1001 17 1 NEW
SameKey 2|remove-account R alice;add-account R new 2001 17 1 OLD
Ok|remove-account R alice;add-account R alice 2001 17 1 NEW
Ok|remove-account R alice;add-account U new 1002 17 1 NEW
Ok|remove-account R web;add-account R new 2001 17 1 NEW;add-spn R new http/web
BadField 1|remove-account R
BadField 1|remove-account R alice alice
BadField 1|remove-account R krbtgt
UnknownRef 1|remove-account V alice
UnknownRef 1|remove-account R erin
UnknownRef 2|remove-account R alice;remove-account R alice
Ok|set R alice not_delegated off;set R alice trusted_to_auth on;set R alice preauth off
BadField 1|set R alice Disabled on
BadField 1|set R alice disabled true
BadField 1|set R alice disabled On
UnknownRef 1|set V alice disabled on
Ok|set-key R alice 17 2 NEW
Ok|set-key R alice 17 2 OLD;set-key R alice 17 1 OLD
BadField 1|set-key R krbtgt 17 2 NEW
BadField 1|set-key R alice 17 2
BadField 1|set-key R alice 18 2 OLD
UnknownRef 1|set-key R erin 17 2 NEW
SameKey 1|set-key R alice 17 2 WEB
SameKey 2|set-key R alice 17 2 NEW;set-key R alice 17 3 OLD
SameKey 2|set-key R alice 17 2 NEW;set-key R web 17 3 NEW
Ok|add-spn R alice http/alice/8080
BadField 1|add-spn R alice http
BadField 1|add-spn R alice http/a/b/c
BadField 1|add-spn R alice krbtgt/R
BadField 1|add-spn R alice http/
UnknownRef 1|add-spn R bob http/bob
Duplicate 1|add-spn R web http/web
Duplicate 1|add-spn U erin http/web
Ok|remove-spn R web http/web;add-spn U erin http/web
BadField 1|remove-spn R web http
UnknownRef 1|remove-spn R web http/www
UnknownRef 1|remove-spn R alice http/web
Ok|add-classic R web no/one;add-classic R alice db/main
BadField 1|add-classic R web krbtgt/R
UnknownRef 1|add-classic U web no/one
Duplicate 1|add-classic R web db/main
Ok|remove-classic R web db/main;add-classic R web db/main
UnknownRef 1|remove-classic R web no/one
BadField 1|remove-classic R web db
Ok|add-resource R web S-1-5-21-1-1002
BadField 1|add-resource R web S-1-5-
BadField 1|add-resource R web 1002
UnknownRef 1|add-resource R bob S-1-5-21-1-1002
Duplicate 1|add-resource R web S-1-5-21-1-1001
Ok|remove-resource R web S-1-5-21-1-1001
BadField 1|remove-resource R web S-1-05-21-1-1001
UnknownRef 1|remove-resource R web S-1-5-21-1-1002
Ok|add-group R web 0;add-group R web 4294967295
BadField 1|add-group R web 4294967296
BadField 1|add-group R web 00
BadField 1|add-group R web -1
UnknownRef 1|add-group R bob 0
Duplicate 1|add-group R web 513
Ok|remove-group R web 513;add-group R web 513
BadField 1|remove-group R web
UnknownRef 1|remove-group R web 512
Ok|set-life R 1;set-life R 31536000
BadField 1|set-life R 0
BadField 1|set-life R 31536001
BadField 1|set-life R 1.0
BadField 1|set-life R alice 10
UnknownRef 1|set-life V 1
Ok|add-reach R U U
BadField 1|add-reach R U
BadField 1|add-reach R U U,
BadField 1|add-reach R @ U
UnknownRef 1|add-reach R V U
UnknownRef 1|add-reach V R U
UnknownRef 1|add-reach R U R
UnknownRef 1|add-reach R U V
Duplicate 1|add-reach U R R
Ok|remove-reach U R R;add-reach U R R
UnknownRef 1|remove-reach R U U
BadField 1|remove-reach R U";

/// The directory.
fn directory(rt: &(impl Abort + AllocGlobal)) -> Directory {
    read_directory(rt.alloc(), DIRECTORY.as_bytes())
        .ok()
        .expect(rt, "a directory")
}

/// The lines of a case, with what its names stand for.
fn lines_of(rt: &(impl Abort + AllocGlobal), shape: &str) -> Result<String, AllocError> {
    let mut lines = shape.replace(rt.alloc(), ";", "\n")?;
    for name in NAMES.lines() {
        let (name, meaning) = name.split_once('=').expect(rt, "a name");
        lines = lines.replace(rt.alloc(), name, meaning)?;
    }
    Ok(lines)
}

/// What is answered to a batch.
pub(super) fn answer(
    rt: &(impl Abort + AllocGlobal),
    dir: &mut Directory,
    lines: &[u8],
) -> Result<String, Fail> {
    if lines.len() > 1_048_576 {
        return Ok(String::from_str(rt.alloc(), "too long")?);
    }
    match apply_changes(rt.alloc(), dir, lines) {
        Ok(()) => Ok(String::from_str(rt.alloc(), "Ok")?),
        Err(
            DirRefusal {
                cause,
                place: DirPlace::Line(n),
            },
        ) => Ok(format!(in rt.alloc(); "{cause:?} {n}")?),
        Err(_) => Ok(String::from_str(rt.alloc(), "no line")?),
    }
}

#[test]
fn each_batch_is_applied_or_refused(rt: HostRuntime) -> Result<(), Fail> {
    for case in CASES.lines() {
        let (wanted, shape) = case.split_once('|').ok_or("a case")?;
        let lines = lines_of(&rt, shape)?;
        let found = answer(&rt, &mut directory(&rt), lines.as_bytes())?;
        assert_eq!(rt; found.as_str(), wanted, "{shape}");
    }
    Ok(())
}

#[test]
fn a_line_that_is_no_text_is_refused_in_its_turn(rt: HostRuntime) -> Result<(), Fail> {
    let cases = [
        ("BadField 1", b"\xff".as_slice()),
        (
            "BadField 2",
            b"set R alice disabled on\nset R alice disabled \xc3\nx".as_slice(),
        ),
        ("UnknownRef 1", b"set R bob disabled on\n\xff".as_slice()),
        ("BadField 1", b"\xff\nset R bob disabled on".as_slice()),
        ("BadField 1", b"set R \xc3 disabled on".as_slice()),
        ("UnknownRef 1", b"set R \xc3\xa9 disabled on".as_slice()),
    ];
    for (wanted, lines) in cases {
        let found = answer(&rt, &mut directory(&rt), lines)?;
        assert_eq!(rt; found.as_str(), wanted);
    }
    Ok(())
}

/// Limits of one account's lists: a line, its entry's number left out, and how many such lines an account without
/// entries takes.
const LIMITS: [(&str, usize); 4] = [
    ("add-spn R alice s/", 32),
    ("add-classic R alice s/", 256),
    ("add-resource R alice S-1-5-", 256),
    ("add-group R alice ", 128),
];

#[test]
fn a_list_takes_lines_up_to_its_limit(rt: HostRuntime) -> Result<(), Fail> {
    for (line, limit) in LIMITS {
        let mut lines = String::new(rt.alloc());
        for n in 0..limit {
            lines.push_str(format!(in rt.alloc(); "{line}{n}\n")?.as_str())?;
        }
        let mut dir = directory(&rt);
        assert_eq!(rt;
            answer(&rt, &mut dir, lines.as_bytes())?.as_str(),
            "Ok",
            "{line}"
        );
        let more = format!(in rt.alloc(); "\n{line}{limit}")?;
        assert_eq!(rt;
            answer(&rt, &mut dir, more.as_bytes())?.as_str(),
            "TooMany 2",
            "{line}"
        );
    }
    Ok(())
}

/// Whether the account at an index of the first realm is disabled.
fn is_disabled(rt: &(impl Abort + AllocGlobal), dir: &Directory, account: u32) -> bool {
    if dir.realm_count() == 0 {
        return false;
    }
    dir.account_at(0, account).expect(rt, "an account").disabled
}

#[test]
fn a_refused_batch_changes_nothing(rt: HostRuntime) -> Result<(), Fail> {
    let mut dir = directory(&rt);
    let lines = b"set R alice disabled on\nset R nobody disabled on\n";
    assert_eq!(rt; answer(&rt, &mut dir, lines)?.as_str(), "UnknownRef 2");
    assert_eq!(rt; is_disabled(&rt, &dir, 0), false);
    let lines = b"set R alice disabled on\n\nset R web disabled off\n";
    assert_eq!(rt; answer(&rt, &mut dir, lines)?.as_str(), "Ok");
    assert_eq!(rt; is_disabled(&rt, &dir, 0), true);
    assert_eq!(rt; is_disabled(&rt, &dir, 1), false);
    Ok(())
}
