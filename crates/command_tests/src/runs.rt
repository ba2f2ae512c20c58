//! Runs of the program over devices in memory.
use kb_base::{
    MemClock, MemDoor, MemSink, MemSource, SteadyChanges, SteadyDoor, SteadyEntropy, SteadySink,
    SteadySource,
};
use kdc_commands::run_words;
use krb_names::{Items, Moment, Numbers};
use std::alloc::AllocError;
use std::process::Abort;
use std::test::Fail;

/// A realm with a front end, a database and a user.
const REALM: &str =
    r#"{"realms":[{"name":"R","sid":"S-1-5-21-1","krbtgt":{"etype":17,"kvno":1,"key":"11111111111111111111111111111111"},
"accounts":[{"name":"ana","number":1001,"key":{"etype":17,"kvno":1,"key":"21212121212121212121212121212121"}},
{"name":"web","number":1002,"key":{"etype":17,"kvno":1,"key":"31313131313131313131313131313131"},"spns":["http/web/x"],"trusted_to_auth":true,"classic":["db/main"]},
{"name":"db","number":1003,"key":{"etype":17,"kvno":1,"key":"ABABABABABABABABABABABABABABABAB"},"spns":["db/main"]}]}]}"#;

/// A clock that stands at 2023-11-14T22:13:20.
fn still_clock(rt: &(impl Abort + AllocGlobal)) -> Result<MemClock, AllocError> {
    let mut moments = Vec::new(rt.alloc());
    moments.push(Moment {
        secs: 1_700_000_000,
        micros: 0,
    })?;
    Ok(MemClock::new(rt.alloc(), moments))
}

/// The status of a run over devices that never fail, and what it printed.
fn run(
    rt: &(impl Abort + AllocGlobal),
    words: &[&str],
    dir: &str,
    input: &[u8],
) -> Result<(u8, Vec<u8>), AllocError> {
    let mut given = Vec::new(rt.alloc());
    for word in words {
        given.push(String::from_str(rt.alloc(), word)?)?;
    }
    let mut dir = SteadySource::new(rt.alloc(), Items::copy(rt.alloc(), dir.as_bytes())?);
    let mut callers = Vec::new(rt.alloc());
    callers.push(Items::copy(rt.alloc(), input)?)?;
    let mut door = SteadyDoor::new(rt.alloc(), callers)?;
    let mut changes = SteadyChanges::new(rt.alloc(), Vec::new(rt.alloc()));
    let mut clock = still_clock(rt)?;
    let mut entropy = SteadyEntropy::new(rt.alloc(), Vec::new(rt.alloc()));
    let mut out = SteadySink::new(rt.alloc());
    let status = run_words(
        rt.alloc(),
        given.as_slice(),
        &mut dir,
        &mut changes,
        &mut door,
        &mut clock,
        &mut entropy,
        &mut out,
    );
    Ok((status, Vec::from_slice(rt.alloc(), out.as_slice())?))
}

#[test]
fn lines_are_questions_or_bad(rt: HostRuntime) -> Result<(), Fail> {
    let rows = [
        ("", ""),
        ("\n", "bad question\n"),
        ("self web@R ana@R", "allow forwardable\n"),
        (
            "self web@R ana@R\nself ana@R web@R",
            "allow forwardable\ndeny S4\n",
        ),
        ("self web@R ana@R\r\n", "bad question\n"),
        ("self web@R  ana@R", "bad question\n"),
        ("self web@R ana@R ", "bad question\n"),
        ("self web@R ana@R@R", "bad question\n"),
        ("self web@R an\u{a0}a@R", "deny S6\n"),
        ("self web@R an\u{85}a@R", "bad question\n"),
        ("self web@R ana@S", "deny S5\n"),
        ("classic web@R ana@R db/main", "allow\n"),
        ("classic web@R ana@R http/web/x", "deny P11\n"),
        ("classic web@R ana@R http/web", "deny G19\n"),
        ("classic web@R ana@R krbtgt/X", "deny G19\n"),
        ("classic web@R ana@R db", "bad question\n"),
        ("Self web@R ana@R", "bad question\n"),
    ];
    for (input, printed) in rows {
        let (status, text) = run(&rt, &["ask", "dir.json"], REALM, input.as_bytes())?;
        assert_eq!(rt; status, 0, "{input}");
        assert_eq!(rt; text.as_slice(), printed.as_bytes(), "{input}");
    }
    Ok(())
}

#[test]
fn a_name_of_256_bytes_is_no_name(rt: HostRuntime) -> Result<(), Fail> {
    for (length, printed) in [(255, "deny S6\n"), (256, "bad question\n")] {
        let mut line = String::from_str(rt.alloc(), "self web@R ")?;
        line.push_str("a".repeat(rt.alloc(), length)?.as_str())?;
        line.push_str("@R")?;
        let (_, text) = run(&rt, &["ask", "dir.json"], REALM, line.as_bytes())?;
        assert_eq!(rt; text.as_slice(), printed.as_bytes(), "{length}");
    }
    Ok(())
}

#[test]
fn texts_are_directories_or_are_refused(rt: HostRuntime) -> Result<(), Fail> {
    let key = r#"{"etype":17,"kvno":1,"key":"11111111111111111111111111111111"}"#;
    let rows = [
        (
            r#"{"realms":[{"name":"R","name":"S","sid":"S-1-5-21-1","krbtgt":KEY}]}"#,
            "",
        ),
        (
            r#"{"realms":[{"name":"R","sid":"S-1-5-21-1","krbtgt":KEY,"trusts":[]}]}"#,
            "",
        ),
        (r#"{"realms":[]}"#, "MissingField at whole"),
        (r#"{"realms":"#, "NotJson at whole"),
        (r#"{"realms":[],"x":1e400}"#, "NotJson at whole"),
        (r#"[]"#, "BadField at whole"),
        (r#"{"realms":[1]}"#, "BadField at realm 0"),
        (
            r#"{"realms":[{"sid":"S-1-5-21-1","krbtgt":KEY}]}"#,
            "MissingField at realm 0",
        ),
        (
            r#"{"realms":[{"name":"R","sid":"S-1-5-21-1","krbtgt":{"etype":18.0,"kvno":1,"key":""}}]}"#,
            "BadField at realm 0",
        ),
        (
            r#"{"realms":[{"name":"R","sid":"S-1-5-21-1","krbtgt":KEY,"more":1}]}"#,
            "BadField at realm 0",
        ),
        (
            r#"{"realms":[{"name":"R","sid":"S-1-5-21-1","krbtgt":KEY,"accounts":[{"name":"a","number":0,"key":KEY}]}]}"#,
            "BadField at realm 0 account 1",
        ),
        (
            r#"{"realms":[{"name":"R","sid":"S-1-5-21-1","krbtgt":KEY,"accounts":[{"name":"a","number":1,"key":KEY}]}]}"#,
            "SameKey at realm 0 account 1",
        ),
    ];
    for (shape, refusal) in rows {
        let text = shape.replace(rt.alloc(), "KEY", key)?;
        let (status, printed) = run(&rt, &["ask", "dir.json"], text.as_str(), b"")?;
        let mut wanted = String::new(rt.alloc());
        if !refusal.is_empty() {
            wanted.push_str("directory refused: ")?;
            wanted.push_str(refusal)?;
            wanted.push_str("\n")?;
        }
        assert_eq!(rt; printed.as_slice(), wanted.as_bytes(), "{shape}");
        assert_eq!(rt; status, if refusal.is_empty() { 0 } else { 4 }, "{shape}");
    }
    Ok(())
}

#[test]
fn a_text_nests_at_most_127_deep(rt: HostRuntime) -> Result<(), Fail> {
    for (depth, cause) in [(126, "BadField"), (127, "NotJson")] {
        let mut text = String::from_str(rt.alloc(), r#"{"realms":1,"x":"#)?;
        text.push_str("[".repeat(rt.alloc(), depth)?.as_str())?;
        text.push_str("]".repeat(rt.alloc(), depth)?.as_str())?;
        text.push_str("}")?;
        let (status, printed) = run(&rt, &["ask", "dir.json"], text.as_str(), b"")?;
        let mut wanted = String::from_str(rt.alloc(), "directory refused: ")?;
        wanted.push_str(cause)?;
        wanted.push_str(" at whole\n")?;
        assert_eq!(rt; status, 4, "{depth}");
        assert_eq!(rt; printed.as_slice(), wanted.as_bytes(), "{depth}");
    }
    Ok(())
}

#[test]
fn words_are_a_command_or_bad(rt: HostRuntime) -> Result<(), Fail> {
    let rows = [
        ["ask"].as_slice(),
        ["ask", "a", "b"].as_slice(),
        ["Ask", "a"].as_slice(),
        ["explain"].as_slice(),
        ["explain", "a", "b"].as_slice(),
        ["derive", "17", "1", "a"].as_slice(),
        ["derive", "17", "1", "a", "b", "c"].as_slice(),
        ["derive", "17", "0", "a", "b"].as_slice(),
        ["derive", "017", "1", "a", "b"].as_slice(),
        ["derive", "17", "01", "a", "b"].as_slice(),
        ["derive", "17", "+1", "a", "b"].as_slice(),
        ["derive", "17", "1000001", "a", "b"].as_slice(),
        ["derive", "16", "1", "a", "b"].as_slice(),
        ["derive", "19", "1", "a", "b"].as_slice(),
    ];
    for words in rows {
        let (status, text) = run(&rt, words, REALM, b"")?;
        assert_eq!(rt; status, 2);
        assert_eq!(rt; text.as_slice(), b"bad words\n".as_slice());
    }
    Ok(())
}

#[test]
fn an_input_above_its_limit_is_not_answered(rt: HostRuntime) -> Result<(), Fail> {
    let input = "\n".repeat(rt.alloc(), 1_048_577)?;
    for word in ["ask", "explain"] {
        let (status, text) = run(&rt, &[word, "dir.json"], REALM, input.as_bytes())?;
        assert_eq!(rt; status, 14, "{word}");
        assert_eq!(rt; text.as_slice(), b"input too long\n".as_slice(), "{word}");
    }
    Ok(())
}

/// A key of each type that RFC 3962, appendix B, has.
#[test]
fn a_key_is_derived(rt: HostRuntime) -> Result<(), Fail> {
    let rows = [
        ("17", "1", "42263c6e89f4fc28b8df68ee09799f15\n"),
        (
            "18",
            "1200",
            "55a6ac740ad17b4846941051e1e8b0a7548d93b0ab30a8bc3ff16280382b8c2a\n",
        ),
    ];
    for (etype, rounds, key) in rows {
        let words = ["derive", etype, rounds, "ATHENA.MIT.EDUraeburn", "password"];
        let (status, text) = run(&rt, &words, "", b"")?;
        assert_eq!(rt; status, 0, "{etype}");
        assert_eq!(rt; text.as_slice(), key.as_bytes(), "{etype}");
    }
    Ok(())
}

/// A ticket for http/web of R, which nobody has, the same without its last byte, no hex, and two lines.
#[test]
fn a_ticket_is_refused(rt: HostRuntime) -> Result<(), Fail> {
    let ticket =
        "61373035a003020105a1031b0152a2163014a003020102a10d300b1b04687474701b03776562a311300fa003020112a103020101a203040100";
    let rows = [
        ("TICKET", 10, "refused P2\n"),
        ("TICKET\n", 10, "refused P2\n"),
        ("TICKET\n\n", 10, "refused U3\n"),
        ("TICKET00", 10, "refused U3\n"),
        ("zz", 10, "refused U3\n"),
        ("", 10, "refused U3\n"),
    ];
    for (shape, status, printed) in rows {
        let input = shape.replace(rt.alloc(), "TICKET", ticket)?;
        let (found, text) = run(&rt, &["explain", "dir.json"], REALM, input.as_bytes())?;
        assert_eq!(rt; found, status, "{shape}");
        assert_eq!(rt; text.as_slice(), printed.as_bytes(), "{shape}");
    }
    let cut = &ticket.as_bytes()[..ticket.len() - 2];
    let (status, text) = run(&rt, &["explain", "dir.json"], REALM, cut)?;
    assert_eq!(rt; status, 10);
    assert_eq!(rt; text.as_slice(), b"refused U3\n".as_slice());
    Ok(())
}

/// The status of a run whose devices fail at these calls, and what it printed.
fn run_failing(
    rt: &(impl Abort + AllocGlobal),
    dir_fails: &[u32],
    input_fails: &[u32],
    out_fails: &[u32],
) -> Result<(u8, Vec<u8>), AllocError> {
    let mut words = Vec::new(rt.alloc());
    words.push(String::from_str(rt.alloc(), "ask")?)?;
    words.push(String::from_str(rt.alloc(), "dir.json")?)?;
    let dir_fails: Numbers = Items::copy(rt.alloc(), dir_fails)?;
    let input_fails: Numbers = Items::copy(rt.alloc(), input_fails)?;
    let out_fails: Numbers = Items::copy(rt.alloc(), out_fails)?;
    let text = Items::copy(rt.alloc(), REALM.as_bytes())?;
    let mut dir = MemSource::new(rt.alloc(), text, dir_fails);
    let lines = Items::copy(rt.alloc(), b"self web@R ana@R\n")?;
    let mut callers = Vec::new(rt.alloc());
    callers.push(lines)?;
    let mut door = MemDoor::new(rt.alloc(), callers, input_fails)?;
    let mut changes = SteadyChanges::new(rt.alloc(), Vec::new(rt.alloc()));
    let mut clock = still_clock(rt)?;
    let mut entropy = SteadyEntropy::new(rt.alloc(), Vec::new(rt.alloc()));
    let mut out = MemSink::new(rt.alloc(), out_fails);
    let status = run_words(
        rt.alloc(),
        words.as_slice(),
        &mut dir,
        &mut changes,
        &mut door,
        &mut clock,
        &mut entropy,
        &mut out,
    );
    Ok((status, Vec::from_slice(rt.alloc(), out.as_slice())?))
}

#[test]
fn a_device_that_fails_is_told_and_nothing_is_printed(rt: HostRuntime) -> Result<(), Fail> {
    assert_eq!(rt; run_failing(&rt, &[1], &[], &[])?.0, 5);
    assert_eq!(rt; run_failing(&rt, &[], &[1], &[])?.0, 9);
    assert_eq!(rt; run_failing(&rt, &[], &[2], &[])?.0, 5);
    assert_eq!(rt; run_failing(&rt, &[], &[], &[1])?.0, 6);
    let (status, text) = run_failing(&rt, &[9], &[9], &[9])?;
    assert_eq!(rt; status, 0);
    assert_eq!(rt; text.as_slice(), b"allow forwardable\n".as_slice());
    Ok(())
}

/// A caller of 10,001 empty requests: 10,000 are answered, and no more is read.
#[test]
fn a_caller_has_a_budget_of_requests(rt: HostRuntime) -> Result<(), Fail> {
    let frames = "\0".repeat(rt.alloc(), 40_004)?;
    let (status, text) = run(&rt, &["answer", "dir.json"], REALM, frames.as_bytes())?;
    let mut notes = "none U2\n".repeat(rt.alloc(), 10_000)?;
    notes.push_str("caller left: budget\n")?;
    assert_eq!(rt; status, 0);
    assert_eq!(rt; text.as_slice(), notes.as_bytes());
    Ok(())
}
