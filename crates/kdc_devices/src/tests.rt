//! Each device once, over real files and sockets, with its faults.
use crate::{
    FileChanges, FileSource, StdDoor, StdSink, StdSource, SysClock, SysEntropy, TcpDoor, TcpLink,
};
use kb_base::{Changes, Clock, DeviceFault, Door, Entropy, Failed, Link, Sink, Source};
use std::alloc::Global;
use std::fs::{self, File, OpenOptions};
use std::io::{self, Read, Write};
use std::net::{Shutdown, TcpStream};
use std::process::Abort;
use std::test::Fail;

/// A reader and a writer that take and give nothing.
#[derive(Drop)]
struct Nothing;

impl Read for Nothing {
    fn read(&mut self, _buf: &mut [u8]) -> io::Result<usize> {
        Ok(0)
    }
}

impl Write for Nothing {
    fn write(&mut self, _buf: &[u8]) -> io::Result<usize> {
        Ok(0)
    }

    fn flush(&mut self) -> io::Result<()> {
        Ok(())
    }
}

#[test]
fn a_file_is_read_from_its_first_read_on(rt: HostRuntime) -> Result<(), Fail> {
    let path = "kdc_devices-source";
    let mut buf = [0; 8];
    let mut source = FileSource::new(&rt, path);
    assert_eq!(rt; source.read(&mut buf), Err(Failed));
    fs::write(&rt, path, "abc")?;
    assert_eq!(rt; source.read(&mut buf), Ok(3));
    assert_eq!(rt; &buf[..3], b"abc".as_slice());
    assert_eq!(rt; source.read(&mut buf), Ok(0));
    fs::remove_file(&rt, path)?;
    // A folder can be opened and not be read.
    assert_eq!(rt; FileSource::new(&rt, ".").read(&mut buf), Err(Failed));
    assert_eq!(rt;
        StdSource::new(fs::open(&rt, ".")?).read(&mut buf),
        Err(Failed)
    );
    assert_eq!(rt; StdSource::new(Nothing).read(&mut buf), Ok(0));
    Ok(())
}

#[test]
fn a_write_that_takes_nothing_is_a_fault(rt: HostRuntime) -> Result<(), Fail> {
    assert_eq!(rt; StdSink::new(Nothing).write(b"a"), Err(DeviceFault::Failed));
    assert_eq!(rt; StdSink::new(Nothing).write(b""), Ok(0));
    let full = OpenOptions::new().write(true).open(&rt, "/dev/full")?;
    assert_eq!(rt; StdSink::new(full).write(b"a"), Err(DeviceFault::Failed));
    let taken = OpenOptions::new().write(true).open(&rt, "/dev/null")?;
    assert_eq!(rt; StdSink::new(taken).write(b"ab"), Ok(2));
    Ok(())
}

/// The next batch is these lines.
fn takes(
    rt: &impl Abort,
    changes: &mut FileChanges<'_, HostRuntime>,
    lines: &str,
) -> Result<(), Fail> {
    match changes.take() {
        Ok(batch) => assert_eq!(rt; batch.as_slice(), lines.as_bytes(), "{lines}"),
        Err(_) => assert!(rt; false, "{lines}"),
    }
    Ok(())
}

#[test]
fn a_file_of_changes_grows(rt: HostRuntime) -> Result<(), Fail> {
    let path = "kdc_devices-grows.changes";
    let mut changes = FileChanges::new(rt.alloc(), &rt, "kdc_devices-grows")?;
    takes(&rt, &mut changes, "")?;
    fs::write(&rt, path, "one\ntwo\nthr")?;
    takes(&rt, &mut changes, "one\ntwo\n")?;
    takes(&rt, &mut changes, "")?;
    let mut file = OpenOptions::new().append(true).open(&rt, path)?;
    file.write_all(b"ee")?;
    takes(&rt, &mut changes, "")?;
    file.write_all(b"\n\nfour\n")?;
    takes(&rt, &mut changes, "three\n\nfour\n")?;
    takes(&rt, &mut changes, "")?;
    // Who begins again has all of it at once.
    takes(
        &rt,
        &mut FileChanges::new(rt.alloc(), &rt, "kdc_devices-grows")?,
        "one\ntwo\nthree\n\nfour\n",
    )?;
    fs::remove_file(&rt, path)?;
    Ok(())
}

#[test]
fn a_long_line_of_changes_is_a_fault(rt: HostRuntime) -> Result<(), Fail> {
    let path = "kdc_devices-long.changes";
    // A line of the most bytes, with its newline, between two short ones.
    let mut line = "b".repeat(rt.alloc(), 1_048_575)?;
    line.push_str("\n")?;
    let mut text = String::from_str(rt.alloc(), "a\n")?;
    text.push_str(line.as_str())?;
    text.push_str("c\n")?;
    fs::write(&rt, path, text.as_str())?;
    let mut changes = FileChanges::new(rt.alloc(), &rt, "kdc_devices-long")?;
    takes(&rt, &mut changes, "a\n")?;
    takes(&rt, &mut changes, line.as_str())?;
    takes(&rt, &mut changes, "c\n")?;
    let mut file = OpenOptions::new().append(true).open(&rt, path)?;
    file.write_all("d".repeat(rt.alloc(), 1_048_575)?.as_bytes())?;
    takes(&rt, &mut changes, "")?;
    file.write_all(b"d\n")?;
    for _ in 0..2 {
        assert!(rt; matches!(changes.take(), Err(DeviceFault::Failed)));
    }
    fs::remove_file(&rt, path)?;
    fs::create_dir(&rt, path)?;
    let mut folder = FileChanges::new(rt.alloc(), &rt, "kdc_devices-long")?;
    assert!(rt; matches!(folder.take(), Err(DeviceFault::Failed)));
    fs::remove_dir(&rt, path)?;
    Ok(())
}

#[test]
fn one_caller_comes_to_the_streams(rt: HostRuntime) -> Result<(), Fail> {
    let mut buf = [0; 4];
    // An input that is at its end.
    let mut door = StdDoor::new(fs::open(&rt, "/dev/null")?, rt.stdout());
    assert_eq!(rt; door.write(b"a"), Err(DeviceFault::Failed));
    assert_eq!(rt; door.next_caller(), Ok(true));
    assert_eq!(rt; door.read(&mut buf), Ok(0));
    assert_eq!(rt; door.write(b""), Ok(0));
    assert_eq!(rt; door.next_caller(), Ok(false));
    // An input of which a front is read by its caller alone.
    let mut door = StdDoor::new(fs::open(&rt, "/dev/zero")?, Nothing);
    assert_eq!(rt; door.read(&mut buf), Ok(0));
    assert_eq!(rt; door.next_caller(), Ok(true));
    assert_eq!(rt; door.read(&mut buf), Ok(4));
    assert_eq!(rt; door.write(b"a"), Err(DeviceFault::Failed));
    assert_eq!(rt; door.next_caller(), Ok(false));
    assert_eq!(rt; door.next_caller(), Ok(false));
    assert_eq!(rt; door.read(&mut buf), Ok(0));
    assert_eq!(rt; door.write(b"a"), Err(DeviceFault::Failed));
    Ok(())
}

/// A door at the first of some ports that is free, and that port.
fn open_door(rt: &HostRuntime) -> Option<(TcpDoor<'_, HostRuntime>, u16)> {
    for port in 47_600..47_700 {
        let mut door = TcpDoor::new(rt, port);
        if door.bind().is_ok() {
            return Some((door, port));
        }
    }
    None
}

#[test]
fn callers_come_over_tcp(rt: HostRuntime) -> Result<(), Fail> {
    let Some((mut door, port)) = open_door(&rt) else {
        assert!(rt; false, "a port");
        return Ok(());
    };
    let mut buf = [0; 8];
    assert_eq!(rt; door.bind(), Ok(()));
    assert_eq!(rt; TcpDoor::new(&rt, port).next_caller(), Err(Failed));
    assert_eq!(rt; door.read(&mut buf), Ok(0));
    assert_eq!(rt; door.write(b"a"), Err(DeviceFault::Failed));

    let mut first = TcpStream::connect(&rt, ("127.0.0.1", port))?;
    let mut second = TcpStream::connect(&rt, ("127.0.0.1", port))?;
    first.write_all(b"ask")?;
    first.shutdown(Shutdown::Write)?;
    second.write_all(b"more")?;
    assert_eq!(rt; door.next_caller(), Ok(true));
    assert_eq!(rt; door.read(&mut buf), Ok(3));
    assert_eq!(rt; &buf[..3], b"ask".as_slice());
    assert_eq!(rt; door.read(&mut buf), Ok(0));
    assert_eq!(rt; door.write(b"answer"), Ok(6));
    assert_eq!(rt; door.next_caller(), Ok(true));
    // The first caller has its answer, and the end.
    let mut answer = Vec::new(rt.alloc());
    first.read_to_end(&mut answer)?;
    assert_eq!(rt; answer.as_slice(), b"answer".as_slice());
    assert_eq!(rt; door.read(&mut buf), Ok(4));
    Ok(())
}

#[test]
fn a_peer_is_asked_over_tcp(rt: HostRuntime) -> Result<(), Fail> {
    let Some((mut door, port)) = open_door(&rt) else {
        assert!(rt; false, "a port");
        return Ok(());
    };
    let mut buf = [0; 8];
    let mut link = TcpLink::new(&rt, "127.0.0.1", port);
    assert_eq!(rt; link.write(b"ask"), Ok(3));
    assert_eq!(rt; link.write(b""), Ok(0));
    assert_eq!(rt; door.next_caller(), Ok(true));
    assert_eq!(rt; door.read(&mut buf), Ok(3));
    assert_eq!(rt; door.write(b"answer"), Ok(6));
    assert_eq!(rt; link.read(&mut buf), Ok(6));
    assert_eq!(rt; &buf[..6], b"answer".as_slice());
    // Nobody listens any more.
    drop(door);
    let mut link = TcpLink::new(&rt, "127.0.0.1", port);
    assert_eq!(rt; link.read(&mut buf), Err(Failed));
    assert_eq!(rt; link.write(b"ask"), Err(DeviceFault::Failed));
    Ok(())
}

#[test]
fn the_clock_tells_a_moment_after_2023(rt: HostRuntime) {
    assert!(rt; SysClock::new(&rt).now().secs > 1_704_067_200);
}

#[test]
fn blocks_of_random_octets_differ(rt: HostRuntime) {
    let mut entropy = SysEntropy::new(&rt);
    let (mut one, mut other) = ([0; 64], [0; 64]);
    assert_eq!(rt; entropy.fill(&mut one), Ok(()));
    assert_eq!(rt; entropy.fill(&mut other), Ok(()));
    assert!(rt; one != other);
    assert!(rt; one[32..] != other[32..]);
}
