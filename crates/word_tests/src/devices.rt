//! The devices in memory, each once, and what no clause says: that memory suffices.
use kb_base::{
    Changes, Clock, Door, Entropy, Failed, MemChanges, MemClock, MemDoor, MemEntropy, SteadyDoor,
    SteadyEntropy,
};
use krb_names::{Bytes, Items, Moment};
use std::alloc::{AllocError, Global};
use std::test::Fail;

/// The bytes of one caller.
fn one_caller(alloc: Global) -> Result<Vec<Bytes>, AllocError> {
    let mut callers = Vec::new(alloc);
    callers.push(Items::copy(alloc, b"one")?)?;
    Ok(callers)
}

#[test]
fn a_caller_is_read_and_sent_bytes(rt: HostRuntime) -> Result<(), Fail> {
    let alloc = rt.alloc();
    let fails = Items::copy(alloc, &[3])?;
    let mut door = MemDoor::new(alloc, one_caller(alloc)?, fails)?;
    let mut buf = [0; 2];
    assert_eq!(rt; door.next_caller(), Ok(true));
    assert_eq!(rt; door.read(&mut buf), Ok(2));
    assert_eq!(rt; door.read(&mut buf), Err(Failed));
    door.write(b"hi")?;
    assert_eq!(rt; door.sent(0), Some(b"hi".as_slice()));
    Ok(())
}

#[test]
fn a_steady_door_sends_bytes(rt: HostRuntime) -> Result<(), Fail> {
    let mut door = SteadyDoor::new(rt.alloc(), one_caller(rt.alloc())?)?;
    assert_eq!(rt; door.next_caller(), Ok(true));
    door.write(b"hi")?;
    assert_eq!(rt; door.sent(0), Some(b"hi".as_slice()));
    Ok(())
}

#[test]
fn a_block_past_the_list_is_its_number(rt: HostRuntime) -> Result<(), Fail> {
    let mut entropy = MemEntropy::new(rt.alloc(), Vec::new(rt.alloc()), Items::new(rt.alloc()));
    let mut steady = SteadyEntropy::new(rt.alloc(), Vec::new(rt.alloc()));
    let mut block = [0; 64];
    assert_eq!(rt; entropy.fill(&mut block), Ok(()));
    assert_eq!(rt; &block[..9], b"\0\0\0\0\0\0\0\x01\0".as_slice());
    assert_eq!(rt; steady.fill(&mut block), Ok(()));
    assert_eq!(rt; &block[55..], b"\x01\0\0\0\0\0\0\0\x01".as_slice());
    Ok(())
}

#[test]
fn the_last_moment_repeats(rt: HostRuntime) -> Result<(), Fail> {
    let mut moments = Vec::new(rt.alloc());
    moments.push(Moment { secs: 1, micros: 2 })?;
    let mut clock = MemClock::new(rt.alloc(), moments);
    assert_eq!(rt; clock.now().secs, 1);
    assert_eq!(rt; clock.now().micros, 2);
    Ok(())
}

#[test]
fn no_batch_is_an_empty_one(rt: HostRuntime) -> Result<(), Fail> {
    let mut changes = MemChanges::new(rt.alloc(), Vec::new(rt.alloc()), Items::new(rt.alloc()));
    assert_eq!(rt; changes.take()?.len(), 0);
    Ok(())
}
