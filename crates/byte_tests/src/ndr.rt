//! S4U_DELEGATION_INFO (MS-PAC, section 2.9) of target `db/main` and list `web@R`, field by field.
use ndr_core::*;
use std::test::Fail;

const BYTES: [u8; 104] = [
    // common header: version 1, little-endian, 8 bytes, filler
    0x01, 0x10, 0x08, 0x00, 0xcc, 0xcc, 0xcc, 0xcc, //
    // private header: 88 bytes
    0x58, 0x00, 0x00, 0x00, 0x00, 0x00, 0x00, 0x00, //
    // pointer to the structure; S4U2proxyTarget: 14 bytes of at most 14, pointer
    0x00, 0x00, 0x02, 0x00, 0x0e, 0x00, 0x0e, 0x00, 0x04, 0x00, 0x02, 0x00, //
    // TransitedListSize, pointer
    0x01, 0x00, 0x00, 0x00, 0x08, 0x00, 0x02, 0x00, //
    // maximum, offset, actual count, `db/main`, two bytes of alignment
    0x07, 0x00, 0x00, 0x00, 0x00, 0x00, 0x00, 0x00, 0x07, 0x00, 0x00, 0x00, //
    0x64, 0x00, 0x62, 0x00, 0x2f, 0x00, 0x6d, 0x00, 0x61, 0x00, 0x69, 0x00, 0x6e, 0x00, 0x00, 0x00,
    // count of the array; its string: 10 bytes of at most 10, pointer
    0x01, 0x00, 0x00, 0x00, 0x0a, 0x00, 0x0a, 0x00, 0x0c, 0x00, 0x02, 0x00, //
    // maximum, offset, actual count, `web@R`, padding
    0x05, 0x00, 0x00, 0x00, 0x00, 0x00, 0x00, 0x00, 0x05, 0x00, 0x00, 0x00, //
    0x77, 0x00, 0x65, 0x00, 0x62, 0x00, 0x40, 0x00, 0x52, 0x00, //
    0x00, 0x00, 0x00, 0x00, 0x00, 0x00,
];

const TARGET: [u8; 14] = [
    0x64, 0, 0x62, 0, 0x2f, 0, 0x6d, 0, 0x61, 0, 0x69, 0, 0x6e, 0,
];

const SERVICE: [u8; 10] = [0x77, 0, 0x65, 0, 0x62, 0, 0x40, 0, 0x52, 0];

#[test]
fn written(rt: HostRuntime) -> Result<(), Fail> {
    let mut to = NdrWriter::new(rt.alloc())?;
    to.u16(14)?;
    to.u16(14)?;
    to.pointer(true)?;
    to.u32(1)?;
    to.pointer(true)?;
    to.units(&TARGET)?;
    to.u32(1)?;
    to.raw(&[10, 0, 10, 0])?;
    to.pointer(true)?;
    to.units(&SERVICE)?;
    assert_eq!(rt; to.len(), 98);
    let bytes = to.finish()?;
    assert_eq!(rt; bytes.as_slice(), BYTES.as_slice());
    Ok(())
}

#[test]
fn read(rt: HostRuntime) -> Result<(), Fail> {
    let mut from = NdrReader::new(&BYTES)?;
    assert_eq!(rt; from.u16()?, 14);
    assert_eq!(rt; from.u16()?, 14);
    assert!(rt; from.pointer()?);
    assert_eq!(rt; from.u32_within(0, 32, NdrCause::TooMany)?, 1);
    assert!(rt; from.pointer_to(1)?);
    assert_eq!(rt; from.units(14)?, TARGET.as_slice());
    from.count(1)?;
    from.raw(8)?;
    assert_eq!(rt; from.units(10)?, SERVICE.as_slice());
    from.done()?;
    Ok(())
}

#[test]
fn packed(rt: HostRuntime) -> Result<(), Fail> {
    let mut to = NdrWriter::packed(rt.alloc());
    to.u8(1)?;
    to.u8(2)?;
    to.u32(7)?;
    let bytes = to.into_vec();
    assert_eq!(rt; bytes.as_slice(), [1, 2, 0, 0, 7, 0, 0, 0].as_slice());
    let mut from = NdrReader::packed(&[1, 2, 0, 0, 7, 0, 0, 0]);
    from.u8_exactly(1, NdrCause::BadCount)?;
    assert_eq!(rt; from.u8_within(1, 15, NdrCause::BadCount)?, 2);
    assert_eq!(rt; from.u32()?, 7);
    from.exhausted()?;
    Ok(())
}
