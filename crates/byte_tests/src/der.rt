use der_core::{DerCause, DerRefusal, Reader, Writer};
use std::test::Fail;

/// Faults of the first element, its tag being 30.
#[test]
fn an_element_is_refused_with_cause_and_place(rt: HostRuntime) {
    let cases: [(&[u8], DerCause, u32); 3] = [
        (
            &[0x30, 0x81, 0x03, 0x02, 0x01, 0x01],
            DerCause::NotMinimal,
            1,
        ),
        (&[0x30, 0x04, 0x02, 0x01, 0x01], DerCause::Truncated, 5),
        (&[0x05, 0x00], DerCause::WrongTag, 0),
    ];
    for (bytes, cause, place) in cases {
        assert!(rt; bytes.len() < 100);
        let refusal = Reader::new(bytes).take(0x30).err();
        assert_eq!(rt; refusal, Some(DerRefusal { cause, place }));
    }
}

/// The bit string is the example of X.690, section 8.6.4.2; 128 and -128 are the integers of Kaliski's guide to BER and DER.
#[test]
fn values_are_read(rt: HostRuntime) -> Result<(), Fail> {
    let bytes = [
        0x02, 0x02, 0x00, 0x80, // 128
        0x02, 0x01, 0x80, // -128
        0x03, 0x07, 0x04, 0x0a, 0x3b, 0x5f, 0x29, 0x1c, 0xd0, // 0A3B5F291CD
        0x04, 0x01, 0x05, // octets
        0x1b, 0x01, 0x61, // text
    ];
    let mut from = Reader::new(&bytes);
    assert_eq!(rt; from.int()?, 128);
    assert_eq!(rt; from.int_within(-128, 127)?, -128);
    assert_eq!(rt; from.bits()?, 0x0a3b_5f29);
    assert_eq!(rt; from.octets()?, [5].as_slice());
    assert_eq!(rt; from.text()?, "a");
    from.done()?;
    Ok(())
}

/// A SEQUENCE, made from its end.
#[test]
fn values_are_written(rt: HostRuntime) -> Result<(), Fail> {
    let mut to = Writer::new(rt.alloc());
    to.int(128)?;
    to.bits(0x4000_0000)?;
    to.octets(&[5])?;
    to.text("a")?;
    to.time(b"19700101000000Z")?;
    to.raw(&[0x05, 0x00])?;
    if to.mark() < 100 {
        to.wrap(0x30, 0)?;
    }
    let expected = [
        0x30, 0x24, 0x02, 0x02, 0x00, 0x80, 0x03, 0x05, 0x00, 0x40, 0x00, 0x00, 0x00, 0x04, 0x01,
        0x05, 0x1b, 0x01, 0x61, 0x18, 0x0f, 0x31, 0x39, 0x37, 0x30, 0x30, 0x31, 0x30, 0x31, 0x30,
        0x30, 0x30, 0x30, 0x30, 0x30, 0x5a, 0x05, 0x00,
    ];
    assert_eq!(rt; to.into_vec().as_slice(), expected.as_slice());
    Ok(())
}
