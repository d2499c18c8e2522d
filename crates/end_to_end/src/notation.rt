//! A row is the bytes that it says.
use pl_notation::Notation;
use std::alloc::Global;
use std::test::Fail;

/// The first bytes of the TLP or DLLP of this one row, behind the number of a TLP.
fn bytes_of(alloc: Global, row: &str) -> Result<Vec<u8>, Fail> {
    let mut notation = Notation::new(alloc, 0)?;
    notation.rows(row)?;
    let capture = notation.end()?;
    let bytes = Vec::from_slice(alloc, capture.get(28..).unwrap_or(&[]))?;
    Ok(bytes)
}

#[test]
fn packets_have_the_fields_that_their_rows_name(rt: HostRuntime) -> Result<(), Fail> {
    let packets: [(&str, &[u8]); 4] = [
        (
            "Up MRd n=1 tag=1 addr=1000 len=128",
            &[0, 1, 0, 0, 0, 0x80, 1, 0, 1, 0xFF, 0, 0, 0x10, 0],
        ),
        (
            "Down CplD n=1 tag=1 bc=512 la=0 len=64",
            &[0, 1, 0x4A, 0, 0, 0x40, 0, 0, 2, 0, 1, 0, 1, 0],
        ),
        (
            "Up MRd n=0 tag=105 addr=1000 len=1",
            &[0, 0, 0, 8, 0, 1, 1, 0, 5, 0x0F, 0, 0, 0x10, 0],
        ),
        ("Up Ack 4095", &[0, 0, 0x0F, 0xFF, 0x25, 0xA8]),
    ];
    for (row, front) in packets {
        let bytes = bytes_of(rt.alloc(), row)?;
        assert!(rt; bytes.as_slice().starts_with(front), "{row}: {bytes:?}");
    }
    Ok(())
}

#[test]
fn a_row_that_is_not_understood_is_named(rt: HostRuntime) -> Result<(), Fail> {
    for row in [
        "Up MRd n=0 tag=0 len=0",
        "Up Ack 4096",
        "Left Ack 0",
        "7 Up Ack 0",
        "Up MWr colour 5",
    ] {
        let mut notation = Notation::new(rt.alloc(), 0)?;
        assert!(rt; notation.rows(row).is_err(), "{row}");
    }
    Ok(())
}
