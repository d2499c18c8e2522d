//! A mix of TLPs as a link carries it, the same in each run.
ghost use Rattle.std.specs.Prelude.{◌<◌};

use std::alloc::{AllocError, Global};

/// The first bytes of each TLP of the mix, up to its first DW, and its size in bytes.
const MIX: [(&[u8], usize); 12] = [
    // reads of 128 bytes, with a header of 3 DW and of 4 DW
    (&[0x00, 0x00, 0x00, 0x20], 12),
    (&[0x20, 0x00, 0x00, 0x20], 16),
    // writes of 64 and of 256 bytes
    (&[0x40, 0x00, 0x00, 0x10], 76),
    (&[0x60, 0x30, 0x20, 0x40], 272),
    // completions with 64 and 128 bytes
    (&[0x4a, 0x00, 0x00, 0x10], 76),
    (&[0x4a, 0x08, 0x10, 0x20], 140),
    // one without data, and one with a digest
    (&[0x0a, 0x00, 0x00, 0x00], 12),
    (&[0x4a, 0x00, 0x80, 0x10], 80),
    // a read of configuration space, a message and a fetch and add
    (&[0x04, 0x00, 0x00, 0x01], 12),
    (&[0x34, 0x00, 0x00, 0x00], 16),
    (&[0x4c, 0x00, 0x00, 0x02], 20),
    // a write behind a prefix
    (&[0x90, 0x01, 0x02, 0x03, 0x40, 0x00, 0x00, 0x10], 80),
];

/// Numbers that look random.
fn next(state: u32) -> u32 {
    state.wrapping_mul(1_664_525).wrapping_add(1_013_904_223)
}

/// The place in the mix of TLP number `i`.
fn choice(i: u32) -> usize
    ensures { result < 12 }
{
    (next(i.wrapping_mul(2_654_435_761)) >> 16) as usize % MIX.len()
}

/// The bytes of `count` TLPs, one after another.
pub fn buffer(alloc: Global, count: u32) -> Result<Vec<u8>, AllocError> {
    let mut buffer = Vec::new(alloc);
    let mut state = 1;
    for i in 0..count {
        let (first, size) = MIX[choice(i)];
        buffer.extend_from_slice(first)?;
        for _ in first.len()..size {
            state = next(state);
            buffer.push((state >> 24) as u8)?;
        }
    }
    Ok(buffer)
}

/// The TLPs of the buffer.
pub fn tlps(alloc: Global, count: u32, buffer: &[u8]) -> Result<Vec<&[u8]>, AllocError> {
    let mut tlps = Vec::new(alloc);
    let mut rest = buffer;
    for i in 0..count {
        let (_, size) = MIX[choice(i)];
        if size > rest.len() {
            break;
        }
        tlps.push(&rest[..size])?;
        rest = &rest[size..];
    }
    Ok(tlps)
}
