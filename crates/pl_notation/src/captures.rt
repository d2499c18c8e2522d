//! Captures that many tests begin with.

use crate::Notation;
use pl_base::Dir;
use std::alloc::{AllocError, Global};

/// The header, and an end record that counts no item.
pub const EMPTY: [u8; 36] = [
    0x50, 0x43, 0x49, 0x45, 0x4C, 0x49, 0x4E, 0x4B, 0x00, 0x01, 0x00, 0x00, 0x00, 0x00, 0x00, 0x00,
    0x03, 0x00, 0x00, 0x08, 0, 0, 0, 0, 0, 0, 0, 0, 0, 0, 0, 0, 0, 0, 0, 0,
];

/// A right Ack of number 4095, and the same with one wrong bit of its CRC.
pub fn damaged_ack(alloc: Global) -> Result<Vec<u8>, AllocError> {
    let mut notation = Notation::new(alloc, 0)?;
    notation.dllp_as_captured(Dir::Up, [0x00, 0x00, 0x0F, 0xFF, 0x25, 0xA8])?;
    notation.dllp_as_captured(Dir::Up, [0x00, 0x00, 0x0F, 0xFF, 0x25, 0xA9])?;
    notation.end()
}
