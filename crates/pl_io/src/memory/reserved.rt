//! Bytes in memory that were reserved from the beginning.
ghost use Rattle.std.specs.Prelude.{◌≡◌, ◌+◌, ◌-◌, ◌≤◌, [], ◌++◌, min, length, take, IfOk};
ghost use Rattle.std.specs.Prelude.{vec_len, vec_capacity};

use std::alloc::{AllocError, Global};

/// Bytes up to a room that is reserved from the beginning, so that no later call takes memory.
#[derive(Debug, Drop)]
pub struct Reserved {
    pub bytes: Vec<u8>,
    /// For how many more bytes there is room.
    pub left: usize,
    ghost reserved: { vec_len bytes + left ≤ vec_capacity bytes },
}

impl Reserved {
    /// No bytes, and room for `room` of them.
    pub fn new(alloc: Global, room: usize) -> Result<Reserved, AllocError>
        ensures nothing { IfOk result (λ reserved. reserved.bytes.items ≡ []) }
        ensures room { IfOk result (λ reserved. reserved.left ≡ room) }
    {
        Ok(Reserved {
            bytes: Vec::with_capacity(alloc, room)?,
            left: room,
        })
    }

    /// Appends the front of `piece`, as many bytes as `most`, the piece and the room allow, and
    /// answers how many.
    pub fn append(&mut self, piece: &[u8], most: usize) -> usize
        ensures count { result ≡ min (min most (length piece.now)) self.old.left }
        ensures bytes { self.new.bytes.items ≡ self.old.bytes.items ++ take result piece.now }
        ensures left { self.new.left ≡ self.old.left - result }
    {
        let count = most.min(piece.len()).min(self.left);
        match self.bytes.extend_from_slice(&piece[..count]) {
            Ok(()) => {
                self.left -= count;
                count
            }
            Err(_) => unreachable!(),
        }
    }
}
