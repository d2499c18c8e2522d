//! What is computed: which CRC, over which pieces, how often.
use pl_crc::{crc16, crc32};
use std::alloc::{AllocError, Global};

#[derive(Clone, Copy)]
pub enum Kind {
    Crc32,
    Crc16,
}

#[derive(Clone, Copy)]
pub struct Work {
    kind: Kind,
    bytes: usize,
    least: usize,
    most: usize,
    rounds: u32,
    pub is_timed: bool,
}

impl Work {
    /// The work that the words name, or none where they name no work.
    pub fn from_words(words: &[String]) -> Option<Work> {
        let kind = match words.first()?.as_str() {
            "crc32" => Kind::Crc32,
            "crc16" => Kind::Crc16,
            _ => return None,
        };
        Some(Work {
            kind,
            bytes: words.get(1)?.parse().ok()?,
            least: words.get(2)?.parse().ok()?,
            most: words.get(3)?.parse().ok()?,
            rounds: words.get(4)?.parse().ok()?,
            is_timed: words.get(5).is_some(),
        })
    }

    /// Bytes that look random, the same in each run.
    pub fn buffer(&self, alloc: Global) -> Result<Vec<u8>, AllocError> {
        let mut buffer = Vec::with_capacity(alloc, self.bytes)?;
        let mut state: u32 = 1;
        for _ in 0..self.bytes {
            state = state.wrapping_mul(1_664_525).wrapping_add(1_013_904_223);
            buffer.push((state >> 24) as u8)?;
        }
        Ok(buffer)
    }

    /// The pieces of `buffer` one after another, whose lengths go through `least` to `most` in
    /// steps of 37.
    pub fn pieces<'a>(&self, alloc: Global, buffer: &'a [u8]) -> Result<Vec<&'a [u8]>, AllocError> {
        let lengths = self.most.saturating_sub(self.least).saturating_add(1);
        let mut pieces = Vec::new(alloc);
        let mut rest = buffer;
        let mut more: usize = 0;
        for _ in 0..buffer.len() {
            let length = self.least.saturating_add(more);
            if length > rest.len() {
                break;
            }
            pieces.push(&rest[..length])?;
            rest = &rest[length..];
            more = more.wrapping_add(37) % lengths;
        }
        Ok(pieces)
    }

    /// All CRCs of all rounds folded into one number.
    pub fn total(&self, pieces: &[&[u8]]) -> u32 {
        let mut total: u32 = 0;
        for _ in 0..self.rounds {
            for piece in pieces {
                total = total.wrapping_mul(31).wrapping_add(self.kind.crc(piece));
            }
        }
        total
    }
}

impl Kind {
    fn crc(self, piece: &[u8]) -> u32 {
        match self {
            Kind::Crc32 => u32::from_le_bytes(crc32(piece)),
            Kind::Crc16 => u32::from(u16::from_le_bytes(crc16(piece))),
        }
    }
}
