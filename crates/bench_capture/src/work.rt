//! Which capture is read, and how often.
use pl_base::Dir;
use pl_capture::{Item, ItemKind, Reader, Step, write_end, write_header, write_item};
use std::alloc::{AllocError, Global};

const PIECE: usize = 4096;

const LONGEST: usize = 4172;

#[derive(Clone, Copy)]
pub struct Work {
    record: usize,
    bytes: usize,
    rounds: u32,
    pub is_timed: bool,
}

impl Work {
    /// The work that the words name, or none where they name no work.
    pub fn from_words(words: &[String]) -> Option<Work> {
        let record = words.first()?.parse().ok()?;
        if record < 18 || record > LONGEST {
            return None;
        }
        Some(Work {
            record,
            bytes: words.get(1)?.parse().ok()?,
            rounds: words.get(2)?.parse().ok()?,
            is_timed: words.get(3).is_some(),
        })
    }

    /// A capture of TLPs Up, a picosecond apart.
    pub fn capture(&self, alloc: Global) -> Result<Vec<u8>, AllocError> {
        let mut capture = Vec::with_capacity(alloc, self.bytes)?;
        let mut out = [0; LONGEST];
        let body = [7; LONGEST];
        let body = &body[..self.record.saturating_sub(12).min(LONGEST)];
        let items = self.bytes.checked_div(self.record).unwrap_or(0) as u64;
        let header = write_header(0, &mut out);
        append(&mut capture, &out, header)?;
        for time in 0..items {
            let size = write_tlp(time, body, &mut out);
            append(&mut capture, &out, size)?;
        }
        let end = write_end(items, items, &mut out);
        append(&mut capture, &out, end)?;
        Ok(capture)
    }

    /// How many items all rounds read, and the sum of the last bytes of their bodies.
    pub fn read(&self, capture: &[u8]) -> (u64, u64) {
        let mut items = 0u64;
        let mut sum = 0u64;
        for _ in 0..self.rounds {
            let (more, last) = read_once(capture);
            items = items.wrapping_add(more);
            sum = sum.wrapping_add(last);
        }
        (items, sum)
    }
}

fn append(capture: &mut Vec<u8>, out: &[u8], size: Option<usize>) -> Result<(), AllocError> {
    if let Some(part) = size.and_then(|size| out.get(..size)) {
        capture.extend_from_slice(part)?;
    }
    Ok(())
}

/// Writes the record of a TLP with this body, unless no TLP has it.
fn write_tlp(time: u64, body: &[u8], out: &mut [u8]) -> Option<usize> {
    if body.len() < 6 || body.len() > 4160 {
        return None;
    }
    let item = Item {
        kind: ItemKind::Tlp,
        dir: Dir::Up,
        bad_end: false,
        time,
        body,
    };
    write_item(&item, out)
}

fn read_once(capture: &[u8]) -> (u64, u64) {
    let mut reader = Reader::new();
    let mut items = 0u64;
    let mut sum = 0u64;
    for piece in capture.chunks(PIECE) {
        let mut rest = piece;
        'records: while reader.place() < 1 << 60 {
            let Step::Item { used } = reader.feed(rest) else {
                break 'records;
            };
            rest = &rest[used..];
            items = items.wrapping_add(1);
            if let Some(item) = reader.item() {
                sum = sum.wrapping_add(item.body.last().map_or(0, |byte| u64::from(*byte)));
            }
        }
    }
    (items, sum)
}
