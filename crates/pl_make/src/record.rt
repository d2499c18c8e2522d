//! One record of the capture, which is made whole and then read in parts.
ghost use Rattle.std.specs.Prelude.{◌≡◌, ◌≤◌, ◌++◌, length, take, min};
ghost use Rattle.std.specs.Prelude.{nat_eq};

use pl_capture::{Item, write_end, write_header, write_item};

/// The bytes of the longest record: a head of 12 bytes and a TLP of 82.
const LONGEST: usize = 94;

/// A record, and how many of its bytes were read.
#[derive(Clone, Copy, Debug)]
pub(crate) struct Record {
    pub bytes: [u8; LONGEST],
    pub size: usize,
    pub given: usize,
    ghost begun: { given ≤ size },
    ghost inside: { size ≤ 94 },
}

impl Record {
    ghost use Rattle.pl_capture.specs.Entry.{view, IsLawful};
    ghost use Rattle.pl_capture.specs.Record.{header_of, record_of, end_of};
    ghost use Rattle.pl_make.specs.Left.{unread};

    /// The capture's header, 16 bytes.
    pub fn header() -> Record
        ensures { unread result ≡ header_of 1 0 }
    {
        let mut bytes = [0; LONGEST];
        let size = match write_header(0, &mut bytes) {
            Some(size) => size,
            None => unreachable!(),
        };
        Record {
            bytes,
            size,
            given: 0,
        }
    }

    /// Makes the record of an item.
    pub fn put_item(&mut self, item: &Item)
        requires lawful { IsLawful (view item.now) }
        requires room { length item.now.body.now ≤ 82 }
        ensures { unread self.new ≡ record_of (view item.now) }
    {
        let size = match write_item(item, &mut self.bytes) {
            Some(size) => size,
            None => unreachable!(),
        };
        self.begin(size);
    }

    /// Makes the end record behind `count` items. Its time is 0.
    pub fn put_end(&mut self, count: u64)
        ensures { unread self.new ≡ end_of count 0 }
    {
        let size = match write_end(count, 0, &mut self.bytes) {
            Some(size) => size,
            None => unreachable!(),
        };
        self.begin(size);
    }

    /// The first `size` bytes are the record, of which nothing was read.
    fn begin(&mut self, size: usize)
        requires { size ≤ 94 }
        ensures { unread self.new ≡ take size self.old.bytes }
    {
        self.given = 0;
        self.size = size;
    }

    /// Whether all of it was read.
    pub fn is_read(&self) -> bool
        ensures { result ≡ nat_eq (length (unread self.now)) 0 }
    {
        self.given == self.size
    }

    /// Reads the next bytes into the front of `buf`, as many as are there and as it takes, and says
    /// how many.
    pub fn read(&mut self, buf: &mut [u8]) -> usize
        ensures count { result ≡ min (length (unread self.old)) (length buf.old) }
        ensures bytes { unread self.old ≡ take result buf.new ++ unread self.new }
    {
        let count = copy_front(self.left(), buf);
        self.given += count;
        count
    }

    /// The bytes that weren't read yet.
    fn left(&self) -> &[u8]
        ensures { result.now ≡ unread self.now }
    {
        &self.bytes[self.given..self.size]
    }
}

/// Copies the front of `bytes` into the front of `buf`, as much as it takes, and says how many
/// bytes.
fn copy_front(bytes: &[u8], buf: &mut [u8]) -> usize
    ensures count { result ≡ min (length bytes.now) (length buf.old) }
    ensures bytes { take result buf.new ≡ take result bytes.now }
{
    let count = bytes.len().min(buf.len());
    buf[..count].copy_from_slice(&bytes[..count]);
    count
}
