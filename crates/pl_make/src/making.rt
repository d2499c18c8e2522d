//! A capture that is made while it is read, one record after the other.
ghost use Rattle.std.specs.Prelude.{◌≡◌, ◌<◌, ◌≤◌, ◌++◌, [], length, take};

use crate::position::Position;
use crate::record::Record;

/// What is made next.
#[derive(Clone, Copy, Debug)]
pub(crate) enum Next {
    Item(Position),
    /// The end record.
    End,
    Nothing,
}

/// A capture of which a part was read: the record at hand, and what is made next.
#[derive(Clone, Copy, Debug)]
pub(crate) struct Making {
    /// The rounds of the capture.
    pub count: u32,
    pub at_hand: Record,
    pub next: Next,
    ghost some: { 1 ≤ count },
    ghost most: { count ≤ 1000000 },
}

impl Making {
    ghost use Rattle.pl_make.specs.Generated.{Gen};
    ghost use Rattle.pl_make.specs.Left.{left, unread};

    /// The whole capture.
    pub fn new(number: u64, count: u32) -> Making
        requires some { 1 ≤ count }
        requires most { count ≤ 1000000 }
        ensures { left result ≡ Gen number count }
    {
        Making {
            count,
            at_hand: Record::header(),
            next: Next::Item(Position::first(number)),
        }
    }

    /// Reads the next bytes into the front of `buf`, none behind the end of a record, and says how
    /// many: 0 only at the end of the capture.
    pub fn read(&mut self, buf: &mut [u8]) -> usize
        requires { 0 < length buf.old }
        ensures most { result ≤ length buf.new }
        ensures bytes { left self.old ≡ take result buf.new ++ left self.new }
        ensures end { result ≡ 0 → left self.old ≡ [] }
    {
        if self.at_hand.is_read() {
            self.make();
        }
        self.at_hand.read(buf)
    }

    /// Makes the next record, where all of the one at hand was read.
    fn make(&mut self)
        requires { unread self.old.at_hand ≡ [] }
        ensures same { left self.new ≡ left self.old }
        ensures some { unread self.new.at_hand ≡ [] → left self.old ≡ [] }
    {
        match self.next {
            Next::Item(position) => {
                position.put_into(&mut self.at_hand);
                match position.next(self.count) {
                    Some(next) => self.next = Next::Item(next),
                    None => self.next = Next::End,
                }
            }
            Next::End => {
                self.at_hand.put_end(12 + 6 * u64::from(self.count));
                self.next = Next::Nothing;
            }
            Next::Nothing => {}
        }
    }
}
