//! The items of a capture, one after another.
ghost use Rattle.std.specs.Prelude.{◌≡◌, ◌+◌, ◌-◌, ◌^◌, ◌<◌, ◌≤◌, nat_lt, List, ℕ, [], length};
ghost use Rattle.std.specs.Prelude.{drop, true, false, Option, Some, IfSome, OnOk};
ghost use Rattle.pl_io.specs.Told.{AtEnd};
ghost use Rattle.pl_capture.specs.Entry.{Entry, IsLawful, option_view, view};
ghost use Rattle.pl_capture.specs.Standing.{Answers, Becomes, Holding, Rises, StandsFor, Uses, lent};
ghost use Rattle.pl_excerpt.specs.Answer.{limit};
ghost use Rattle.pl_excerpt.specs.Sources.{Comes, Feeds, Halts, Reached, Refills};
ghost use Rattle.pl_excerpt.specs.Sources.{Steady, ended_in, fresh, is_fault};

use pl_base::Stop;
use pl_capture::{Item, Reader, Step};
use pl_io::Shelf;
use std::marker::Model;

/// The bytes that are read at once.
const PIECE: usize = 4096;

/// The bytes of a capture that are read at most.
const LIMIT: usize = 1 << 40;

/// Why a capture has no further item.
#[derive(Clone, Copy)]
pub(crate) enum Ended {
    /// It was read to its end.
    Whole,
    /// The reader refused it.
    Refused(Stop),
    /// As many bytes were read as are judged at most, and there are more.
    TooLong,
    /// A read failed.
    Fault,
}

/// What the bytes that are left come to.
#[derive(Clone, Copy)]
pub(crate) enum Fed {
    /// Less than a record, or the end record.
    Nothing,
    /// An item, which the source lends.
    Item,
    /// The reader refuses them.
    Bad(Stop),
}

/// A capture that is read from its opening on. It takes no memory of an allocator.
#[derive(Drop)]
pub(crate) struct Source {
    reader: Reader,
    /// From `place` to `filled` stand the bytes that were read and the reader didn't take yet.
    buffer: [u8; PIECE],
    place: usize,
    filled: usize,
    /// How many bytes the reader took.
    used: usize,
}

impl Model for Source {
    ghost use Rattle.std.specs.Prelude.{◌+◌, ◌-◌, ◌≤◌, take, drop, length};
    ghost use Rattle.pl_excerpt.specs.Answer.{limit};
    ghost use Rattle.pl_excerpt.specs.Sources.{Sight};

    ghost Value = { Sight };

    ghost view = { λ source. record {
      reader = source.reader;
      left = drop source.place (take source.filled source.buffer);
      used = source.used;
    } };

    ghost invariant = { λ source. (source.place ≤ source.filled)
        × (source.filled ≤ length source.buffer) × (source.reader.place ≤ source.used)
        × (source.used + (source.filled - source.place) ≤ limit) };
}

impl Source {
    /// A capture of which nothing was read.
    pub(crate) fn new() -> Source
        ensures fresh { result ≡ fresh }
        ensures stands { StandsFor result.reader [] }
    {
        Source {
            reader: Reader::new(),
            buffer: [0; PIECE],
            place: 0,
            filled: 0,
            used: 0,
        }
    }

    /// Reads on to the next item of the open file, which is then lent.
    pub(crate) fn next<H: Shelf>(&mut self, shelf: &mut H) -> Result<(), Ended>
        requires opened { H.is_open shelf.old ≡ true }
        requires bound { self.old.used + length self.old.left ≤ limit }
        ensures comes { (file : Option (List ℕ)) (items : List Entry) →
            Reached self.old (H.rest shelf.old) file items →
            Comes result self.new (H.rest shelf.new) file items }
        ensures on { OnOk result (self.old.used < self.new.used) }
        ensures holds { OnOk result ((x : Entry) × (self.new.reader.phase ≡ Holding x)) }
        ensures bound { self.new.used + length self.new.left ≤ limit }
        ensures shelf { Steady H.Shelf (ended_in result) shelf.old shelf.new }
    {
        'pieces: loop {
            match self.fill(shelf) {
                Ok(()) => match self.feed() {
                    Fed::Nothing => {}
                    Fed::Item => return Ok(()),
                    Fed::Bad(stop) => return Err(Ended::Refused(stop)),
                },
                Err(ended) => return Err(ended),
            }
        }
    }

    /// The item that is lent, if one is.
    pub(crate) fn item(&self) -> Option<Item<'_>>
        ensures item { option_view result ≡ lent self.now.reader.phase }
        ensures lawful { IfSome result (λ x. IsLawful (view x)) }
    {
        self.reader.item()
    }

    /// Whether bytes are left that the reader didn't take yet.
    fn has_left(&self) -> bool
        ensures { result ≡ nat_lt 0 (length self.now.left) }
    {
        self.place < self.filled
    }

    /// Reads the next piece where nothing is left. Err where no more is read.
    fn fill<H: Shelf>(&mut self, shelf: &mut H) -> Result<(), Ended>
        requires opened { H.is_open shelf.old ≡ true }
        requires bound { self.old.used + length self.old.left ≤ limit }
        ensures refills { (file : Option (List ℕ)) (items : List Entry) →
            Reached self.old (H.rest shelf.old) file items →
            Refills result self.new (H.rest shelf.new) file items }
        ensures used { self.new.used ≡ self.old.used }
        ensures bound { self.new.used + length self.new.left ≤ limit }
        ensures some { OnOk result (0 < length self.new.left) }
        ensures shelf { Steady H.Shelf (ended_in result) shelf.old shelf.new }
    {
        if self.has_left() {
            return Ok(());
        }
        self.refill(shelf)
    }

    /// Gives the reader what is left, up to the end of a record.
    fn feed(&mut self) -> Fed
        requires some { 0 < length self.old.left }
        ensures feeds { (rest file : Option (List ℕ)) (items : List Entry) →
            Reached self.old rest file items → Feeds result self.new rest file items }
        ensures taken { self.new.used + length self.new.left
            ≡ self.old.used + length self.old.left }
        ensures on { self.old.used < self.new.used }
        ensures holds { result ≡ Fed.Item → (x : Entry) × (self.new.reader.phase ≡ Holding x) }
    {
        match give(&mut self.reader, &self.buffer[..self.filled], self.place) {
            Step::More => {
                self.used += self.filled - self.place;
                self.place = self.filled;
                Fed::Nothing
            }
            Step::End { used } => {
                self.used += used;
                self.place += used;
                Fed::Nothing
            }
            Step::Item { used } => {
                self.used += used;
                self.place += used;
                Fed::Item
            }
            Step::Bad(stop) => {
                self.used += self.filled - self.place;
                self.place = self.filled;
                Fed::Bad(stop)
            }
        }
    }

    /// Reads the next piece, where nothing is left. Err where there is none.
    fn refill<H: Shelf>(&mut self, shelf: &mut H) -> Result<(), Ended>
        requires opened { H.is_open shelf.old ≡ true }
        requires none { self.old.left ≡ [] }
        ensures refills { (file : Option (List ℕ)) (items : List Entry) →
            Reached self.old (H.rest shelf.old) file items →
            Refills result self.new (H.rest shelf.new) file items }
        ensures used { self.new.used ≡ self.old.used }
        ensures bound { self.new.used + length self.new.left ≤ limit }
        ensures some { OnOk result (0 < length self.new.left) }
        ensures shelf { Steady H.Shelf (ended_in result) shelf.old shelf.new }
    {
        let most = (LIMIT - self.used).min(PIECE);
        if most == 0 {
            return Err(self.look_behind(shelf));
        }
        match shelf.read(&mut self.buffer[..most]) {
            Ok(0) => Err(self.finish()),
            Ok(count) => {
                self.place = 0;
                self.filled = count;
                Ok(())
            }
            Err(_) => Err(Ended::Fault),
        }
    }

    /// Whether a byte stands behind the most bytes that are read, or how the capture ends.
    fn look_behind<H: Shelf>(&mut self, shelf: &mut H) -> Ended
        requires opened { H.is_open shelf.old ≡ true }
        requires none { self.old.left ≡ [] }
        requires full { self.old.used ≡ limit }
        ensures halts { (file : Option (List ℕ)) (items : List Entry) →
            Reached self.old (H.rest shelf.old) file items →
            Halts result self.new (H.rest shelf.new) file items }
        ensures used { self.new.used ≡ self.old.used }
        ensures left { self.new.left ≡ [] }
        ensures shelf { Steady H.Shelf (Some result) shelf.old shelf.new }
    {
        let mut byte = [0];
        match shelf.read(&mut byte) {
            Ok(0) => self.finish(),
            Ok(_) => Ended::TooLong,
            Err(_) => Ended::Fault,
        }
    }

    /// How the capture ends, which has no more bytes.
    fn finish(&mut self) -> Ended
        requires none { self.old.left ≡ [] }
        ensures halts { (rest file : Option (List ℕ)) (items : List Entry) → AtEnd rest →
            Reached self.old rest file items → Halts result self.new rest file items }
        ensures used { self.new.used ≡ self.old.used }
        ensures left { self.new.left ≡ [] }
        ensures no_fault { is_fault result ≡ false }
    {
        let stop = match self.reader.finish() {
            Step::Bad(stop) => stop,
            Step::End { .. } => return Ended::Whole,
            Step::More | Step::Item { .. } => unreachable!(),
        };
        Ended::Refused(stop)
    }
}

/// Gives the reader the bytes from a place on.
fn give(reader: &mut Reader, bytes: &[u8], place: usize) -> Step
    requires inside { place ≤ length bytes.now }
    requires few { reader.old.place < 2 ^ 60 }
    ensures answers { (before : List ℕ) → StandsFor reader.old before →
        Answers before (drop place bytes.now) result reader.new }
    ensures becomes { Becomes result reader.new.phase }
    ensures uses { Uses (length (drop place bytes.now)) result }
    ensures rises { Rises reader.old.place (length (drop place bytes.now)) result reader.new.place }
{
    reader.feed(&bytes[place..])
}
