//! One of the two files, from its opening on.
ghost use Rattle.std.specs.Prelude.{◌≡◌, ◌≢◌, ◌+◌, ◌^◌, ◌<◌, ◌≤◌, ◌⊎◌, nat_lt, List, ℕ, [], length};
ghost use Rattle.std.specs.Prelude.{drop, true, false, Option, None, Ok, IfSome, OnOk};
ghost use Rattle.std.specs.Option.{option_map};
ghost use Rattle.pl_io.specs.Told.{AtEnd};
ghost use Rattle.pl_capture.specs.Entry.{Entry, IsLawful, option_view, view};
ghost use Rattle.pl_capture.specs.Standing.{Answers, Becomes, Holding, Rises, StandsFor, Uses, lent};
ghost use Rattle.pl_merge.specs.declared.side.Fed.TheVariants as fed;
ghost use Rattle.pl_merge.specs.Lawful.{limit};
ghost use Rattle.pl_merge.specs.Lawful as spec;
ghost use Rattle.pl_merge.specs.Sides.{Comes, Feeds, FeedsHeader, HeaderComes, IsBegun, IsOn};
ghost use Rattle.pl_merge.specs.Sides.{IsWhole, NoReadFault, NoWriteFault, Opens, Reached};
ghost use Rattle.pl_merge.specs.Sides.{Refills, Steady, Unjudged, fresh, time_or_none};

use crate::end::{End, Halt, end_by};
use pl_base::Dir;
use pl_capture::{Item, ItemKind, Reader, Step};
use pl_io::Shelf;
use std::marker::Model;

/// The bytes that are read at once.
const PIECE: usize = 4096;

/// The bytes of a file that are read at most.
const LIMIT: usize = 1 << 40;

/// The bytes of a header.
const HEADER: usize = 16;

/// A file whose packets travel in one direction, and how far it was read. It takes no memory of an
/// allocator.
#[derive(Drop)]
pub(crate) struct Side {
    dir: Dir,
    reader: Reader,
    /// From `place` to `filled` stand the bytes that were read and the reader didn't take yet.
    buffer: [u8; PIECE],
    place: usize,
    filled: usize,
    /// How many bytes the reader took.
    used: usize,
    /// The time of the latest item, in picoseconds.
    latest: u64,
}

impl Model for Side {
    ghost use Rattle.std.specs.Prelude.{◌+◌, ◌-◌, ◌≤◌, take, drop, length};
    ghost use Rattle.pl_merge.specs.Lawful.{limit};
    ghost use Rattle.pl_merge.specs.Sides.{Sight};

    ghost Value = { Sight };

    ghost view = { λ side. record {
      dir = side.dir;
      reader = side.reader;
      left = drop side.place (take side.filled side.buffer);
      used = side.used;
      latest = side.latest;
    } };

    ghost invariant = { λ side. (side.place ≤ side.filled)
        × (side.filled ≤ length side.buffer) × (side.reader.place ≤ side.used) × (side.used + (side.filled - side.place) ≤ limit) };
}

/// What the bytes that are left come to.
pub(crate) enum Fed {
    /// Less than a record, or the end record.
    Nothing,
    /// An item, which the side lends.
    Item,
    /// The end of what is lawful.
    Stops(End),
}

impl Side {
    /// A file of packets that travel in this direction, which isn't open yet.
    pub(crate) fn new(dir: Dir) -> Side
        ensures { result ≡ fresh dir }
    {
        Side {
            dir,
            reader: Reader::new(),
            buffer: [0; PIECE],
            place: 0,
            filled: 0,
            used: 0,
            latest: 0,
        }
    }

    /// Opens the file of this name and takes its header. Err where that is refused, or couldn't be
    /// read.
    pub(crate) fn open<H: Shelf>(&mut self, name: &str, shelf: &mut H) -> Result<(), Halt>
        requires fresh { self.old ≡ fresh self.old.dir }
        ensures opens { Opens H.Shelf result name.now self.new shelf.old shelf.new }
        ensures reads { NoWriteFault result }
        ensures dir { self.new.dir ≡ self.old.dir }
        ensures begun { OnOk result (IsBegun self.new) }
    {
        match shelf.open(name) {
            Ok(()) => self.take_header(shelf),
            Err(_) => Err(Halt::ReadFault),
        }
    }

    /// Takes the header of the file that was just opened.
    fn take_header<H: Shelf>(&mut self, shelf: &mut H) -> Result<(), Halt>
        requires opened { H.is_open shelf.old ≡ true }
        requires fresh { self.old ≡ fresh self.old.dir }
        ensures header { HeaderComes result self.new (H.rest shelf.new) (H.rest shelf.old) }
        ensures dir { self.new.dir ≡ self.old.dir }
        ensures begun { OnOk result (IsBegun self.new) }
        ensures shelf { Steady H.Shelf result shelf.old shelf.new }
        ensures reads { NoWriteFault result }
    {
        while self.used < HEADER {
            match self.fill(shelf) {
                Ok(true) => match self.feed_header() {
                    None => {}
                    Some(end) => return Err(Halt::Stops(end)),
                },
                Ok(false) => return Err(Halt::Stops(End::Malformed)),
                Err(halt) => return Err(halt),
            }
        }
        Ok(())
    }

    /// Gives the reader what is left, up to the end of the header. Some where that is refused.
    fn feed_header(&mut self) -> Option<End>
        requires some { 0 < length self.old.left }
        requires within { self.old.used < 16 }
        requires reached { (rest file : Option (List ℕ)) × Reached self.old rest file [] }
        ensures feeds { (rest file : Option (List ℕ)) → Reached self.old rest file [] →
            FeedsHeader result self.new rest file }
        ensures dir { self.new.dir ≡ self.old.dir }
        ensures on { self.old.used < self.new.used }
        ensures within { self.new.used ≤ 16 }
        ensures taken { self.new.used + length self.new.left
            ≡ self.old.used + length self.old.left }
    {
        let most = (HEADER - self.used).min(self.filled - self.place);
        let step = give(
            &mut self.reader,
            &self.buffer[..self.place + most],
            self.place,
        );
        self.used += most;
        self.place += most;
        let stop = match step {
            Step::More => return None,
            Step::Bad(stop) => stop,
            Step::Item { .. } | Step::End { .. } => unreachable!(),
        };
        Some(end_by(stop))
    }

    /// Reads on to the next item, which the side then lends. Where none is lent behind it, the file
    /// is lawful to its end; Err where it is lawful no further, or couldn't be read, when all that
    /// was read is taken.
    pub(crate) fn next<H: Shelf>(&mut self, shelf: &mut H) -> Result<(), Halt>
        requires opened { H.is_open shelf.old ≡ true }
        requires bound { self.old.used + length self.old.left ≤ limit }
        ensures comes { (file : Option (List ℕ)) (items : List Entry) →
            Reached self.old (H.rest shelf.old) file items →
            Comes result self.new (H.rest shelf.new) file items }
        ensures dir { self.new.dir ≡ self.old.dir }
        ensures on { OnOk result ((self.old.used < self.new.used)
            ⊎ ((self.old.used ≤ self.new.used) × (lent self.new.reader.phase ≡ None))) }
        ensures bound { self.new.used + length self.new.left ≤ limit }
        ensures shelf { Steady H.Shelf result shelf.old shelf.new }
        ensures reads { NoWriteFault result }
    {
        'pieces: loop {
            match self.fill(shelf) {
                Ok(true) => match self.feed() {
                    Fed::Nothing => {}
                    Fed::Item => return Ok(()),
                    Fed::Stops(end) => return Err(Halt::Stops(end)),
                },
                Ok(false) => return Ok(()),
                Err(halt) => return Err(halt),
            }
        }
    }

    /// Whether bytes are left that the reader didn't take yet.
    fn has_left(&self) -> bool
        ensures { result ≡ nat_lt 0 (length self.now.left) }
    {
        self.place < self.filled
    }

    /// Reads the next piece where nothing is left, and answers whether bytes are left then. Where
    /// none are, the file is lawful to its end.
    fn fill<H: Shelf>(&mut self, shelf: &mut H) -> Result<bool, Halt>
        requires opened { H.is_open shelf.old ≡ true }
        requires bound { self.old.used + length self.old.left ≤ limit }
        ensures refills { (file : Option (List ℕ)) (items : List Entry) →
            Reached self.old (H.rest shelf.old) file items →
            Refills result self.new (H.rest shelf.new) file items }
        ensures dir { self.new.dir ≡ self.old.dir }
        ensures used { self.new.used ≡ self.old.used }
        ensures bound { self.new.used + length self.new.left ≤ limit }
        ensures some { result ≡ Ok true → 0 < length self.new.left }
        ensures over { result ≡ Ok false → lent self.new.reader.phase ≡ None }
        ensures whole { NoReadFault result → result ≢ Ok true → self.old.used < limit →
            IsWhole self.old (H.rest shelf.old) }
        ensures shelf { Steady H.Shelf result shelf.old shelf.new }
        ensures reads { NoWriteFault result }
    {
        if self.has_left() {
            return Ok(true);
        }
        self.refill(shelf)
    }

    /// Gives the reader what is left, up to the end of a record.
    fn feed(&mut self) -> Fed
        requires some { 0 < length self.old.left }
        ensures feeds { (rest file : Option (List ℕ)) (items : List Entry) →
            Reached self.old rest file items → Feeds result self.new rest file items }
        ensures dir { self.new.dir ≡ self.old.dir }
        ensures taken { self.new.used + length self.new.left
            ≡ self.old.used + length self.old.left }
        ensures on { IsOn result self.old.used self.new.used }
    {
        match give(&mut self.reader, &self.buffer[..self.filled], self.place) {
            Step::More => {
                self.used += self.filled - self.place;
                self.place = self.filled;
                Fed::Nothing
            }
            Step::End { used } => {
                self.used += used;
                self.place += used;
                Fed::Nothing
            }
            Step::Bad(stop) => {
                self.used += self.filled - self.place;
                self.place = self.filled;
                Fed::Stops(end_by(stop))
            }
            Step::Item { used } => {
                self.used += used;
                self.place += used;
                self.judge()
            }
        }
    }

    /// Whether the item that the reader lends is lawful.
    fn judge(&mut self) -> Fed
        requires holds { (x : Entry) × (self.old.reader.phase ≡ Holding x) }
        ensures judged { (rest file : Option (List ℕ)) (items : List Entry) (x : Entry) →
            self.old.reader.phase ≡ Holding x → Unjudged self.old rest file items x →
            Feeds result self.new rest file items }
        ensures same { self.new ≡ record {
          dir = self.old.dir;
          reader = self.old.reader;
          left = self.old.left;
          used = self.old.used;
          latest = self.new.latest;
        } }
        ensures item { result ≢ fed.Nothing }
    {
        let (strays, time) = match self.reader.item() {
            Some(item) => (strays(self.dir, &item), item.time),
            None => unreachable!(),
        };
        if strays {
            return Fed::Stops(End::WrongDirection);
        }
        if time < self.latest {
            return Fed::Stops(End::FallenTime);
        }
        self.latest = time;
        Fed::Item
    }

    /// Reads the next piece, where nothing is left: whether there is one. Where there is none, the
    /// file is lawful to its end.
    fn refill<H: Shelf>(&mut self, shelf: &mut H) -> Result<bool, Halt>
        requires opened { H.is_open shelf.old ≡ true }
        requires none { self.old.left ≡ [] }
        ensures refills { (file : Option (List ℕ)) (items : List Entry) →
            Reached self.old (H.rest shelf.old) file items →
            Refills result self.new (H.rest shelf.new) file items }
        ensures dir { self.new.dir ≡ self.old.dir }
        ensures used { self.new.used ≡ self.old.used }
        ensures bound { self.new.used + length self.new.left ≤ limit }
        ensures some { result ≡ Ok true → 0 < length self.new.left }
        ensures over { result ≡ Ok false → lent self.new.reader.phase ≡ None }
        ensures whole { NoReadFault result → result ≢ Ok true → self.old.used < limit →
            IsWhole self.old (H.rest shelf.old) }
        ensures shelf { Steady H.Shelf result shelf.old shelf.new }
        ensures reads { NoWriteFault result }
    {
        let most = (LIMIT - self.used).min(PIECE);
        if most == 0 {
            return self.look_behind(shelf);
        }
        match shelf.read(&mut self.buffer[..most]) {
            Ok(0) => self.finish(),
            Ok(count) => {
                self.place = 0;
                self.filled = count;
                Ok(true)
            }
            Err(_) => Err(Halt::ReadFault),
        }
    }

    /// Whether a byte stands behind the most bytes that are read. The file is lawful to its end
    /// where there is none.
    fn look_behind<H: Shelf>(&mut self, shelf: &mut H) -> Result<bool, Halt>
        requires opened { H.is_open shelf.old ≡ true }
        requires none { self.old.left ≡ [] }
        requires full { self.old.used ≡ limit }
        ensures refills { (file : Option (List ℕ)) (items : List Entry) →
            Reached self.old (H.rest shelf.old) file items →
            Refills result self.new (H.rest shelf.new) file items }
        ensures dir { self.new.dir ≡ self.old.dir }
        ensures used { self.new.used ≡ self.old.used }
        ensures left { self.new.left ≡ [] }
        ensures none { result ≢ Ok true }
        ensures over { result ≡ Ok false → lent self.new.reader.phase ≡ None }
        ensures shelf { Steady H.Shelf result shelf.old shelf.new }
        ensures reads { NoWriteFault result }
    {
        let mut byte = [0];
        match shelf.read(&mut byte) {
            Ok(0) => self.finish(),
            Ok(_) => Err(Halt::Stops(End::TooLong)),
            Err(_) => Err(Halt::ReadFault),
        }
    }

    /// The item that is lent, if one is.
    pub(crate) fn item(&self) -> Option<Item<'_>>
        ensures item { option_view result ≡ lent self.now.reader.phase }
        ensures lawful { IfSome result (λ x. IsLawful (view x)) }
    {
        self.reader.item()
    }

    /// The time of the item that is lent, in picoseconds, if one is.
    pub(crate) fn time(&self) -> Option<u64>
        ensures { result ≡ option_map (λ x. x.time) (lent self.now.reader.phase) }
    {
        match self.reader.item() {
            Some(item) => Some(item.time),
            None => None,
        }
    }

    /// The version of the header, which was taken.
    pub(crate) fn version(&self) -> u16
        requires begun { IsBegun self.now }
        ensures version { result ≡ self.now.reader.version }
    {
        match self.reader.version() {
            Some(version) => version,
            None => unreachable!(),
        }
    }

    /// The time of the end record in picoseconds, 0 before that was taken.
    pub(crate) fn end_time(&self) -> u64
        ensures { result ≡ time_or_none self.now.reader.end_time }
    {
        match self.reader.end_time() {
            Some(time) => time,
            None => 0,
        }
    }

    /// The file has no more bytes: it is lawful to its end where its end record was taken.
    fn finish(&mut self) -> Result<bool, Halt>
        requires none { self.old.left ≡ [] }
        ensures refills { (rest file : Option (List ℕ)) (items : List Entry) → AtEnd rest →
            Reached self.old rest file items → Refills result self.new rest file items }
        ensures dir { self.new.dir ≡ self.old.dir }
        ensures used { self.new.used ≡ self.old.used }
        ensures left { self.new.left ≡ [] }
        ensures none { result ≢ Ok true }
        ensures over { result ≡ Ok false → lent self.new.reader.phase ≡ None }
        ensures no_fault { NoReadFault result }
        ensures reads { NoWriteFault result }
    {
        let stop = match self.reader.finish() {
            Step::Bad(stop) => stop,
            Step::End { .. } => return Ok(false),
            Step::More | Step::Item { .. } => unreachable!(),
        };
        Err(Halt::Stops(end_by(stop)))
    }
}

/// Gives the reader the bytes from a place on.
fn give(reader: &mut Reader, bytes: &[u8], place: usize) -> Step
    requires inside { place ≤ length bytes.now }
    requires few { reader.old.place < 2 ^ 60 }
    ensures answers { (before : List ℕ) → StandsFor reader.old before →
        Answers before (drop place bytes.now) result reader.new }
    ensures becomes { Becomes result reader.new.phase }
    ensures uses { Uses (length (drop place bytes.now)) result }
    ensures rises { Rises reader.old.place (length (drop place bytes.now)) result reader.new.place }
{
    reader.feed(&bytes[place..])
}

/// Whether it is a packet that travels in another direction than this.
fn strays(dir: Dir, item: &Item<'_>) -> bool
    ensures { result ≡ spec.strays dir (view item.now) }
{
    match item.kind {
        ItemKind::Tlp | ItemKind::Dllp => item.dir.index() != dir.index(),
        ItemKind::LinkDown | ItemKind::Gap => false,
    }
}
