//! How far the judging of a capture has come.
ghost use Rattle.std.specs.Prelude.{◌≡◌, ◌+◌, ◌*◌, ◌<◌, ◌≤◌, ◌^◌, if◌then◌else◌};

use pl_base::{MOST_VERDICTS, Stop};
use pl_capture::Reader;

/// The reader, and the counts of the items that were judged, of those that were listed, and of the
/// verdicts.
#[derive(Drop)]
pub(crate) struct Judging {
    pub(crate) reader: Reader,
    pub(crate) items: u64,
    pub(crate) listed: u64,
    pub(crate) verdicts: u64,
}

impl Judging {
    ghost use Rattle.pl_cli.specs.Progress.{nothing_judged};

    /// Nothing was read yet.
    pub(crate) fn new() -> Judging
        ensures { result ≡ nothing_judged }
    {
        Judging {
            reader: Reader::new(),
            items: 0,
            listed: 0,
            verdicts: 0,
        }
    }

    /// Counts an item, which was listed or not, and its verdicts.
    pub(crate) fn count(&mut self, listed: bool, verdicts: usize)
        requires few { self.old.items < 2 ^ 58 }
        requires listed { self.old.listed ≤ self.old.items }
        requires verdicts { verdicts ≤ MOST_VERDICTS }
        requires few_each { self.old.verdicts ≤ self.old.items * MOST_VERDICTS }
        ensures { self.new ≡ record self.old {
          items = self.old.items + 1;
          listed = self.old.listed + (if listed then 1 else 0);
          verdicts = self.old.verdicts + verdicts;
        } }
    {
        self.verdicts += verdicts as u64;
        self.listed += u64::from(listed);
        self.items += 1;
    }
}

/// Why no more of a capture is read.
#[derive(Clone, Copy)]
pub(crate) enum Ended {
    /// It was read to its end.
    Whole,
    /// A read failed, or the capture couldn't be opened.
    Fault,
    /// As many bytes were read as are judged at most, and there are more.
    TooLong,
    /// The reader refused a record, or the engine an item.
    Refused(Stop),
}
