//! The shelf whose every file is a generated capture.
ghost use Rattle.std.specs.Prelude.{◌≡◌, ◌≤◌, ◌<◌, List, ℕ, true, false, Some, None};
ghost use Rattle.std.specs.Prelude.{option_map, is_some};
ghost use Rattle.std.specs.Prelude.{refl};
ghost use Rattle.std.proofs.Common.{arith};

use crate::making::Making;
use crate::name::OpenName;
use pl_io::{Failed, Shelf};

/// A shelf on which the capture of two numbers stands under every name. Its bytes are made while
/// they are read: it keeps no more than one record of them, and takes no memory.
///
/// It tells its files and is sure: no call fails, and its count of faults is 0.
#[derive(Drop)]
pub struct Maker {
    number: u64,
    count: u32,
    /// How often `open` was called.
    opens: u64,
    opened: Option<Opened>,
    ghost some: { 1 ≤ count },
    ghost most: { count ≤ 1000000 },
}

/// The open file.
#[derive(Drop)]
pub(crate) struct Opened {
    pub making: Making,
    pub name: OpenName,
}

impl Maker {
    ghost use Rattle.pl_make.specs.Generated.{Gen};

    /// A shelf of the capture with this many rounds, 1 to 1,000,000, drawn from `number`. No file
    /// is open, and none was ever opened.
    ///
    /// The capture has `12 + 6 * count` items: the bring-up of a link, and for each round a memory
    /// read that is answered by two completions, their Acks, and the credit that the read took. It
    /// has at most 272 bytes for each round and 252 besides.
    pub fn new(number: u64, count: u32) -> Maker
        requires some { 1 ≤ count }
        requires most { count ≤ 1000000 }
        ensures files { (name : List ℕ) →
            ⟦<Self as Shelf>⟧.file result name ≡ Some (Gen number count) }
        ensures sure { ⟦<Self as Shelf>⟧.sure result ≡ true }
        ensures closed { ⟦<Self as Shelf>⟧.is_open result ≡ false }
        ensures none_opened { ⟦<Self as Shelf>⟧.opens result ≡ 0 }
        ensures none_failed { ⟦<Self as Shelf>⟧.faults result ≡ 0 }
    {
        Maker {
            number,
            count,
            opens: 0,
            opened: None,
        }
    }
}

impl Shelf for Maker {
    ghost use Rattle.pl_make.specs.Generated.{Gen};
    ghost use Rattle.pl_make.specs.Left.{left};
    ghost use Rattle.pl_make.specs.OpenName.{name_in};

    ghost told = { λ maker. true };

    ghost file = { λ maker name. Some (Gen maker.number maker.count) };

    ghost is_open = { λ maker. is_some maker.opened };

    ghost opens = { λ maker. maker.opens };

    ghost open_name = { λ maker. option_map (λ opened. name_in opened.name) maker.opened };

    ghost rest = { λ maker. option_map (λ opened. left opened.making) maker.opened };

    ghost sure = { λ maker. true };

    ghost faults = { λ maker. 0 };

    ghost sure_is_told = { λ maker _. refl };

    ghost sure_is_below = { λ maker _. Prim.omega arith };

    fn open(&mut self, name: &str) -> Result<(), Failed> {
        self.opens = self.opens.saturating_add(1);
        self.opened = Some(Opened {
            making: Making::new(self.number, self.count),
            name: OpenName::of(name),
        });
        Ok(())
    }

    /// A read gives bytes of one record: what is left of the one at hand, or else the next.
    fn read(&mut self, buf: &mut [u8]) -> Result<usize, Failed> {
        match &mut self.opened {
            Some(opened) => Ok(opened.making.read(buf)),
            None => unreachable!(),
        }
    }
}
