//! The files of the system.
ghost use Rattle.std.specs.Prelude.{◌≡◌, ◌<◌, ◌≤◌, true, false, None, IfOk, is_some, length};
ghost use Rattle.std.proofs.lemmas.Bool.{false≢true};
ghost use Rattle.pl_io.specs.Faults.{HasCause};
ghost use Rattle.pl_io.specs.Passed.{GivesUp};

use crate::failed::{Failed, FaultCount};
use crate::shelf::Shelf;
use std::fs::File;
use std::io::Read;
use std::rt::Files;

/// The files of the system by their paths. It tells none of their bytes, and is never sure.
#[derive(Drop)]
pub struct FileShelf<R: Files> {
    rt: R,
    file: Option<R::File>,
    opens: u64,
    faults: FaultCount,
}

impl<R: Files> FileShelf<R> {
    /// A shelf over these files, with none open, none ever opened and no fault.
    pub fn new(rt: R) -> FileShelf<R>
        ensures closed { ⟦<Self as Shelf>⟧.is_open result ≡ false }
        ensures none_opened { ⟦<Self as Shelf>⟧.opens result ≡ 0 }
        ensures none_failed { ⟦<Self as Shelf>⟧.faults result ≡ 0 }
    {
        FileShelf {
            rt,
            file: None,
            opens: 0,
            faults: FaultCount::new(),
        }
    }
}

impl<R: Files> Shelf for FileShelf<R> {
    ghost told = { λ shelf. false };

    ghost file = { λ shelf name. None };

    ghost is_open = { λ shelf. is_some shelf.file };

    ghost opens = { λ shelf. shelf.opens };

    ghost open_name = { λ shelf. None };

    ghost rest = { λ shelf. None };

    ghost sure = { λ shelf. false };

    ghost faults = { λ shelf. shelf.faults.value };

    ghost sure_is_told = { λ shelf never. absurd (false≢true never) };

    ghost sure_is_below = { λ shelf never. absurd (false≢true never) };

    fn open(&mut self, name: &str) -> Result<(), Failed> {
        self.opens = self.opens.saturating_add(1);
        match File::open(&self.rt, name) {
            Ok(file) => {
                self.file = Some(file);
                Ok(())
            }
            Err(_) => {
                self.file = None;
                Err(self.faults.raise())
            }
        }
    }

    /// A read that a signal interrupts is counted as a fault like any other.
    fn read(&mut self, buf: &mut [u8]) -> Result<usize, Failed>
        requires opened { is_some self.old.file ≡ true }
        requires buffer { 0 < length buf.old }
        ensures most { IfOk result (λ n. n ≤ length buf.new) }
        ensures given { GivesUp R.File.remaining self.old.file self.new.file result buf.new }
        ensures opens { self.new.opens ≡ self.old.opens }
        ensures cause { HasCause self.old.faults.value self.new.faults.value result }
        ensures never_falls { self.old.faults.value ≤ self.new.faults.value }
    {
        match &mut self.file {
            Some(file) => match file.read(buf) {
                Ok(count) => Ok(count),
                Err(_) => Err(self.faults.raise()),
            },
            None => unreachable!(),
        }
    }
}
