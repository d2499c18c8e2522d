//! The watch over a file of the system.

use crate::watch::Watch;
use std::fs::metadata;
use std::os::unix::fs::MetadataExt;
use std::rt::Files;

/// Which file of the system a name leads to: its device and its number there.
#[derive(Clone, Copy, Debug, PartialEq, Eq)]
struct Identity {
    device: u64,
    number: u64,
}

/// Watches that a name leads to the file to which it led at first.
///
/// A name that led to no file, as `:memory:`, isn't watched: what it stands for can't be lost.
#[derive(Drop)]
pub struct FileWatch<'p, R: Files> {
    rt: R,
    path: &'p str,
    first: Option<Identity>,
}

impl<'p, R: Files> FileWatch<'p, R> {
    /// Watches the file to which a name leads now.
    pub fn new(rt: R, path: &'p str) -> FileWatch<'p, R> {
        let first = file_at(&rt, path);
        FileWatch { rt, path, first }
    }
}

/// Which file a name leads to, where it leads to one.
fn file_at<R: Files>(rt: &R, path: &str) -> Option<Identity> {
    match metadata(rt, path) {
        Ok(found) => Some(Identity {
            device: found.dev(),
            number: found.ino(),
        }),
        Err(_) => None,
    }
}

impl<'p, R: Files> Watch for FileWatch<'p, R> {
    ghost use Rattle.std.specs.Prelude.{None};

    ghost finds = { λ _. None };

    fn is_there(&mut self) -> bool {
        self.first.is_none() || file_at(&self.rt, self.path) == self.first
    }
}
