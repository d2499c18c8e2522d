//! What is answered while a store is lost, and once it is back.

use crate::{FileWatch, Watch, WatchedKeeper};
use pl_keeper::{KeepError, Keeper, MapKeeper, Put};
use std::alloc::{AllocError, Global};
use std::env::temp_dir;
use std::fs::{remove_file, rename, write};
use std::process;
use std::test::Fail;

/// A watch that finds the store lost at these looks, counted from 1.
#[derive(Drop)]
struct LostAt {
    looks: u64,
    lost: Vec<u64>,
}

impl Watch for LostAt {
    ghost use Rattle.std.specs.Prelude.{None};

    ghost finds = { λ _. None };

    fn is_there(&mut self) -> bool {
        self.looks = self.looks.saturating_add(1);
        !self.lost.contains(&self.looks)
    }
}

fn watched(alloc: Global, lost: &[u64]) -> Result<WatchedKeeper<MapKeeper, LostAt>, AllocError> {
    let watch = LostAt {
        looks: 0,
        lost: Vec::from_slice(alloc, lost)?,
    };
    Ok(WatchedKeeper::new(MapKeeper::new(alloc, &[])?, watch))
}

#[test]
fn a_lost_store_answers_no_call(rt: HostRuntime) -> Result<(), Fail> {
    let alloc = rt.alloc();
    let mut keeper = watched(alloc, &[1, 2, 3, 4, 5])?;
    assert!(rt; keeper.profile(alloc, "b1", "p1") == Err(KeepError::Failed));
    assert!(rt; keeper.put_profile(alloc, "b1", "p1", b"") == Err(KeepError::Failed));
    assert!(rt; matches!(keeper.capture(alloc, "b1", "k1"), Err(KeepError::Failed)));
    assert!(rt; keeper.put_capture(alloc, "b1", "k1", "p1", b"") == Err(KeepError::Failed));
    assert!(rt; matches!(keeper.keys(alloc, "b1"), Err(KeepError::Failed)));
    let mut unwatched = keeper.into_keeper();
    assert!(rt; unwatched.profile(alloc, "b1", "p1") == Ok(None));
    Ok(())
}

#[test]
fn a_store_that_is_back_answers_as_ever(rt: HostRuntime) -> Result<(), Fail> {
    let alloc = rt.alloc();
    let mut keeper = watched(alloc, &[2])?;
    assert!(rt; keeper.put_profile(alloc, "b1", "p1", b"vcs = 1") == Ok(Put::New));
    assert!(rt; keeper.put_profile(alloc, "b1", "p2", b"vcs = 1") == Err(KeepError::Failed));
    assert!(rt; keeper.put_profile(alloc, "b1", "p2", b"vcs = 1") == Ok(Put::New));
    assert!(rt; keeper.put_capture(alloc, "b1", "k1", "p1", b"x") == Ok(Put::New));
    let stored = keeper.capture(alloc, "b1", "k1")?.ok_or("no capture")?;
    assert_eq!(rt; stored.bytes.as_slice(), b"x".as_slice());
    let text = keeper.profile(alloc, "b1", "p1")?.ok_or("no profile")?;
    assert_eq!(rt; text.as_slice(), b"vcs = 1".as_slice());
    assert_eq!(rt; keeper.keys(alloc, "b1")?.len(), 1);
    Ok(())
}

/// The very file counts, and not its name or its bytes.
#[test]
fn a_file_is_lost_while_its_name_leads_elsewhere(rt: HostRuntime) -> Result<(), Fail> {
    let alloc = rt.alloc();
    let id = process::id(rt.process());
    let store = temp_dir(&rt)?.join(alloc, format!(in alloc; "store_{id}")?)?;
    let aside = temp_dir(&rt)?.join(alloc, format!(in alloc; "aside_{id}")?)?;
    write(&rt, store.as_path(), b"store")?;
    let mut watch = FileWatch::new(&rt, store.as_str());
    assert!(rt; watch.is_there(), "at first");
    rename(&rt, store.as_path(), aside.as_path())?;
    assert!(rt; !watch.is_there(), "moved away");
    write(&rt, store.as_path(), b"store")?;
    assert!(rt; !watch.is_there(), "another file");
    rename(&rt, aside.as_path(), store.as_path())?;
    assert!(rt; watch.is_there(), "moved back");
    remove_file(&rt, store.as_path())?;
    assert!(rt; !watch.is_there(), "removed");
    assert!(rt; FileWatch::new(&rt, ":memory:").is_there(), "no file");
    Ok(())
}
