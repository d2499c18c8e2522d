//! The keeper that asks its watch first.
ghost use Rattle.std.specs.Prelude.{◌≡◌, ◌≤◌, false, true, Some, Err, IsOk, OnErr, OnOk};
ghost use Rattle.std.proofs.lemmas.Bool.{false≢true};
ghost use Rattle.pl_io.specs.Faults.{raised};
ghost use Rattle.pl_keeper.specs.Counts.{IsCounted};

use crate::watch::Watch;
use pl_io::FaultCount;
use pl_keeper::{KeepError, Keeper, KeyRow, Put, Stored};
use std::alloc::Global;

/// A keeper that is asked only while its watch says that the store is there. A call on a lost store
/// fails, is counted and reaches nothing; once the store is back, the next call is answered as ever.
///
/// It tells the rows that the keeper tells, and is never sure, since nobody knows what a watch says.
#[derive(Drop)]
pub struct WatchedKeeper<K: Keeper, W: Watch> {
    keeper: K,
    watch: W,
    faults: FaultCount,
}

impl<K: Keeper, W: Watch + Drop> WatchedKeeper<K, W> {
    /// Watches the store of a keeper. No call has failed yet.
    pub fn new(keeper: K, watch: W) -> WatchedKeeper<K, W>
        ensures kept { result.keeper ≡ keeper }
        ensures none_failed { ⟦<Self as Keeper>⟧.faults result ≡ 0 }
    {
        WatchedKeeper {
            keeper,
            watch,
            faults: FaultCount::new(),
        }
    }

    /// The keeper, unwatched.
    pub fn into_keeper(self) -> K
        ensures { result ≡ self.keeper }
    {
        self.keeper
    }

    /// Fails where the store is lost. The keeper isn't asked.
    fn look(&mut self) -> Result<(), KeepError>
        ensures lost_told { W.finds self.old.watch ≡ Some false → result ≡ Err KeepError.Failed }
        ensures there_told { W.finds self.old.watch ≡ Some true → IsOk result }
        ensures keeper { self.new.keeper ≡ self.old.keeper }
        ensures lost { OnErr result (result ≡ Err KeepError.Failed) }
        ensures raised { OnErr result (self.new.faults.value ≡ raised self.old.faults.value) }
        ensures there { OnOk result (self.new.faults ≡ self.old.faults) }
        ensures never_falls { self.old.faults.value ≤ self.new.faults.value }
    {
        if self.watch.is_there() {
            return Ok(());
        }
        let _ = self.faults.raise();
        Err(KeepError::Failed)
    }
}

/// The answer of a keeper, which is counted where it failed.
fn counted<T>(faults: &mut FaultCount, answer: Result<T, KeepError>) -> Result<T, KeepError>
    ensures same { result ≡ answer }
    ensures counted { IsCounted faults.old.value faults.new.value result }
    ensures never_falls { faults.old.value ≤ faults.new.value }
{
    if matches!(&answer, Err(KeepError::Failed)) {
        let _ = faults.raise();
    }
    answer
}

impl<K: Keeper, W: Watch + Drop> Keeper for WatchedKeeper<K, W> {
    ghost tells = { λ k a. K.Keeper.tells k.keeper a };

    ghost lives = { λ k. K.Keeper.lives k.keeper };

    ghost sure = { λ _. false };

    ghost faults = { λ k. k.faults.value };

    ghost sure_is_below = { λ _ never. absurd (false≢true never) };

    fn profile(
        &mut self,
        alloc: Global,
        bench: &str,
        name: &str,
    ) -> Result<Option<Vec<u8>>, KeepError> {
        self.look()?;
        counted(&mut self.faults, self.keeper.profile(alloc, bench, name))
    }

    fn put_profile(
        &mut self,
        alloc: Global,
        bench: &str,
        name: &str,
        bytes: &[u8],
    ) -> Result<Put, KeepError> {
        self.look()?;
        counted(
            &mut self.faults,
            self.keeper.put_profile(alloc, bench, name, bytes),
        )
    }

    fn capture(
        &mut self,
        alloc: Global,
        bench: &str,
        key: &str,
    ) -> Result<Option<Stored>, KeepError> {
        self.look()?;
        counted(&mut self.faults, self.keeper.capture(alloc, bench, key))
    }

    fn put_capture(
        &mut self,
        alloc: Global,
        bench: &str,
        key: &str,
        profile: &str,
        bytes: &[u8],
    ) -> Result<Put, KeepError> {
        self.look()?;
        counted(
            &mut self.faults,
            self.keeper.put_capture(alloc, bench, key, profile, bytes),
        )
    }

    fn keys(&mut self, alloc: Global, bench: &str) -> Result<Vec<KeyRow>, KeepError> {
        self.look()?;
        counted(&mut self.faults, self.keeper.keys(alloc, bench))
    }
}
