//! The archive in a database.
ghost use Rattle.std.specs.Prelude.{◌≡◌, ◌≤◌, false, true, length, option_map, IfOk, IfSome, OnOk};
ghost use Rattle.std.specs.Prelude.{OnErr};
ghost use Rattle.sqlite.specs.Held.{state};
ghost use Rattle.pl_keeper.specs.Archive.{Archive, empty_archive, longest_body, profile_at};
ghost use Rattle.pl_keeper.specs.Archive.{capture_at, captures_of};
ghost use Rattle.pl_keeper.specs.Puts.{put_of_profile, put_of_capture, after_profile};
ghost use Rattle.pl_keeper.specs.Puts.{after_capture};
ghost use Rattle.pl_keeper.specs.Listing.{found_of, Lists, Ascends};
ghost use Rattle.pl_keeper.specs.Rows.{HoldsAny, HoldsOnce, archive_in, profiles_in};
ghost use Rattle.pl_keeper.specs.Schema.{no_tables, profiles_alone, both_tables};
ghost use Rattle.pl_keeper.specs.Settled.{Lives, Continues, IsIdle, Settled};
ghost use Rattle.pl_keeper.specs.Counts.{IsCounted};
ghost use Rattle.std.proofs.lemmas.Bool.{false≢true};

use crate::database::found::{found_capture, found_profile};
use crate::database::listing::list_captures;
use crate::database::puts::{put_capture, put_profile};
use crate::database::statements::{capture_rows, profile_rows};
use crate::database::tables::make_tables;
use crate::error::KeepError;
use crate::keeper::{Keeper, KeyRow, Put, Stored};
use pl_io::FaultCount;
use sqlite::{Alter, Connection, MemStore};
use std::alloc::{AllocError, Global};

mod found;
mod listing;
mod puts;
mod statements;
mod tables;

/// The archive in the two tables of a database. A call makes the tables where they are absent and
/// no call of this keeper has seen to them. It is never sure.
#[derive(Drop)]
pub struct SqliteKeeper<S: Alter> {
    db: Connection<S>,
    /// Whether a call of this keeper has seen to the tables.
    made: bool,
    faults: FaultCount,
}

impl<S: Alter> SqliteKeeper<S> {
    /// A keeper over this connection, with no fault. It asks the database nothing.
    ///
    /// Of a connection that is open with no transaction, and whose schema is exactly our two
    /// tables, or that of the profiles, or empty, it tells what the rows say that are there.
    pub fn new(db: Connection<S>) -> SqliteKeeper<S>
        ensures tells { (a : Archive) → Settled HoldsAny (state S.Store db) a →
            ⟦<Self as Keeper>⟧.tells result a }
        ensures both { IsIdle (state S.Store db) → (state S.Store db).now.schema ≡ both_tables →
            ⟦<Self as Keeper>⟧.tells result (archive_in (state S.Store db).now) }
        ensures profiles { IsIdle (state S.Store db) →
            (state S.Store db).now.schema ≡ profiles_alone →
            ⟦<Self as Keeper>⟧.tells result (profiles_in (state S.Store db).now) }
        ensures none { IsIdle (state S.Store db) → (state S.Store db).now.schema ≡ no_tables →
            ⟦<Self as Keeper>⟧.tells result empty_archive }
        ensures none_failed { ⟦<Self as Keeper>⟧.faults result ≡ 0 }
    {
        // Here the connection says what it keeps true of itself.
        let _ = db.is_autocommit();
        let _ = db.schema();
        SqliteKeeper {
            db,
            made: false,
            faults: FaultCount::new(),
        }
    }

    /// The connection comes back, so that it can be closed.
    pub fn into_connection(self) -> Connection<S>
        ensures { result ≡ self.db }
    {
        let SqliteKeeper {
            db,
            made: _,
            faults: _,
        } = self;
        db
    }

    /// Makes the tables where no call of this keeper has seen to them.
    fn prepare(&mut self) -> Result<(), KeepError>
        ensures continues { Continues (state S.Store self.old.db) (state S.Store self.new.db) }
        ensures faults { self.new.faults ≡ self.old.faults }
        ensures made { Lives (state S.Store self.new.db) → (a : Archive) →
            Settled (HoldsOnce self.old.made) (state S.Store self.old.db) a →
            Settled (HoldsOnce self.new.made) (state S.Store self.new.db) a }
        ensures ready { OnOk result (self.new.made ≡ true) }
    {
        if !self.made {
            make_tables(&mut self.db)?;
            self.made = true;
        }
        Ok(())
    }

    /// Counts a fault where the answer is `Failed`.
    fn count<T>(&mut self, answer: Result<T, KeepError>) -> Result<T, KeepError>
        ensures same { result ≡ answer }
        ensures rows { (self.new.db ≡ self.old.db) × (self.new.made ≡ self.old.made) }
        ensures counted { IsCounted self.old.faults.value self.new.faults.value result }
        ensures never_falls { self.old.faults.value ≤ self.new.faults.value }
    {
        if matches!(answer, Err(KeepError::Failed)) {
            let _ = self.faults.raise();
        }
        answer
    }

    fn look_up_profile(
        &mut self,
        alloc: Global,
        bench: &str,
        name: &str,
    ) -> Result<Option<Vec<u8>>, KeepError>
        ensures continues { Continues (state S.Store self.old.db) (state S.Store self.new.db) }
        ensures faults { self.new.faults ≡ self.old.faults }
        ensures found { Lives (state S.Store self.new.db) → (a : Archive) →
            Settled (HoldsOnce self.old.made) (state S.Store self.old.db) a →
            IfOk result (λ found. option_map (λ bytes. bytes.items) found ≡ option_map
            (λ p. p.bytes) (profile_at a bench.now name.now)) }
        ensures short { IfOk result (λ found. IfSome found
            (λ bytes. length bytes.items ≤ longest_body)) }
        ensures same { Lives (state S.Store self.new.db) → (a : Archive) →
            Settled (HoldsOnce self.old.made) (state S.Store self.old.db) a →
            Settled (HoldsOnce self.new.made) (state S.Store self.new.db) a }
    {
        self.prepare()?;
        let rows = profile_rows(&mut self.db, bench, name)?;
        found_profile(alloc, rows.as_slice())
    }

    fn look_up_capture(
        &mut self,
        alloc: Global,
        bench: &str,
        key: &str,
    ) -> Result<Option<Stored>, KeepError>
        ensures continues { Continues (state S.Store self.old.db) (state S.Store self.new.db) }
        ensures faults { self.new.faults ≡ self.old.faults }
        ensures found { Lives (state S.Store self.new.db) → (a : Archive) →
            Settled (HoldsOnce self.old.made) (state S.Store self.old.db) a →
            IfOk result (λ found. found ≡ option_map found_of (capture_at a bench.now key.now)) }
        ensures short { IfOk result (λ found. IfSome found
            (λ stored. length stored.bytes ≤ longest_body)) }
        ensures same { Lives (state S.Store self.new.db) → (a : Archive) →
            Settled (HoldsOnce self.old.made) (state S.Store self.old.db) a →
            Settled (HoldsOnce self.new.made) (state S.Store self.new.db) a }
    {
        self.prepare()?;
        let rows = capture_rows(&mut self.db, bench, key)?;
        found_capture(alloc, rows.as_slice())
    }

    fn store_profile(&mut self, bench: &str, name: &str, bytes: &[u8]) -> Result<Put, KeepError>
        ensures continues { Continues (state S.Store self.old.db) (state S.Store self.new.db) }
        ensures faults { self.new.faults ≡ self.old.faults }
        ensures answer { Lives (state S.Store self.new.db) → (a : Archive) →
            Settled (HoldsOnce self.old.made) (state S.Store self.old.db) a →
            IfOk result (λ put. put ≡ put_of_profile a (record {
              bench = bench.now;
              name = name.now;
              bytes = bytes.now;
            })) }
        ensures rows { Lives (state S.Store self.new.db) → (a : Archive) →
            Settled (HoldsOnce self.old.made) (state S.Store self.old.db) a →
            IfOk result (λ put. Settled (HoldsOnce self.new.made) (state S.Store self.new.db)
            (after_profile put a (record {
              bench = bench.now;
              name = name.now;
              bytes = bytes.now;
            }))) }
        ensures err { Lives (state S.Store self.new.db) → (a : Archive) →
            Settled (HoldsOnce self.old.made) (state S.Store self.old.db) a →
            OnErr result (Settled (HoldsOnce self.new.made) (state S.Store self.new.db) a) }
    {
        self.prepare()?;
        put_profile(&mut self.db, bench, name, bytes)
    }

    fn store_capture(
        &mut self,
        bench: &str,
        key: &str,
        profile: &str,
        bytes: &[u8],
    ) -> Result<Put, KeepError>
        ensures continues { Continues (state S.Store self.old.db) (state S.Store self.new.db) }
        ensures faults { self.new.faults ≡ self.old.faults }
        ensures answer { Lives (state S.Store self.new.db) → (a : Archive) →
            Settled (HoldsOnce self.old.made) (state S.Store self.old.db) a →
            IfOk result (λ put. put ≡ put_of_capture a (record {
              bench = bench.now;
              key = key.now;
              profile = profile.now;
              bytes = bytes.now;
            })) }
        ensures rows { Lives (state S.Store self.new.db) → (a : Archive) →
            Settled (HoldsOnce self.old.made) (state S.Store self.old.db) a →
            IfOk result (λ put. Settled (HoldsOnce self.new.made) (state S.Store self.new.db)
            (after_capture put a (record {
              bench = bench.now;
              key = key.now;
              profile = profile.now;
              bytes = bytes.now;
            }))) }
        ensures err { Lives (state S.Store self.new.db) → (a : Archive) →
            Settled (HoldsOnce self.old.made) (state S.Store self.old.db) a →
            OnErr result (Settled (HoldsOnce self.new.made) (state S.Store self.new.db) a) }
    {
        self.prepare()?;
        put_capture(&mut self.db, bench, key, profile, bytes)
    }

    fn list(&mut self, alloc: Global, bench: &str) -> Result<Vec<KeyRow>, KeepError>
        ensures continues { Continues (state S.Store self.old.db) (state S.Store self.new.db) }
        ensures faults { self.new.faults ≡ self.old.faults }
        ensures listed { Lives (state S.Store self.new.db) → (a : Archive) →
            Settled (HoldsOnce self.old.made) (state S.Store self.old.db) a →
            IfOk result (λ rows. Lists (captures_of a bench.now) rows.items) }
        ensures ascending { Lives (state S.Store self.new.db) → (a : Archive) →
            Settled (HoldsOnce self.old.made) (state S.Store self.old.db) a →
            IfOk result (λ rows. Ascends rows.items) }
        ensures same { Lives (state S.Store self.new.db) → (a : Archive) →
            Settled (HoldsOnce self.old.made) (state S.Store self.old.db) a →
            Settled (HoldsOnce self.new.made) (state S.Store self.new.db) a }
    {
        self.prepare()?;
        list_captures(alloc, &mut self.db, bench)
    }
}

impl<S: Alter> Keeper for SqliteKeeper<S> {
    ghost tells = { λ k. Settled (HoldsOnce k.made) (state S.Store k.db) };

    ghost lives = { λ k. Lives (state S.Store k.db) };

    ghost sure = { λ _. false };

    ghost faults = { λ k. k.faults.value };

    ghost sure_is_below = { λ k never. absurd (false≢true never) };

    fn profile(
        &mut self,
        alloc: Global,
        bench: &str,
        name: &str,
    ) -> Result<Option<Vec<u8>>, KeepError> {
        let answer = self.look_up_profile(alloc, bench, name);
        self.count(answer)
    }

    fn put_profile(
        &mut self,
        _: Global,
        bench: &str,
        name: &str,
        bytes: &[u8],
    ) -> Result<Put, KeepError> {
        let answer = self.store_profile(bench, name, bytes);
        self.count(answer)
    }

    fn capture(
        &mut self,
        alloc: Global,
        bench: &str,
        key: &str,
    ) -> Result<Option<Stored>, KeepError> {
        let answer = self.look_up_capture(alloc, bench, key);
        self.count(answer)
    }

    fn put_capture(
        &mut self,
        _: Global,
        bench: &str,
        key: &str,
        profile: &str,
        bytes: &[u8],
    ) -> Result<Put, KeepError> {
        let answer = self.store_capture(bench, key, profile, bytes);
        self.count(answer)
    }

    fn keys(&mut self, alloc: Global, bench: &str) -> Result<Vec<KeyRow>, KeepError> {
        let answer = self.list(alloc, bench);
        self.count(answer)
    }
}

/// An empty archive in a database in memory.
pub fn open_in_memory(alloc: Global) -> Result<SqliteKeeper<MemStore>, AllocError>
    ensures tells { IfOk result
        (λ keeper. ⟦<SqliteKeeper<MemStore> as Keeper>⟧.tells keeper empty_archive) }
    ensures none_failed { IfOk result (λ keeper. ⟦<SqliteKeeper<MemStore> as Keeper>⟧.faults keeper
        ≡ 0) }
{
    let db = Connection::open_in_memory(alloc)?;
    Ok(SqliteKeeper::new(db))
}

/// Nothing outside spoils a database in memory.
pub fn lives_in_memory(keeper: &SqliteKeeper<MemStore>)
    ensures { ⟦<SqliteKeeper<MemStore> as Keeper>⟧.lives keeper.now }
{
    let _ = keeper;
}
