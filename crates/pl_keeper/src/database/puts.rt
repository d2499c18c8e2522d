//! The two puts, each one transaction.
ghost use Rattle.std.specs.Prelude.{◌≡◌, IfOk, OnErr};
ghost use Rattle.sqlite.specs.Held.{state};
ghost use Rattle.sqlite.specs.State.{HasCleanDisk, KeepsCommit};
ghost use Rattle.pl_keeper.specs.Archive.{Archive};
ghost use Rattle.pl_keeper.specs.Rows.{Holds};
ghost use Rattle.pl_keeper.specs.Settled.{Lives, Continues, Settled, Within};
ghost use Rattle.pl_keeper.specs.Puts.{put_of_profile, put_of_capture, after_profile};
ghost use Rattle.pl_keeper.specs.Puts.{after_capture, commits};

use crate::database::found::{only_row, put_over_capture, put_over_profile};
use crate::database::statements::{
    add_capture, add_profile, capture_keys_inside, capture_rows_inside, profile_names_inside,
    profile_rows_inside,
};
use crate::error::KeepError;
use crate::keeper::Put;
use crate::limits::{MOST_CAPTURES, MOST_PROFILES};
use sqlite::{Alter, Connection, Transaction};

/// Whether the answer follows a commit. All others leave the transaction to be rolled back.
fn commits(put: Put) -> bool
    ensures { result ≡ commits put }
{
    matches!(put, Put::New | Put::Same)
}

/// The answer for a profile, which is added where it is `New`.
fn choose_profile<S: Alter>(
    tx: &mut Transaction<'_, S>,
    bench: &str,
    name: &str,
    bytes: &[u8],
) -> Result<Put, KeepError>
    ensures same_reference { tx.new.conn.ghost_name ≡ tx.old.conn.ghost_name }
    ensures continues { Continues (state S.Store tx.old.conn.now) (state S.Store tx.new.conn.now) }
    ensures answer { HasCleanDisk (state S.Store tx.new.conn.now) → (a : Archive) →
        Within (state S.Store tx.old.conn.now) a →
        IfOk result (λ put. put ≡ put_of_profile a (record {
          bench = bench.now;
          name = name.now;
          bytes = bytes.now;
        })) }
    ensures seen { HasCleanDisk (state S.Store tx.new.conn.now) → (a : Archive) →
        Within (state S.Store tx.old.conn.now) a →
        IfOk result (λ put. Within (state S.Store tx.new.conn.now) (after_profile put a
        (record { bench = bench.now; name = name.now; bytes = bytes.now }))) }
    ensures kept { HasCleanDisk (state S.Store tx.new.conn.now) → (a : Archive) →
        Within (state S.Store tx.old.conn.now) a →
        KeepsCommit (state S.Store tx.old.conn.now) (state S.Store tx.new.conn.now) }
{
    let rows = profile_rows_inside(tx, bench, name)?;
    if let Some(put) = put_over_profile(rows.as_slice(), bytes)? {
        return Ok(put);
    }
    let names = profile_names_inside(tx, bench)?;
    if names.as_slice().len() >= MOST_PROFILES {
        return Ok(Put::Full);
    }
    let _ = add_profile(tx, bench, name, bytes)?;
    Ok(Put::New)
}

/// The answer for a capture, which is added where it is `New`.
fn choose_capture<S: Alter>(
    tx: &mut Transaction<'_, S>,
    bench: &str,
    key: &str,
    profile: &str,
    bytes: &[u8],
) -> Result<Put, KeepError>
    ensures same_reference { tx.new.conn.ghost_name ≡ tx.old.conn.ghost_name }
    ensures continues { Continues (state S.Store tx.old.conn.now) (state S.Store tx.new.conn.now) }
    ensures answer { HasCleanDisk (state S.Store tx.new.conn.now) → (a : Archive) →
        Within (state S.Store tx.old.conn.now) a →
        IfOk result (λ put. put ≡ put_of_capture a (record {
          bench = bench.now;
          key = key.now;
          profile = profile.now;
          bytes = bytes.now;
        })) }
    ensures seen { HasCleanDisk (state S.Store tx.new.conn.now) → (a : Archive) →
        Within (state S.Store tx.old.conn.now) a →
        IfOk result (λ put. Within (state S.Store tx.new.conn.now) (after_capture put a
        (record {
          bench = bench.now;
          key = key.now;
          profile = profile.now;
          bytes = bytes.now;
        }))) }
    ensures kept { HasCleanDisk (state S.Store tx.new.conn.now) → (a : Archive) →
        Within (state S.Store tx.old.conn.now) a →
        KeepsCommit (state S.Store tx.old.conn.now) (state S.Store tx.new.conn.now) }
{
    let rows = capture_rows_inside(tx, bench, key)?;
    if let Some(put) = put_over_capture(rows.as_slice(), profile, bytes)? {
        return Ok(put);
    }
    let owners = profile_rows_inside(tx, bench, profile)?;
    let Some(_) = only_row(owners.as_slice())? else {
        return Ok(Put::NoProfile);
    };
    let keys = capture_keys_inside(tx, bench)?;
    if keys.as_slice().len() >= MOST_CAPTURES {
        return Ok(Put::Full);
    }
    let _ = add_capture(tx, bench, key, profile, bytes)?;
    Ok(Put::New)
}

/// One put of a profile. A transaction that is dropped without a commit is rolled back.
pub(crate) fn put_profile<S: Alter>(
    db: &mut Connection<S>,
    bench: &str,
    name: &str,
    bytes: &[u8],
) -> Result<Put, KeepError>
    ensures continues { Continues (state S.Store db.old) (state S.Store db.new) }
    ensures answer { Lives (state S.Store db.new) → (a : Archive) →
        Settled Holds (state S.Store db.old) a →
        IfOk result (λ put. put ≡ put_of_profile a (record {
          bench = bench.now;
          name = name.now;
          bytes = bytes.now;
        })) }
    ensures rows { Lives (state S.Store db.new) → (a : Archive) →
        Settled Holds (state S.Store db.old) a →
        IfOk result (λ put. Settled Holds (state S.Store db.new) (after_profile put a
        (record { bench = bench.now; name = name.now; bytes = bytes.now }))) }
    ensures err { Lives (state S.Store db.new) → (a : Archive) →
        Settled Holds (state S.Store db.old) a →
        OnErr result (Settled Holds (state S.Store db.new) a) }
{
    if !db.is_autocommit() {
        return Err(KeepError::Failed);
    }
    let mut tx = db.transaction();
    let put = choose_profile(&mut tx, bench, name, bytes)?;
    if commits(put) {
        tx.commit()?;
    }
    Ok(put)
}

/// One put of a capture. A transaction that is dropped without a commit is rolled back.
pub(crate) fn put_capture<S: Alter>(
    db: &mut Connection<S>,
    bench: &str,
    key: &str,
    profile: &str,
    bytes: &[u8],
) -> Result<Put, KeepError>
    ensures continues { Continues (state S.Store db.old) (state S.Store db.new) }
    ensures answer { Lives (state S.Store db.new) → (a : Archive) →
        Settled Holds (state S.Store db.old) a →
        IfOk result (λ put. put ≡ put_of_capture a (record {
          bench = bench.now;
          key = key.now;
          profile = profile.now;
          bytes = bytes.now;
        })) }
    ensures rows { Lives (state S.Store db.new) → (a : Archive) →
        Settled Holds (state S.Store db.old) a →
        IfOk result (λ put. Settled Holds (state S.Store db.new) (after_capture put a
        (record {
          bench = bench.now;
          key = key.now;
          profile = profile.now;
          bytes = bytes.now;
        }))) }
    ensures err { Lives (state S.Store db.new) → (a : Archive) →
        Settled Holds (state S.Store db.old) a →
        OnErr result (Settled Holds (state S.Store db.new) a) }
{
    if !db.is_autocommit() {
        return Err(KeepError::Failed);
    }
    let mut tx = db.transaction();
    let put = choose_capture(&mut tx, bench, key, profile, bytes)?;
    if commits(put) {
        tx.commit()?;
    }
    Ok(put)
}
