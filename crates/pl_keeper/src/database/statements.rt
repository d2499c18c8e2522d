//! The texts of SQL that take the whole answer of a query at once, or add a row, each one call of
//! the database.
//!
//! Those of the look-ups are run between transactions, and those of the puts within one.
ghost use Rattle.std.specs.Prelude.{◌≡◌, map, filter, IfOk, OnOk};
ghost use Rattle.std.specs.List.Sorted.{IsPermutation};
ghost use Rattle.sqlite.specs.Held.{state};
ghost use Rattle.sqlite.specs.State.{HasCleanDisk, KeepsCommit};
ghost use Rattle.pl_keeper.specs.Archive.{Archive, is_profile, is_capture, with_profile};
ghost use Rattle.pl_keeper.specs.Archive.{with_capture, profiles_of, captures_of};
ghost use Rattle.pl_keeper.specs.Rows.{Holds};
ghost use Rattle.pl_keeper.specs.Settled.{Lives, Continues, Settled, Within, body_of, name_of};
ghost use Rattle.pl_keeper.specs.Settled.{owner_and_body, key_of};

use sqlite::{Alter, Connection, Error, Row, Transaction, params};

/// The body of one profile, in at most one row.
pub(crate) fn profile_rows<S: Alter>(
    db: &mut Connection<S>,
    bench: &str,
    name: &str,
) -> Result<Vec<Row>, Error>
    ensures continues { Continues (state S.Store db.old) (state S.Store db.new) }
    ensures rows { Lives (state S.Store db.new) → (a : Archive) →
        Settled Holds (state S.Store db.old) a →
        IfOk result (λ rows. IsPermutation (map body_of
        (filter (is_profile bench.now name.now) a.profiles)) rows.items) }
    ensures kept { Lives (state S.Store db.new) → (a : Archive) →
        Settled Holds (state S.Store db.old) a → Settled Holds (state S.Store db.new) a }
{
    db.query_all(
        "SELECT body FROM profiles WHERE bench = ?1 AND name = ?2",
        params![bench, name],
    )
}

/// The profile's name and the body of one capture, in at most one row.
pub(crate) fn capture_rows<S: Alter>(
    db: &mut Connection<S>,
    bench: &str,
    key: &str,
) -> Result<Vec<Row>, Error>
    ensures continues { Continues (state S.Store db.old) (state S.Store db.new) }
    ensures rows { Lives (state S.Store db.new) → (a : Archive) →
        Settled Holds (state S.Store db.old) a →
        IfOk result (λ rows. IsPermutation (map owner_and_body
        (filter (is_capture bench.now key.now) a.captures)) rows.items) }
    ensures kept { Lives (state S.Store db.new) → (a : Archive) →
        Settled Holds (state S.Store db.old) a → Settled Holds (state S.Store db.new) a }
{
    db.query_all(
        "SELECT profile, body FROM captures WHERE bench = ?1 AND label = ?2",
        params![bench, key],
    )
}

/// The body of one profile, within a put.
pub(crate) fn profile_rows_inside<S: Alter>(
    tx: &mut Transaction<'_, S>,
    bench: &str,
    name: &str,
) -> Result<Vec<Row>, Error>
    ensures same_reference { tx.new.conn.ghost_name ≡ tx.old.conn.ghost_name }
    ensures continues { Continues (state S.Store tx.old.conn.now) (state S.Store tx.new.conn.now) }
    ensures rows { HasCleanDisk (state S.Store tx.new.conn.now) → (a : Archive) →
        Within (state S.Store tx.old.conn.now) a →
        IfOk result (λ rows. IsPermutation (map body_of
        (filter (is_profile bench.now name.now) a.profiles)) rows.items) }
    ensures seen { HasCleanDisk (state S.Store tx.new.conn.now) → (a : Archive) →
        Within (state S.Store tx.old.conn.now) a →
        OnOk result (Within (state S.Store tx.new.conn.now) a) }
    ensures kept { HasCleanDisk (state S.Store tx.new.conn.now) → (a : Archive) →
        Within (state S.Store tx.old.conn.now) a →
        KeepsCommit (state S.Store tx.old.conn.now) (state S.Store tx.new.conn.now) }
{
    tx.query_all(
        "SELECT body FROM profiles WHERE bench = ?1 AND name = ?2",
        params![bench, name],
    )
}

/// The names of a bench's profiles, which a put counts.
pub(crate) fn profile_names_inside<S: Alter>(
    tx: &mut Transaction<'_, S>,
    bench: &str,
) -> Result<Vec<Row>, Error>
    ensures same_reference { tx.new.conn.ghost_name ≡ tx.old.conn.ghost_name }
    ensures continues { Continues (state S.Store tx.old.conn.now) (state S.Store tx.new.conn.now) }
    ensures rows { HasCleanDisk (state S.Store tx.new.conn.now) → (a : Archive) →
        Within (state S.Store tx.old.conn.now) a →
        IfOk result (λ rows. IsPermutation (map name_of (profiles_of a bench.now)) rows.items) }
    ensures seen { HasCleanDisk (state S.Store tx.new.conn.now) → (a : Archive) →
        Within (state S.Store tx.old.conn.now) a →
        OnOk result (Within (state S.Store tx.new.conn.now) a) }
    ensures kept { HasCleanDisk (state S.Store tx.new.conn.now) → (a : Archive) →
        Within (state S.Store tx.old.conn.now) a →
        KeepsCommit (state S.Store tx.old.conn.now) (state S.Store tx.new.conn.now) }
{
    tx.query_all("SELECT name FROM profiles WHERE bench = ?1", params![bench])
}

/// The profile's name and the body of one capture, within a put.
pub(crate) fn capture_rows_inside<S: Alter>(
    tx: &mut Transaction<'_, S>,
    bench: &str,
    key: &str,
) -> Result<Vec<Row>, Error>
    ensures same_reference { tx.new.conn.ghost_name ≡ tx.old.conn.ghost_name }
    ensures continues { Continues (state S.Store tx.old.conn.now) (state S.Store tx.new.conn.now) }
    ensures rows { HasCleanDisk (state S.Store tx.new.conn.now) → (a : Archive) →
        Within (state S.Store tx.old.conn.now) a →
        IfOk result (λ rows. IsPermutation (map owner_and_body
        (filter (is_capture bench.now key.now) a.captures)) rows.items) }
    ensures seen { HasCleanDisk (state S.Store tx.new.conn.now) → (a : Archive) →
        Within (state S.Store tx.old.conn.now) a →
        OnOk result (Within (state S.Store tx.new.conn.now) a) }
    ensures kept { HasCleanDisk (state S.Store tx.new.conn.now) → (a : Archive) →
        Within (state S.Store tx.old.conn.now) a →
        KeepsCommit (state S.Store tx.old.conn.now) (state S.Store tx.new.conn.now) }
{
    tx.query_all(
        "SELECT profile, body FROM captures WHERE bench = ?1 AND label = ?2",
        params![bench, key],
    )
}

/// The keys of a bench's captures, which a put counts.
pub(crate) fn capture_keys_inside<S: Alter>(
    tx: &mut Transaction<'_, S>,
    bench: &str,
) -> Result<Vec<Row>, Error>
    ensures same_reference { tx.new.conn.ghost_name ≡ tx.old.conn.ghost_name }
    ensures continues { Continues (state S.Store tx.old.conn.now) (state S.Store tx.new.conn.now) }
    ensures rows { HasCleanDisk (state S.Store tx.new.conn.now) → (a : Archive) →
        Within (state S.Store tx.old.conn.now) a →
        IfOk result (λ rows. IsPermutation (map key_of (captures_of a bench.now)) rows.items) }
    ensures seen { HasCleanDisk (state S.Store tx.new.conn.now) → (a : Archive) →
        Within (state S.Store tx.old.conn.now) a →
        OnOk result (Within (state S.Store tx.new.conn.now) a) }
    ensures kept { HasCleanDisk (state S.Store tx.new.conn.now) → (a : Archive) →
        Within (state S.Store tx.old.conn.now) a →
        KeepsCommit (state S.Store tx.old.conn.now) (state S.Store tx.new.conn.now) }
{
    tx.query_all(
        "SELECT label FROM captures WHERE bench = ?1",
        params![bench],
    )
}

/// Adds a profile.
pub(crate) fn add_profile<S: Alter>(
    tx: &mut Transaction<'_, S>,
    bench: &str,
    name: &str,
    bytes: &[u8],
) -> Result<usize, Error>
    ensures same_reference { tx.new.conn.ghost_name ≡ tx.old.conn.ghost_name }
    ensures continues { Continues (state S.Store tx.old.conn.now) (state S.Store tx.new.conn.now) }
    ensures seen { HasCleanDisk (state S.Store tx.new.conn.now) → (a : Archive) →
        Within (state S.Store tx.old.conn.now) a →
        OnOk result (Within (state S.Store tx.new.conn.now) (with_profile a
        (record { bench = bench.now; name = name.now; bytes = bytes.now }))) }
    ensures kept { HasCleanDisk (state S.Store tx.new.conn.now) → (a : Archive) →
        Within (state S.Store tx.old.conn.now) a →
        KeepsCommit (state S.Store tx.old.conn.now) (state S.Store tx.new.conn.now) }
{
    tx.execute(
        "INSERT INTO profiles (bench, name, body) VALUES (?1, ?2, ?3)",
        params![bench, name, bytes],
    )
}

/// Adds a capture.
pub(crate) fn add_capture<S: Alter>(
    tx: &mut Transaction<'_, S>,
    bench: &str,
    key: &str,
    profile: &str,
    bytes: &[u8],
) -> Result<usize, Error>
    ensures same_reference { tx.new.conn.ghost_name ≡ tx.old.conn.ghost_name }
    ensures continues { Continues (state S.Store tx.old.conn.now) (state S.Store tx.new.conn.now) }
    ensures seen { HasCleanDisk (state S.Store tx.new.conn.now) → (a : Archive) →
        Within (state S.Store tx.old.conn.now) a →
        OnOk result (Within (state S.Store tx.new.conn.now) (with_capture a
        (record {
          bench = bench.now;
          key = key.now;
          profile = profile.now;
          bytes = bytes.now;
        }))) }
    ensures kept { HasCleanDisk (state S.Store tx.new.conn.now) → (a : Archive) →
        Within (state S.Store tx.old.conn.now) a →
        KeepsCommit (state S.Store tx.old.conn.now) (state S.Store tx.new.conn.now) }
{
    tx.execute(
        "INSERT INTO captures (bench, label, profile, body) VALUES (?1, ?2, ?3, ?4)",
        params![bench, key, profile, bytes],
    )
}
