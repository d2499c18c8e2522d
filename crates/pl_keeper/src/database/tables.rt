//! Making the two tables where they are absent.
ghost use Rattle.std.specs.Prelude.{◌≡◌, bytes_eq, OnOk, OnErr};
ghost use Rattle.std.specs.List.{list_any};
ghost use Rattle.sqlite.specs.Held.{state};
ghost use Rattle.pl_keeper.specs.Archive.{Archive};
ghost use Rattle.pl_keeper.specs.Rows.{Holds, HoldsProfiles, HoldsNothing, HoldsSome, HoldsAny};
ghost use Rattle.pl_keeper.specs.Settled.{Lives, Continues, Settled};

use crate::error::KeepError;
use sqlite::{Alter, Connection, Error};
use sqlite_schema::schema::Table;

fn has_table(tables: &[Table], name: &[u8]) -> bool
    ensures { result ≡ list_any (λ t. bytes_eq t.name name.now) tables.now }
{
    tables.iter().any(|table| table.name.as_slice() == name)
}

/// Whether the table of this name has these columns, so that nothing is made beside a table of
/// another form.
fn has_columns(tables: &[Table], name: &[u8], columns: &[&[u8]]) -> bool {
    tables.iter().any(|table| {
        table.name.as_slice() == name
            && table.columns.len() == columns.len()
            && table
                .columns
                .as_slice()
                .iter()
                .zip(columns)
                .all(|(column, name)| column.name.as_slice() == *name)
    })
}

/// The columns of a table that is there must be ours.
fn accept(tables: &[Table], name: &[u8], columns: &[&[u8]]) -> Result<(), KeepError> {
    if has_columns(tables, name, columns) {
        Ok(())
    } else {
        Err(KeepError::Failed)
    }
}

fn create_profiles<S: Alter>(db: &mut Connection<S>) -> Result<usize, Error>
    ensures continues { Continues (state S.Store db.old) (state S.Store db.new) }
    ensures made { Lives (state S.Store db.new) → (a : Archive) →
        Settled HoldsNothing (state S.Store db.old) a →
        OnOk result (Settled HoldsSome (state S.Store db.new) a) }
    ensures err { Lives (state S.Store db.new) → (a : Archive) →
        Settled HoldsNothing (state S.Store db.old) a →
        OnErr result (Settled HoldsAny (state S.Store db.new) a) }
{
    db.execute(
        "CREATE TABLE profiles (bench TEXT NOT NULL, name TEXT NOT NULL, body BLOB NOT NULL, \
         PRIMARY KEY (bench, name)) STRICT",
        &[],
    )
}

fn create_captures<S: Alter>(db: &mut Connection<S>) -> Result<usize, Error>
    ensures continues { Continues (state S.Store db.old) (state S.Store db.new) }
    ensures made { Lives (state S.Store db.new) → (a : Archive) →
        Settled HoldsProfiles (state S.Store db.old) a →
        OnOk result (Settled Holds (state S.Store db.new) a) }
    ensures err { Lives (state S.Store db.new) → (a : Archive) →
        Settled HoldsProfiles (state S.Store db.old) a →
        OnErr result (Settled HoldsAny (state S.Store db.new) a) }
{
    db.execute(
        "CREATE TABLE captures (bench TEXT NOT NULL, label TEXT NOT NULL, profile TEXT NOT NULL, \
         body BLOB NOT NULL, PRIMARY KEY (bench, label), \
         FOREIGN KEY (bench, profile) REFERENCES profiles (bench, name)) STRICT",
        &[],
    )
}

fn want_profiles<S: Alter>(db: &mut Connection<S>) -> Result<(), KeepError>
    ensures continues { Continues (state S.Store db.old) (state S.Store db.new) }
    ensures made { Lives (state S.Store db.new) → (a : Archive) →
        Settled HoldsAny (state S.Store db.old) a →
        OnOk result (Settled HoldsSome (state S.Store db.new) a) }
    ensures err { Lives (state S.Store db.new) → (a : Archive) →
        Settled HoldsAny (state S.Store db.old) a →
        OnErr result (Settled HoldsAny (state S.Store db.new) a) }
{
    if has_table(db.schema().tables.as_slice(), b"profiles") {
        return accept(
            db.schema().tables.as_slice(),
            b"profiles",
            &[b"bench", b"name", b"body"],
        );
    }
    let _ = create_profiles(db)?;
    Ok(())
}

fn want_captures<S: Alter>(db: &mut Connection<S>) -> Result<(), KeepError>
    ensures continues { Continues (state S.Store db.old) (state S.Store db.new) }
    ensures made { Lives (state S.Store db.new) → (a : Archive) →
        Settled HoldsSome (state S.Store db.old) a →
        OnOk result (Settled Holds (state S.Store db.new) a) }
    ensures err { Lives (state S.Store db.new) → (a : Archive) →
        Settled HoldsSome (state S.Store db.old) a →
        OnErr result (Settled HoldsAny (state S.Store db.new) a) }
{
    if has_table(db.schema().tables.as_slice(), b"captures") {
        return accept(
            db.schema().tables.as_slice(),
            b"captures",
            &[b"bench", b"label", b"profile", b"body"],
        );
    }
    let _ = create_captures(db)?;
    Ok(())
}

/// Makes what is absent, and nothing within a transaction that somebody else began.
pub(crate) fn make_tables<S: Alter>(db: &mut Connection<S>) -> Result<(), KeepError>
    ensures continues { Continues (state S.Store db.old) (state S.Store db.new) }
    ensures made { Lives (state S.Store db.new) → (a : Archive) →
        Settled HoldsAny (state S.Store db.old) a →
        OnOk result (Settled Holds (state S.Store db.new) a) }
    ensures err { Lives (state S.Store db.new) → (a : Archive) →
        Settled HoldsAny (state S.Store db.old) a →
        OnErr result (Settled HoldsAny (state S.Store db.new) a) }
{
    if !db.is_autocommit() {
        return Err(KeepError::Failed);
    }
    want_profiles(db)?;
    want_captures(db)
}
