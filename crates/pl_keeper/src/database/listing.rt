//! The lines of a bench's captures, from the rows of their listing.
ghost use Rattle.std.specs.Prelude.{List, ◌≡◌, map, length, string_bytes, IfOk};
ghost use Rattle.sqlite.specs.Order.{column};
ghost use Rattle.sqlite_value.specs.Order.{bytes};
ghost use Rattle.sqlite.specs.Held.{state};
ghost use Rattle.pl_keeper.specs.Archive.{Archive, captures_of};
ghost use Rattle.pl_keeper.specs.Listing.{Lists, Ascends};
ghost use Rattle.pl_keeper.specs.Rows.{Holds};
ghost use Rattle.pl_keeper.specs.Settled.{Lives, Continues, Settled, line_in};

use crate::database::found::body_at;
use crate::error::KeepError;
use crate::keeper::KeyRow;
use sqlite::{Alter, Connection, Row, params};
use std::alloc::Global;

fn string_at(row: &Row, place: usize) -> Result<String, KeepError>
    ensures { IfOk result (λ text. string_bytes text ≡ bytes (column row.now place)) }
{
    match row.get::<String>(place) {
        Ok(text) => Ok(text),
        Err(error) => Err(KeepError::from(error)),
    }
}

/// The line of a row. It keeps the length of the body, and not the body.
fn line(row: &Row) -> Result<KeyRow, KeepError>
    ensures { IfOk result (λ line. line ≡ line_in row.now) }
{
    Ok(KeyRow {
        key: string_at(row, 0)?,
        profile: string_at(row, 1)?,
        length: body_at(row, 2)?.len() as u64,
    })
}

/// The captures of a bench, in ascending order of key. The rows are taken one at a time, to the
/// end.
pub(crate) fn list_captures<S: Alter>(
    alloc: Global,
    db: &mut Connection<S>,
    bench: &str,
) -> Result<Vec<KeyRow>, KeepError>
    ensures continues { Continues (state S.Store db.old) (state S.Store db.new) }
    ensures listed { Lives (state S.Store db.new) → (a : Archive) →
        Settled Holds (state S.Store db.old) a →
        IfOk result (λ rows. Lists (captures_of a bench.now) rows.items) }
    ensures ascending { Lives (state S.Store db.new) → (a : Archive) →
        Settled Holds (state S.Store db.old) a → IfOk result (λ rows. Ascends rows.items) }
    ensures kept { Lives (state S.Store db.new) → (a : Archive) →
        Settled Holds (state S.Store db.old) a → Settled Holds (state S.Store db.new) a }
{
    let mut lines = Vec::new(alloc);
    let mut rows = db.query(
        "SELECT label, profile, body FROM captures WHERE bench = ?1 ORDER BY label",
        params![bench],
    )?;
    'rows: for _ in 0..u64::MAX {
        let Some(row) = rows.next()? else {
            return Ok(lines);
        };
        lines.push(line(row)?)?;
    }
    Err(KeepError::Failed)
}
