//! What the rows of a look-up say.
ghost use Rattle.std.specs.Prelude.{List, ◌≡◌, ◌≤◌, [], ◌∷◌, map, length, slice_get, option_map};
ghost use Rattle.std.specs.Prelude.{IfOk, IfSome, IfNone};
ghost use Rattle.std.specs.List.Sorted.{IsPermutation};
ghost use Rattle.sqlite.specs.declared.types.Value.TheVariants.{Text, Blob};
ghost use Rattle.sqlite.specs.Order.{column};
ghost use Rattle.pl_keeper.specs.Archive.{Profile, Capture, longest_body};
ghost use Rattle.pl_keeper.specs.Settled.{body_of, owner_and_body};
ghost use Rattle.pl_keeper.specs.Puts.{compared, compared_capture};
ghost use Rattle.pl_keeper.specs.Listing.{found_of};

use crate::compare::compared;
use crate::error::KeepError;
use crate::keeper::{Put, Stored};
use crate::limits::LONGEST_BODY;
use sqlite::Row;
use sqlite::types::ValueRef;
use std::alloc::Global;

/// The only row, where there is one. No key has two rows, so more than one is a fault.
pub(crate) fn only_row(rows: &[Row]) -> Result<Option<&Row>, KeepError>
    ensures none { IfOk result (λ found. IfNone found (rows.now ≡ [])) }
    ensures one { IfOk result (λ found. IfSome found (λ row. rows.now ≡ row.now ∷ [])) }
{
    match rows {
        [] => Ok(None),
        [row] => Ok(Some(row)),
        _ => Err(KeepError::Failed),
    }
}

/// The bytes of a profile or of a capture. No put makes a longer body, so one is a fault.
pub(crate) fn body_at(row: &Row, place: usize) -> Result<&[u8], KeepError>
    ensures value { IfOk result (λ bytes. column row.now place ≡ Blob bytes.now) }
    ensures short { IfOk result (λ bytes. length bytes.now ≤ longest_body) }
{
    match row.get_ref(place) {
        Ok(ValueRef::Blob(bytes)) if bytes.len() <= LONGEST_BODY => Ok(bytes),
        _ => Err(KeepError::Failed),
    }
}

fn text_at(row: &Row, place: usize) -> Result<&[u8], KeepError>
    ensures { IfOk result (λ bytes. column row.now place ≡ Text bytes.now) }
{
    match row.get_ref(place) {
        Ok(ValueRef::Text(bytes)) => Ok(bytes),
        _ => Err(KeepError::Failed),
    }
}

/// The body that a look-up of a profile found.
pub(crate) fn found_profile(alloc: Global, rows: &[Row]) -> Result<Option<Vec<u8>>, KeepError>
    ensures found { (ps : List Profile) → IsPermutation (map body_of ps) rows.now →
        IfOk result (λ found. option_map (λ bytes. bytes.items) found ≡ option_map
        (λ p. p.bytes) (slice_get ps 0)) }
    ensures short { IfOk result (λ found. IfSome found
        (λ bytes. length bytes.items ≤ longest_body)) }
{
    let Some(row) = only_row(rows)? else {
        return Ok(None);
    };
    Ok(Some(body_at(row, 0)?.to_vec(alloc)?))
}

/// What a put answers where the profile is there.
pub(crate) fn put_over_profile(rows: &[Row], bytes: &[u8]) -> Result<Option<Put>, KeepError>
    ensures { (ps : List Profile) → IsPermutation (map body_of ps) rows.now →
        IfOk result (λ put. put ≡ option_map (λ p. compared p.bytes bytes.now) (slice_get ps 0)) }
{
    let Some(row) = only_row(rows)? else {
        return Ok(None);
    };
    Ok(Some(compared(body_at(row, 0)?, bytes)))
}

fn stored(alloc: Global, row: &Row) -> Result<Stored, KeepError>
    ensures found { (c : Capture) → row.now ≡ owner_and_body c →
        IfOk result (λ stored. stored ≡ found_of c) }
    ensures short { IfOk result (λ stored. length stored.bytes ≤ longest_body) }
{
    let profile = match row.get::<String>(0) {
        Ok(profile) => profile,
        Err(error) => return Err(KeepError::from(error)),
    };
    let bytes = body_at(row, 1)?.to_vec(alloc)?;
    Ok(Stored { profile, bytes })
}

/// The capture that a look-up found.
pub(crate) fn found_capture(alloc: Global, rows: &[Row]) -> Result<Option<Stored>, KeepError>
    ensures found { (cs : List Capture) → IsPermutation (map owner_and_body cs) rows.now →
        IfOk result (λ found. found ≡ option_map found_of (slice_get cs 0)) }
    ensures short { IfOk result (λ found. IfSome found
        (λ stored. length stored.bytes ≤ longest_body)) }
{
    let Some(row) = only_row(rows)? else {
        return Ok(None);
    };
    Ok(Some(stored(alloc, row)?))
}

fn compared_capture(row: &Row, profile: &str, bytes: &[u8]) -> Result<Put, KeepError>
    ensures { (c : Capture) → row.now ≡ owner_and_body c →
        IfOk result (λ put. put ≡ compared_capture c profile.now bytes.now) }
{
    if text_at(row, 0)? == profile.as_bytes() {
        Ok(compared(body_at(row, 1)?, bytes))
    } else {
        Ok(Put::OtherProfile)
    }
}

/// What a put answers where the capture is there.
pub(crate) fn put_over_capture(
    rows: &[Row],
    profile: &str,
    bytes: &[u8],
) -> Result<Option<Put>, KeepError>
    ensures { (cs : List Capture) → IsPermutation (map owner_and_body cs) rows.now →
        IfOk result (λ put. put ≡ option_map
        (λ c. compared_capture c profile.now bytes.now) (slice_get cs 0)) }
{
    let Some(row) = only_row(rows)? else {
        return Ok(None);
    };
    Ok(Some(compared_capture(row, profile, bytes)?))
}
