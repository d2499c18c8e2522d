//! What a put says of bytes that are already there.
ghost use Rattle.std.specs.Prelude.{◌≡◌};
ghost use Rattle.pl_keeper.specs.Puts.{compared, first_difference};

use crate::keeper::Put;

/// The first place where one of the two has another byte or has ended.
fn first_difference(old: &[u8], new: &[u8]) -> u64
    ensures { result ≡ first_difference old.now new.now }
{
    let mut place = 0;
    'bytes: while place < old.len() && place < new.len() {
        if old[place] != new[place] {
            return place as u64;
        }
        place += 1;
    }
    place as u64
}

/// `Same`, or `OtherBytes` with the old length and the first place where the two differ.
pub(crate) fn compared(old: &[u8], new: &[u8]) -> Put
    ensures { result ≡ compared old.now new.now }
{
    if old == new {
        Put::Same
    } else {
        Put::OtherBytes {
            length: old.len() as u64,
            place: first_difference(old, new),
        }
    }
}
