//! The profile of a command: the usual one, or that of a file.
ghost use Rattle.std.specs.Prelude.{◌≡◌, ◌⊎◌, List, ℕ, Some, true, IsSome, IfErr, IfOk};
ghost use Rattle.pl_io.specs.Told.{ahead};
ghost use Rattle.pl_profile.specs.ProfileOf.{profile_of};
ghost use Rattle.pl_cli.specs.Promise.{IsBegun};
ghost use Rattle.pl_cli.specs.Source.{IfReadable, IfUnreadable, IsNamed, IsOfText, IsReadable};
ghost use Rattle.pl_cli.specs.Source.{IsText, ProfileCame, ProfileCause};

use crate::capture::read_front;
use pl_io::Shelf;
use pl_profile::{Profile, ProfileError};
use std::alloc::Global;

/// A text that is one byte longer than a profile's can be, and so is refused.
const MOST_BYTES: usize = 65_537;

/// Why there is no profile.
#[derive(Clone, Copy, Debug, PartialEq, Eq)]
pub(crate) enum NoProfile {
    /// Its file couldn't be opened or read.
    Unreadable,
    /// Its text is refused, or memory was wanting.
    Refused(ProfileError),
}

/// The profile that a word of the command line names: `-` names the usual one, any other word a
/// file.
pub(crate) fn profile_named<H: Shelf>(
    alloc: Global,
    name: &str,
    shelf: &mut H,
) -> Result<Profile, NoProfile>
    ensures came { ProfileCame H.Shelf name.now shelf.old shelf.new result }
{
    if name == "-" {
        return Ok(Profile::usual());
    }
    match shelf.open(name) {
        Ok(()) => profile_in(alloc, shelf),
        Err(_) => Err(NoProfile::Unreadable),
    }
}

/// The profile whose text the open file is.
fn profile_in<H: Shelf>(alloc: Global, shelf: &mut H) -> Result<Profile, NoProfile>
    requires opened { H.is_open shelf.old ≡ true }
    ensures of_text { IsOfText result (H.rest shelf.old) }
    ensures still_told { H.told shelf.new ≡ H.told shelf.old }
    ensures files { (other : List ℕ) → H.file shelf.new other ≡ H.file shelf.old other }
    ensures never_fails { H.sure shelf.old ≡ true → IsReadable result }
    ensures still_sure { IfReadable result (H.sure shelf.old ≡ true → H.sure shelf.new ≡ true) }
    ensures opened { H.is_open shelf.new ≡ true }
    ensures opens { H.opens shelf.new ≡ H.opens shelf.old }
    ensures name_kept { H.open_name shelf.new ≡ H.open_name shelf.old }
    ensures unread { IfUnreadable result ((read : List ℕ)
        × (H.rest shelf.old ≡ ahead read (H.rest shelf.new))) }
    ensures begun { IsSome (H.rest shelf.old) →
        IfReadable result (IsBegun (H.rest shelf.old) (H.rest shelf.new)) }
    ensures cause { ProfileCause result (H.faults shelf.old) (H.faults shelf.new) }
{
    match read_text(alloc, shelf) {
        Ok(text) => profile_from(alloc, &text),
        Err(none) => Err(none),
    }
}

/// The profile that a text describes.
fn profile_from(alloc: Global, text: &[u8]) -> Result<Profile, NoProfile>
    ensures named { IsNamed (Some (profile_of text.now)) result }
    ensures readable { IsReadable result }
{
    match Profile::read(alloc, text) {
        Ok(profile) => Ok(profile),
        Err(error) => Err(NoProfile::Refused(error)),
    }
}

/// The text of the open file, or its front that is too long for a profile.
fn read_text<H: Shelf>(alloc: Global, shelf: &mut H) -> Result<Vec<u8>, NoProfile>
    requires opened { H.is_open shelf.old ≡ true }
    ensures text { IfOk result (λ text. IsText text.items (H.rest shelf.old) (H.rest shelf.new)) }
    ensures memory { IfErr result (λ none.
        (none ≡ NoProfile.Unreadable) ⊎ (none ≡ NoProfile.Refused ProfileError.Memory)) }
    ensures still_told { H.told shelf.new ≡ H.told shelf.old }
    ensures files { (other : List ℕ) → H.file shelf.new other ≡ H.file shelf.old other }
    ensures never_fails { H.sure shelf.old ≡ true → IsReadable result }
    ensures still_sure { IfReadable result (H.sure shelf.old ≡ true → H.sure shelf.new ≡ true) }
    ensures opened { H.is_open shelf.new ≡ true }
    ensures opens { H.opens shelf.new ≡ H.opens shelf.old }
    ensures name_kept { H.open_name shelf.new ≡ H.open_name shelf.old }
    ensures unread { IfUnreadable result ((read : List ℕ)
        × (H.rest shelf.old ≡ ahead read (H.rest shelf.new))) }
    ensures begun { IsSome (H.rest shelf.old) →
        IfReadable result (IsBegun (H.rest shelf.old) (H.rest shelf.new)) }
    ensures cause { ProfileCause result (H.faults shelf.old) (H.faults shelf.new) }
{
    let mut text = Vec::new(alloc);
    let mut buffer = [0; 4096];
    while text.len() < MOST_BYTES {
        let most = (MOST_BYTES - text.len()).min(buffer.len());
        let count = match read_front(shelf, &mut buffer, most) {
            Ok(count) => count,
            Err(_) => return Err(NoProfile::Unreadable),
        };
        if count == 0 {
            return Ok(text);
        }
        match text.extend_from_slice(&buffer[..count]) {
            Ok(()) => {}
            Err(_) => return Err(NoProfile::Refused(ProfileError::Memory)),
        }
    }
    Ok(text)
}
