//! Requests and completions, item by item.
//! PCI Express Base Specification 5.0, chapter 2: transaction descriptor, completion rules.
ghost use Rattle.std.specs.Prelude.{◌≡◌, ◌+◌, ◌≤◌, ◌++◌, List, None, Some};
ghost use Rattle.arrayvec.specs.ArrayVec.{array_vec_len};
ghost use Rattle.pl_tlp.specs.Fit.{Fits};
ghost use Rattle.pl_pair.specs.History.{Event};
ghost use Rattle.pl_pair.specs.Pairs.{StandsFor, room_of};
ghost use Rattle.pl_pair.specs.Rules.{pair_verdicts};
ghost use Rattle.pl_engine.specs.Parts.{IsTakable};
ghost use Rattle.pl_engine.specs.Events.{transaction_of, with_event};
ghost use Rattle.pl_engine.specs.Verdicts.{broken_by, refused_by};

use crate::refused::Refused;
use pl_base::{Dir, Found, MOST_VERDICTS};
use pl_pair::{MOST_OF_A_COMPLETION, Pairs};
use pl_profile::Profile;
use pl_tlp::Packet;

/// Why a well-formed TLP that would be taken isn't judged, if it isn't: it is a request, sure to be
/// a new one, for which there is no room among the open ones.
pub(crate) fn refusal<P: Packet>(
    pairs: &Pairs,
    profile: &Profile,
    dir: Dir,
    sure: bool,
    tlp: &P,
) -> Option<Refused>
    requires room { room_of pairs.now ≡ profile.now.outstanding }
    requires fits { Fits (P.fields tlp.now) }
    ensures past { (past : List Event) → StandsFor pairs.now past →
        result ≡ refused_by profile.now past dir sure (Some (P.fields tlp.now)) }
    ensures takable { result ≡ None → IsTakable pairs.now dir sure (P.fields tlp.now) }
{
    if sure && pairs.full_for(dir, tlp) {
        return Some(Refused::Outstanding(profile.outstanding));
    }
    None
}

/// A well-formed TLP that is taken comes as number `at`: C1 to C10, behind what was found before.
/// It is a transaction's where it is a request that needs a completion and is sure to be a new one,
/// or a completion.
pub(crate) fn transact<P: Packet>(
    pairs: &mut Pairs,
    profile: &Profile,
    dir: Dir,
    sure: bool,
    tlp: &P,
    at: u64,
    found: &mut Found,
)
    requires takable { IsTakable pairs.old dir sure (P.fields tlp.now) }
    requires fits { Fits (P.fields tlp.now) }
    requires few { array_vec_len found.old + MOST_OF_A_COMPLETION ≤ MOST_VERDICTS }
    ensures verdicts { (past : List Event) → StandsFor pairs.old past →
        found.new.items ≡ found.old.items ++ broken_by (pair_verdicts profile.now past)
        (transaction_of dir sure (Some (P.fields tlp.now)) at) }
    ensures stands { (past : List Event) → StandsFor pairs.old past →
        StandsFor pairs.new
        (with_event (transaction_of dir sure (Some (P.fields tlp.now)) at) past) }
    ensures few { array_vec_len found.new ≤ array_vec_len found.old + MOST_OF_A_COMPLETION }
    ensures room { room_of pairs.new ≡ room_of pairs.old }
{
    if tlp.kind().needs_completion() {
        if sure {
            pairs.request_into(dir, tlp, at, found);
        }
    } else if tlp.kind().is_completion() {
        pairs.completion_into(profile, dir, tlp, at, found);
    }
}
