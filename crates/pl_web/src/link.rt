//! One link of a door.
ghost use Rattle.std.specs.Prelude.{◌≡◌, ◌≢◌, ◌<◌, ◌≤◌, ◌∷◌, List, ℕ, true, false, Some};
ghost use Rattle.std.specs.Prelude.{IfOk, OnErr};
ghost use Rattle.std.specs.Prelude.{IsErr, IsOk, []};
ghost use Rattle.pl_io.specs.Faults.{HasCause, Rose};
ghost use Rattle.pl_io.specs.Links.{Coming, NoneLeft};
ghost use Rattle.pl_web.specs.Turns.{Serves, line_of};

use crate::routes::Routes;
use crate::serve::{Served, serve_one};
use pl_io::{Door, Failed};
use pl_keeper::Keeper;
use std::alloc::Global;

impl Served {
    /// The status of the reply, or 0 where none was sent whole.
    pub fn line(self) -> u16
        ensures { result ≡ line_of self }
    {
        if self.sent { self.status } else { 0 }
    }
}

/// Serves the next link of a door and closes it. It may wait for a peer.
///
/// After `Failed` the door gave no link, its count of faults rose, and the keeper is as it was.
pub fn serve_link<D: Door, K: Keeper>(
    alloc: Global,
    routes: &Routes,
    door: &mut D,
    keeper: &mut K,
) -> Result<Served, Failed>
    requires { D.is_out door.old ≡ false }
    ensures in_again { D.is_out door.new ≡ false }

    // Where the door tells its links, the next one is served as it should be.
    ensures serves { (link : Coming) (others : List Coming) →
        D.links door.old ≡ Some (link ∷ others) →
        IfOk result (Serves link (K.lives keeper.new) (K.tells keeper.old) (K.tells keeper.new)
        (K.faults keeper.old) (K.faults keeper.new) (D.replies door.old) (D.replies door.new)) }

    // Where the door tells its links, it fails only where none is left, and one is taken of them.
    ensures gives { (link : Coming) (others : List Coming) →
        D.links door.old ≡ Some (link ∷ others) →
        IsOk result × (D.links door.new ≡ Some others) }
    ensures empty { D.links door.old ≡ Some [] → IsErr result }
    ensures none_left { OnErr result (NoneLeft (D.links door.old)) }
    ensures unserved { OnErr result (keeper.new ≡ keeper.old) }
    ensures unclosed { OnErr result (D.replies door.new ≡ D.replies door.old) }

    ensures small { IfOk result (λ served. served.status < 1000) }
    ensures store { IfOk result (λ served. served.status ≡ 503 →
        Rose (K.faults keeper.old) (K.faults keeper.new)) }
    ensures kept { IfOk result (λ served. served.status ≢ 503 →
        K.faults keeper.new ≡ K.faults keeper.old) }
    ensures sure { K.sure keeper.old ≡ true →
        IfOk result (λ served. served.status ≢ 503) × (K.sure keeper.new ≡ true) }
    ensures lived { K.lives keeper.new → K.lives keeper.old }
    ensures keeper_falls { K.faults keeper.old ≤ K.faults keeper.new }
    ensures cause { HasCause (D.faults door.old) (D.faults door.new) result }
    ensures never_falls { D.faults door.old ≤ D.faults door.new }
{
    let mut link = door.next()?;
    let served = serve_one(alloc, routes, &mut link, keeper);
    door.close(link);
    Ok(served)
}
