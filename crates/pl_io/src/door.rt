//! Connections, one after another.
ghost use Rattle.std.specs.Prelude.{◌≡◌, ◌<◌, ◌≤◌, List, ℕ, Bool, true, false};
ghost use Rattle.std.specs.Prelude.{Option, IfOk, OnOk, OnErr, IsSome};
ghost use Rattle.pl_io.specs.Faults.{HasCause, last_count};
ghost use Rattle.pl_io.specs.Links.{Coming, Closed, Gives, NoneLeft};

use crate::conn::Conn;
use crate::failed::Failed;

/// Gives one link after another, of which at most one is out.
pub trait Door {
    type Link: Conn + Drop;

    /// The links to come, where they are told.
    ghost links: { Self → Option (List Coming) };

    /// What each of the closed links had written, in the order of closing, where it is told.
    ghost replies: { Self → Option (List (List ℕ)) };

    /// Whether a link is out. This is always told.
    ghost is_out: { Self → Bool };

    /// How often `next` has failed.
    ghost faults: { Self → ℕ };

    /// Gives the next link. It may wait for a peer.
    ///
    /// After `Failed` no link is out. Where the links to come are told, it fails exactly where none
    /// is left.
    fn next(&mut self) -> Result<Self::Link, Failed>
        requires { is_out self.old ≡ false }
        ensures out { OnOk result (is_out self.new ≡ true) }
        ensures not_out { OnErr result (is_out self.new ≡ false) }
        ensures gives { IfOk result (λ link. Gives (links self.old) (links self.new)
            (Self.Link.incoming link) (Self.Link.written link) (Self.Link.room link)) }
        ensures none_left { OnErr result (NoneLeft (links self.old)) }
        ensures replies { replies self.new ≡ replies self.old }
        ensures cause { HasCause (faults self.old) (faults self.new) result }
        ensures never_falls { faults self.old ≤ faults self.new };

    /// Takes a link back and closes it. It takes no memory and doesn't fail.
    fn close(&mut self, link: Self::Link)
        requires { is_out self.old ≡ true }
        ensures in_again { is_out self.new ≡ false }
        ensures links { links self.new ≡ links self.old }
        ensures replies { Closed (replies self.old) (Self.Link.written link) (replies self.new) }
        ensures faults { faults self.new ≡ faults self.old };

    /// Where the links to come are told, the count is below its last value.
    ghost links_are_below: { (door : Self) → IsSome (links door) → faults door < last_count };
}
