//! The watch as a trait.

/// Tells whether a store is where it was.
pub trait Watch {
    ghost use Rattle.std.specs.Prelude.{◌≡◌, Bool, Option, Some};

    /// Whether the next look finds the store there, where that is told. A watch over the system
    /// tells nothing.
    ghost finds: { Self → Option Bool };

    /// Whether the store is still there.
    fn is_there(&mut self) -> bool
        ensures { (there : Bool) → finds self.old ≡ Some there → result ≡ there };
}
