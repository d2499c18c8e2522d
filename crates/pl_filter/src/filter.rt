//! What a filter is.
use crate::name::Name;

/// A filter: a test, or what is made of others.
#[derive(Debug, Drop)]
pub enum Filter {
    /// Both hold.
    And(Box<Filter>, Box<Filter>),
    /// At least one of them holds.
    Or(Box<Filter>, Box<Filter>),
    /// It doesn't hold.
    Not(Box<Filter>),
    Is(Test),
}

/// A test of one item.
#[derive(Clone, Copy, Debug, PartialEq, Eq)]
pub enum Test {
    /// Every item.
    Any,
    /// A TLP or DLLP towards the Root Complex.
    Up,
    /// A TLP or DLLP away from the Root Complex.
    Down,
    Tlp,
    Dllp,
    LinkDown,
    /// A TLP whose LCRC or end is wrong and that isn't nullified, or a DLLP whose CRC is wrong.
    Spoiled,
    /// A TLP that its sender nullified.
    Nullified,
    /// An item of this name.
    Kind(Name),
    /// A TLP with this sequence number, however it arrived.
    Number(u64),
    /// A whole TLP of the right size with this Tag, 0 to 1,023.
    Tag(u64),
    /// A whole TLP of the right size with this Requester ID, 0 to 65,535.
    Requester(u64),
    /// A whole TLP of the right size with this Traffic Class, 0 to 7.
    Tc(u64),
    /// An item whose time in picoseconds is less.
    Before(u64),
    /// An item whose time in picoseconds is greater.
    After(u64),
}
