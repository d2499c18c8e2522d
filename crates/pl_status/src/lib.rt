//! The exit statuses of the program, by which the contracts name them too.
#![tactic(auto)]

/// The capture was read to its end and no rule is broken.
pub const CLEAN: u8 = 0;
/// The capture was read to its end and a rule is broken.
pub const BROKEN: u8 = 1;
/// The command line is faulty.
pub const USAGE: u8 = 2;
/// The text of the profile is refused.
pub const PROFILE: u8 = 3;
/// A record or the header of the capture is malformed, or its end is missing.
pub const MALFORMED: u8 = 4;
/// The capture passes a limit.
pub const LIMIT: u8 = 5;
/// The capture is of a form that isn't judged.
pub const UNSUPPORTED: u8 = 6;
/// A file couldn't be opened or read.
pub const READ_FAULT: u8 = 7;
/// The output couldn't be written.
pub const WRITE_FAULT: u8 = 8;
/// Memory was wanting.
pub const NO_MEMORY: u8 = 9;
/// A call of the archive's keeper failed.
pub const STORE_FAULT: u8 = 10;
/// The door gave no link.
pub const DOOR_FAULT: u8 = 11;
/// The text of the filter is refused.
pub const FILTER: u8 = 12;
/// A packet of a file that is merged travels in the direction of the other one.
pub const WRONG_DIRECTION: u8 = 15;
/// A time of a file that is merged is less than that of the item before it.
pub const FALLEN_TIME: u8 = 16;
