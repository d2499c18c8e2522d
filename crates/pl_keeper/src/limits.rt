//! How much a bench may keep.

/// The most bytes of a profile or of a capture.
pub const LONGEST_BODY: usize = 4_194_304;

/// The most profiles of one bench.
pub const MOST_PROFILES: usize = 16;

/// The most captures of one bench.
pub const MOST_CAPTURES: usize = 64;
