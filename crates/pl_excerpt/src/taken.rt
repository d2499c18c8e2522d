//! TLPs by their places among those that were taken.
use pl_base::Dir;

/// A TLP that was taken: its direction, its run, and its place in the run, from 0. Runs are counted
/// over the whole capture.
#[derive(Clone, Copy)]
pub(crate) struct Taken {
    pub(crate) dir: Dir,
    pub(crate) run: u64,
    pub(crate) place: u64,
}

/// So many taken TLPs of one run from a place on.
#[derive(Clone, Copy)]
pub(crate) struct Stretch {
    pub(crate) dir: Dir,
    pub(crate) run: u64,
    pub(crate) from: u64,
    pub(crate) count: u64,
}

impl Stretch {
    /// Whether the TLP is one of them.
    pub(crate) fn has(&self, tlp: &Taken) -> bool {
        self.dir == tlp.dir
            && self.run == tlp.run
            && self.from <= tlp.place
            && tlp.place - self.from < self.count
    }
}
