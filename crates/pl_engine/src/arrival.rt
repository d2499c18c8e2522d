//! How an item came.
//! PCI Express Base Specification 5.0, chapter 3: sequence numbers, nullified TLPs.

use pl_base::Body;
use pl_seq::Place;

/// How an item came: a TLP in this way, which stands here in the order of its direction, a DLLP, a
/// link down or a gap.
#[derive(Clone, Copy)]
pub(crate) enum Arrival {
    Tlp(Body, Place),
    Dllp,
    LinkDown,
    Gap,
}
