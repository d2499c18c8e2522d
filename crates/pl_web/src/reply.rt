//! A reply.
ghost use Rattle.std.specs.Prelude.{◌≡◌, true};
ghost use Rattle.pl_web.specs.Statuses.{is_answer};

use pl_head::{Media, Status};

/// What is answered from the request and the rows.
#[derive(Debug, Drop)]
pub struct Reply {
    pub status: Status,
    pub media: Media,
    pub body: Vec<u8>,
    ghost answers: { is_answer status ≡ true },
}
