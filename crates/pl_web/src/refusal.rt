//! Requests that are refused before anything is looked up, and the replies to them.
ghost use Rattle.std.specs.Prelude.{◌≡◌, IfOk};
ghost use Rattle.pl_web.specs.Refusals.{body_of, status_of};

use crate::bodies;
use pl_head::{Method, Status};
use std::alloc::{AllocError, Global};

/// The most bytes of a body.
pub const LONGEST_BODY: u64 = 4_194_304;

/// Why a request is refused before anything is looked up.
#[derive(Clone, Copy, Debug, PartialEq, Eq)]
pub enum Refusal {
    /// The fields of its head don't say in one way how its body is framed.
    Framing,
    /// Its path has no route.
    Route,
    /// Its route has this method alone.
    WrongMethod(Method),
    /// A name in its path isn't one.
    Name,
    /// The rule in its path isn't one of the 49.
    NoRule,
    /// It has a body, and no length of it.
    NoLength,
    /// Its body is longer than 4,194,304 bytes.
    TooLong,
}

impl Refusal {
    /// The status of the reply.
    pub fn status(self) -> Status
        ensures { result ≡ status_of self }
    {
        match self {
            Refusal::Framing | Refusal::Name => Status::BadRequest,
            Refusal::Route | Refusal::NoRule => Status::NotFound,
            Refusal::WrongMethod(method) => Status::MethodNotAllowed(method),
            Refusal::NoLength => Status::LengthRequired,
            Refusal::TooLong => Status::PayloadTooLarge,
        }
    }

    /// The body of the reply, in JSON. It takes memory, and answers otherwise only for want of it.
    pub fn body(self, alloc: Global) -> Result<Vec<u8>, AllocError>
        ensures { IfOk result (λ body. body.items ≡ body_of self) }
    {
        match self {
            Refusal::Framing => bodies::error(alloc, "form"),
            Refusal::Route => bodies::error(alloc, "route"),
            Refusal::WrongMethod(_) => bodies::error(alloc, "method"),
            Refusal::Name => bodies::error(alloc, "name"),
            Refusal::NoRule => bodies::error(alloc, "rule"),
            Refusal::NoLength => bodies::error(alloc, "length required"),
            Refusal::TooLong => bodies::limit(alloc, "limit", LONGEST_BODY),
        }
    }
}
