//! How replies are made.
ghost use Rattle.std.specs.Prelude.{◌≡◌, true};
ghost use Rattle.pl_head.specs.declared.status.Status.TheVariants.{UnprocessableEntity};
ghost use Rattle.pl_web.specs.Answer.{json as json_answer};
ghost use Rattle.pl_web.specs.Answers.{AnswersJson, AnswersWith, ended_of};
ghost use Rattle.pl_web.specs.Bodies.{error_body};
ghost use Rattle.pl_web.specs.Refusals.{body_of, status_of};
ghost use Rattle.pl_web.specs.Statuses.{is_answer};

use crate::bodies;
use crate::ended::Ended;
use crate::refusal::Refusal;
use crate::reply::Reply;
use pl_head::{Media, Status};
use pl_keeper::KeepError;
use std::alloc::{AllocError, Global};

/// A reply in JSON.
pub(crate) fn in_json(status: Status, body: Result<Vec<u8>, AllocError>) -> Result<Reply, Ended>
    requires { is_answer status ≡ true }
    ensures { AnswersJson status body result }
{
    match body {
        Ok(body) => Ok(Reply {
            status,
            media: Media::Json,
            body,
        }),
        Err(AllocError) => Err(Ended::Memory),
    }
}

/// A reply that names what is wrong.
pub(crate) fn error(alloc: Global, status: Status, name: &str) -> Result<Reply, Ended>
    requires { is_answer status ≡ true }
    ensures { AnswersWith (json_answer status (error_body name.now)) result }
{
    in_json(status, bodies::error(alloc, name))
}

/// A reply to a body that can't be stored as it is.
pub(crate) fn unprocessable(body: Result<Vec<u8>, AllocError>) -> Result<Reply, Ended>
    ensures { AnswersJson UnprocessableEntity body result }
{
    in_json(Status::UnprocessableEntity, body)
}

/// The reply to a request that is refused before anything is looked up.
#[tactic(auto, using(crate::proofs::Refused::refusals_answer))]
pub(crate) fn refuse(alloc: Global, refusal: Refusal) -> Result<Reply, Ended>
    ensures { AnswersWith (json_answer (status_of refusal) (body_of refusal)) result }
{
    in_json(refusal.status(), refusal.body(alloc))
}

/// Why a keeper has no answer.
pub(crate) fn ended_by(error: KeepError) -> Ended
    ensures { result ≡ ended_of error }
{
    match error {
        KeepError::Failed => Ended::Store,
        KeepError::Memory => Ended::Memory,
    }
}
