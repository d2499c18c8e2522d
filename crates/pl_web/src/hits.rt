//! What a request for the hits of a rule is answered from the rows. No row changes.
ghost use Rattle.std.specs.Prelude.{◌≡◌, ◌≤◌};
ghost use Rattle.pl_keeper.specs.Archive.{Archive};
ghost use Rattle.pl_web.specs.Answers.{Answers, AnswersWith};
ghost use Rattle.pl_web.specs.Ended.{KeeperCause, OfKeeper, StaysSure};
ghost use Rattle.pl_web.specs.Hits.{found_answer, hits_shown};
ghost use Rattle.pl_web.specs.Searched.{AnswersError};

use crate::bodies;
use crate::ended::Ended;
use crate::judging::refuse_stop;
use crate::replies::{in_json, unprocessable};
use crate::reply::Reply;
use pl_base::Rule;
use pl_head::Status;
use pl_keeper::Keeper;
use pl_search::{Search, SearchError, search};
use std::alloc::Global;

/// The reply to a search that has an answer.
fn show_found(alloc: Global, bench: &str, rule: Rule, search: &Search) -> Result<Reply, Ended>
    ensures { AnswersWith (found_answer bench.now rule search.now) result }
{
    in_json(Status::Success, bodies::hits(alloc, bench, rule, search))
}

/// The reply to one that has none, if it is to have a reply.
fn refuse_search(alloc: Global, error: SearchError) -> Result<Reply, Ended>
    ensures { AnswersError error result }
{
    match error {
        SearchError::Store => Err(Ended::Store),
        SearchError::Profile { number, .. } => {
            unprocessable(bodies::numbered(alloc, "profile", u64::from(number)))
        }
        SearchError::Capture { stop, .. } => refuse_stop(alloc, stop),
        SearchError::Memory => Err(Ended::Memory),
    }
}

/// Where the captures of a bench break a rule: how often, and the first 10,000 hits, by key.
pub(crate) fn show_hits<K: Keeper>(
    alloc: Global,
    keeper: &mut K,
    bench: &str,
    rule: Rule,
) -> Result<Reply, Ended>
    ensures answers { K.lives keeper.new → (a : Archive) → K.tells keeper.old a →
        Answers (hits_shown a bench.now rule) a (K.tells keeper.new) result }
    ensures lived { K.lives keeper.new → K.lives keeper.old }
    ensures whose { OfKeeper result }
    ensures cause { KeeperCause (K.faults keeper.old) (K.faults keeper.new) result }
    ensures never_falls { K.faults keeper.old ≤ K.faults keeper.new }
    ensures sure { StaysSure (K.sure keeper.old) (K.sure keeper.new) result }
{
    match search(alloc, keeper, bench, rule) {
        Ok(found) => show_found(alloc, bench, rule, &found),
        Err(error) => refuse_search(alloc, error),
    }
}
