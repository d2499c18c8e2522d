//! What follows for many requests. These functions do nothing: their contracts are the laws.
ghost use Rattle.std.specs.Prelude.{◌≡◌, ◌≢◌, ℕ, List, true, false, Some};
ghost use Rattle.pl_head.specs.Front.{Front};
ghost use Rattle.pl_keeper.specs.Archive.{Archive};
ghost use Rattle.pl_web.specs.Answer.{Answer};
ghost use Rattle.pl_web.specs.Laws.{ActsOnce, AgreeFor, AgreeOn, Grows, bench_of, is_created};
ghost use Rattle.pl_web.specs.Laws.{is_stored, is_upload};
ghost use Rattle.pl_web.specs.Outcome.{outcome, outcome_of};
ghost use Rattle.pl_web.specs.Requests.{Asked};

/// A reply depends on the rows of its own bench alone, and the rows of other benches stay.
pub fn own_bench()
    ensures reply { (a b : Archive) (rest : List ℕ) (asked : Asked) → AgreeFor asked a b →
        (outcome_of a rest asked).answer ≡ (outcome_of b rest asked).answer }
    ensures others { (a : Archive) (rest : List ℕ) (asked : Asked) (other : List ℕ) →
        bench_of asked ≢ Some other → AgreeOn other a (outcome_of a rest asked).rows }
{}

/// No request changes a row or removes one, and so no list of requests does.
pub fn rows_stay()
    ensures one { (a : Archive) (text : List ℕ) (front : Front) →
        Grows a (outcome a text front).rows }
    ensures more { (a b c : Archive) → Grows a b → Grows b c → Grows a c }
{}

/// Only 201 adds a row.
pub fn only_created_adds()
    ensures { (a : Archive) (text : List ℕ) (front : Front) →
        is_created (outcome a text front).answer ≡ false → (outcome a text front).rows ≡ a }
{}

/// A repeated upload acts once, whatever was asked in between: no row is ever changed or removed.
pub fn acts_once()
    ensures { (old now : Archive) (rest : List ℕ) (asked : Asked) (answer : Answer) →
        is_upload asked ≡ true → (outcome_of old rest asked).answer ≡ Some answer →
        is_stored answer.status ≡ true → Grows (outcome_of old rest asked).rows now →
        ActsOnce asked rest old now answer }
{}
