//! The top call: from the words of the command line to the exit status.
ghost use Rattle.std.specs.Prelude.{◌≡◌, ◌≢◌, ◌⊎◌, ◌↔◌, ◌<◌, ◌≤◌, ◌+◌, ◌*◌, List, ℕ, IsTrue, true};
ghost use Rattle.std.specs.Prelude.{None, false};
ghost use Rattle.std.specs.Prelude.{Some, Ok, Err, length};
ghost use Rattle.pl_io.specs.Faults.{Rose};
ghost use Rattle.pl_io.specs.Links.{Coming};
ghost use Rattle.pl_io.specs.Told.{HasRoom};
ghost use Rattle.pl_profile.specs.Refusal.{number_of};
ghost use Rattle.pl_profile.specs.declared.error.ProfileError as declared;
ghost use Rattle.pl_profile.specs.ProfileOf.{usual_profile};
ghost use Rattle.pl_profile.specs.declared.profile.Profile as named;
ghost use Rattle.pl_filter.specs.declared.error.FilterError as filtering;
ghost use Rattle.pl_report.specs.Lines.{filter_error_text, profile_error_text, read_fault_text};
ghost use Rattle.pl_report.specs.Lines.{usage_text};
ghost use Rattle.pl_make.specs.Generated.{Gen};
ghost use Rattle.pl_cli.specs.Numbers.{IsTrialOf};
ghost use Rattle.pl_cli.specs.Output.{View, output, status_of};
ghost use Rattle.pl_cli.specs.Promise.{Answers, Begins, IsCommand, IsTrial, Opens};
ghost use Rattle.pl_cli.specs.Promise.{ProfileUnread, Runs, Trials, texts};
ghost use Rattle.pl_cli.specs.Promise.{trial_status, trial_text};
ghost use Rattle.pl_cli.specs.ServeWords.{IsNoCommand, IsServe, IsServeOf, IsServing, LacksRoutes};
ghost use Rattle.pl_cli.specs.Serving.{Lines, Risen, Session};
ghost use Rattle.pl_cli.specs.Source.{profile_under};
ghost use Rattle.pl_cli.specs.Words.{AreThere, Asks, FilterIsRead, Gives, GivesCut, GivesFault};
ghost use Rattle.pl_cli.specs.Words.{GivesPart, GivesPartOfCut, GivesPartOfFault, IsJudged};
ghost use Rattle.pl_cli.specs.Words.{IsGenerated, IsRefused, IsUnrisen, LacksEngine};
ghost use Rattle.pl_cli.specs.Words.{LacksFilter, LacksProfile, NoFault};
ghost use Rattle.pl_cli.specs.Words.{OpensBoth, RunsCleanly, nothing_read, whole_text};

use crate::closing::write_last;
use crate::commands::{check, list, report};
use crate::generated::trial;
use crate::numbers::{count, number};
use crate::serving::serve;
use crate::status::{
    CLEAN, DOOR_FAULT, FILTER, NO_MEMORY, PROFILE, READ_FAULT, STORE_FAULT, USAGE, WRITE_FAULT,
};
use pl_io::{Door, Shelf, Sink};
use pl_keeper::Keeper;
use pl_report::usage_line;
use std::alloc::Global;

/// Does what the words of the command line say, those after the program's name, and answers the
/// exit status.
///
/// The commands are `check PROFILE CAPTURE`, `list PROFILE CAPTURE FILTER` and `report PROFILE
/// CAPTURE`. For every profile, every capture and every way in which its bytes are cut, what is
/// written is exactly what the command's view shows of the verdicts that the rules give over the
/// whole list of items, and then the closing line or that of the refusal. `trial NUMBER COUNT` is
/// the report of a generated capture under the usual profile, for which no file is opened.
///
/// `serve ADDRESS STORE TURNS` serves the archive of the keeper to TURNS links of the door, one
/// after another, with a line for each. ADDRESS and STORE are what the caller made the door and the
/// keeper of, and aren't read here. The other commands use neither.
pub fn run<H: Shelf, O: Sink, D: Door, K: Keeper>(
    alloc: Global,
    words: &[&str],
    shelf: &mut H,
    out: &mut O,
    door: &mut D,
    keeper: &mut K,
) -> u8
    requires { D.is_out door.old ≡ false }

    // All that is promised of the commands that judge a capture, whatever the words are and
    // whatever it comes to. The other clauses say what that is in words of the profile and the
    // capture.
    ensures runs { (IsServing (texts words.now) → ⊥) → Runs H.Shelf O.Sink (texts words.now)
        shelf.old shelf.new out.old out.new result }

    // 1. Where nothing failed, the lines are the output for the whole file, and so is the status. A
    // profile that is refused has its line, and words that are no command the usage line.
    ensures exact { (view : View) (p : named.Profile) (b : List ℕ) →
        Asks H.Shelf (texts words.now) shelf.old view p b → NoFault result →
        Gives (output view p b) (status_of p b) (O.written out.old) (O.written out.new) result }
    ensures refused { (view : View) (profile capture : List ℕ) →
        IsCommand (texts words.now) view profile capture →
        H.told shelf.old ≡ true → (e : declared.ProfileError) →
        profile_under (H.file shelf.old) profile ≡ Some (Err e) → NoFault result →
        Gives (profile_error_text (number_of e)) PROFILE
        (O.written out.old) (O.written out.new) result }
    ensures filter_line { (e : filtering.FilterError) → IsRefused (texts words.now) e →
        result ≢ WRITE_FAULT → result ≢ NO_MEMORY →
        Gives (filter_error_text e) FILTER (O.written out.old) (O.written out.new) result }
    ensures trial { (number count : ℕ) → IsTrial (texts words.now) number count →
        Trials O.Sink number count out.old out.new result }
    ensures usage { IsNoCommand (texts words.now) →
        Answers O.Sink usage_text USAGE out.old out.new result }

    // 2. Status 0: the capture was read to its end, it ended with its end record, and no rule
    // breaks at any item.
    ensures clean { (view : View) (p : named.Profile) (b : List ℕ) →
        Asks H.Shelf (texts words.now) shelf.old view p b → result ≡ CLEAN → RunsCleanly p b }
    ensures trial_clean { (number count : ℕ) → IsTrial (texts words.now) number count →
        result ≡ CLEAN → RunsCleanly usual_profile (Gen number count) }

    // 3. A fault of the shelf or of the sink is answered only where it was counted. What stands
    // then is the text of what was read of the capture, or `read fault` alone where the profile
    // couldn't be read; or a part of it.
    ensures read_fault { result ≡ READ_FAULT → Rose (H.faults shelf.old) (H.faults shelf.new) }
    ensures cut_short { (view : View) (p : named.Profile) (b : List ℕ)
        (names : Asks H.Shelf (texts words.now) shelf.old view p b) → result ≡ READ_FAULT →
        GivesFault H.Shelf O.Sink names.profile_name shelf.old shelf.new out.old out.new
        ⊎ GivesCut H.Shelf O.Sink view p names.profile_name names.capture_name b
        shelf.old shelf.new out.old out.new }
    ensures no_profile { (view : View) (profile capture : List ℕ) →
        IsCommand (texts words.now) view profile capture →
        H.told shelf.old ≡ true → profile_under (H.file shelf.old) profile ≡ None →
        FilterIsRead view result → ProfileUnread H.Shelf profile shelf.old shelf.new
        × Answers O.Sink read_fault_text READ_FAULT out.old out.new result }
    ensures no_capture { (view : View) (profile capture : List ℕ) →
        IsCommand (texts words.now) view profile capture →
        H.told shelf.old ≡ true → (p : named.Profile) →
        profile_under (H.file shelf.old) profile ≡ Some (Ok p) → H.file shelf.old capture ≡ None →
        result ≢ NO_MEMORY → (ProfileUnread H.Shelf profile shelf.old shelf.new
        × Answers O.Sink read_fault_text READ_FAULT out.old out.new result)
        ⊎ Answers O.Sink (nothing_read view p) READ_FAULT out.old out.new result }
    ensures refused_cut { (view : View) (profile capture : List ℕ) →
        IsCommand (texts words.now) view profile capture →
        H.told shelf.old ≡ true → (e : declared.ProfileError) →
        profile_under (H.file shelf.old) profile ≡ Some (Err e) → result ≡ READ_FAULT →
        GivesFault H.Shelf O.Sink profile shelf.old shelf.new out.old out.new }
    ensures write_fault { result ≡ WRITE_FAULT → Rose (O.faults out.old) (O.faults out.new) }
    ensures part { (view : View) (p : named.Profile) (b : List ℕ)
        (names : Asks H.Shelf (texts words.now) shelf.old view p b) → result ≡ WRITE_FAULT →
        GivesPart O.Sink (output view p b) out.old out.new
        ⊎ (Rose (H.faults shelf.old) (H.faults shelf.new)
        × (GivesPartOfFault H.Shelf O.Sink names.profile_name shelf.old shelf.new out.old out.new
        ⊎ GivesPartOfCut H.Shelf O.Sink view p names.profile_name names.capture_name b
        shelf.old shelf.new out.old out.new)) }
    ensures refused_part { (view : View) (profile capture : List ℕ) →
        IsCommand (texts words.now) view profile capture →
        H.told shelf.old ≡ true → (e : declared.ProfileError) →
        profile_under (H.file shelf.old) profile ≡ Some (Err e) → result ≡ WRITE_FAULT →
        GivesPart O.Sink (profile_error_text (number_of e)) out.old out.new
        ⊎ GivesPartOfFault H.Shelf O.Sink profile shelf.old shelf.new out.old out.new }
    ensures filter_part { (e : filtering.FilterError) → IsRefused (texts words.now) e →
        result ≡ WRITE_FAULT → GivesPart O.Sink (filter_error_text e) out.old out.new }
    ensures shelf_kept { result ≢ READ_FAULT → result ≢ WRITE_FAULT →
        H.faults shelf.new ≡ H.faults shelf.old }
    ensures sink_kept { result ≢ WRITE_FAULT → O.faults out.new ≡ O.faults out.old }

    // 4. Want of memory comes before the capture is opened and writes nothing.
    ensures unopened { result ≡ NO_MEMORY → LacksFilter (texts words.now) shelf.old shelf.new
        ⊎ (LacksProfile H.Shelf (texts words.now) shelf.old shelf.new
        ⊎ (LacksEngine (texts words.now) shelf.old shelf.new
        ⊎ LacksRoutes (texts words.now) shelf.old shelf.new)) }
    ensures no_memory { result ≡ NO_MEMORY → out.new ≡ out.old }

    // 5. Each file is asked for at most once, the profile's first: none for words that are no
    // command and for a trial, the profile's alone where it is refused, and both where the capture
    // is judged.
    ensures none_opened { IsNoCommand (texts words.now) → shelf.new ≡ shelf.old }
    ensures filter_first { (e : filtering.FilterError) → IsRefused (texts words.now) e →
        shelf.new ≡ shelf.old }
    ensures one_opened { result ≡ PROFILE → (view : View) × (profile : List ℕ) × (capture : List ℕ)
        × IsCommand (texts words.now) view profile capture
        × Opens H.Shelf profile shelf.old shelf.new × (H.is_open shelf.new ≡ true) }
    ensures trial_alone { IsGenerated (texts words.now) → shelf.new ≡ shelf.old }
    ensures both_opened { IsJudged result → (IsGenerated (texts words.now)
        ⊎ IsServing (texts words.now))
        ⊎ ((view : View) × (profile : List ℕ) × (capture : List ℕ)
        × IsCommand (texts words.now) view profile capture
        × OpensBoth H.Shelf profile capture shelf.old shelf.new × (H.is_open shelf.new ≡ true)) }

    // 6. Each status has its cause, whatever the shelf and the sink tell.
    ensures status { result ≤ FILTER }
    ensures usage_only { result ≡ USAGE → IsNoCommand (texts words.now) }
    ensures filter_only { result ≡ FILTER → (e : filtering.FilterError)
        × IsRefused (texts words.now) e }

    // 7. Where no count rose and memory was there, the whole output was written.
    ensures complete { (view : View) (p : named.Profile) (b : List ℕ) →
        Asks H.Shelf (texts words.now) shelf.old view p b →
        IsUnrisen (H.faults shelf.old) (H.faults shelf.new) →
        IsUnrisen (O.faults out.old) (O.faults out.new) → (result ≡ NO_MEMORY)
        ⊎ Gives (output view p b) (status_of p b) (O.written out.old) (O.written out.new) result }
    ensures trial_complete { (number count : ℕ) → IsTrial (texts words.now) number count →
        IsUnrisen (O.faults out.old) (O.faults out.new) → (result ≡ NO_MEMORY)
        ⊎ Gives (trial_text number count) (trial_status number count)
        (O.written out.old) (O.written out.new) result }

    // 8. It makes no fault by itself: none of a sure shelf with the files that are needed, and none
    // of a sink with room for what is written.
    ensures shelf_sure { H.sure shelf.old ≡ true → (view : View) (profile capture : List ℕ) →
        IsCommand (texts words.now) view profile capture →
        AreThere (profile_under (H.file shelf.old) profile) (H.file shelf.old capture) →
        H.faults shelf.new ≡ H.faults shelf.old }
    ensures sink_room { H.sure shelf.old ≡ true → (view : View) (profile capture : List ℕ) →
        IsCommand (texts words.now) view profile capture → HasRoom (O.room out.old) (length
        (whole_text view (profile_under (H.file shelf.old) profile) (H.file shelf.old capture))) →
        O.faults out.new ≡ O.faults out.old }
    ensures filter_room { (e : filtering.FilterError) → IsRefused (texts words.now) e →
        HasRoom (O.room out.old) (length (filter_error_text e)) →
        O.faults out.new ≡ O.faults out.old }
    ensures trial_room { (number count : ℕ) → IsTrial (texts words.now) number count →
        HasRoom (O.room out.old) (length (trial_text number count)) →
        O.faults out.new ≡ O.faults out.old }
    ensures usage_room { IsNoCommand (texts words.now) →
        HasRoom (O.room out.old) (length usage_text) → O.faults out.new ≡ O.faults out.old }

    // 9. The archive. Where the door tells its links, each is served in its turn, and has its line
    // and its reply; where the keeper lives, over the rows that those before it left. Nothing is
    // opened for it, and no other command uses the door or the keeper.
    ensures session { (turns : ℕ) → IsServe (texts words.now) turns → (links : List Coming) →
        D.links door.old ≡ Some links → result ≢ WRITE_FAULT → result ≢ NO_MEMORY →
        Session links turns (K.lives keeper.new) (K.tells keeper.old)
        (K.tells keeper.new) (K.faults keeper.old) (K.faults keeper.new) (D.replies door.old)
        (D.replies door.new) (O.written out.old) (O.written out.new)
        (D.faults door.old) (D.faults door.new) result }
    ensures lines { (turns : ℕ) → IsServe (texts words.now) turns →
        result ≢ WRITE_FAULT → result ≢ NO_MEMORY → Lines turns (K.faults keeper.old)
        (K.faults keeper.new) (O.written out.old) (O.written out.new) result }
    ensures lived { K.lives keeper.new → K.lives keeper.old }
    ensures serve_alone { IsServing (texts words.now) → shelf.new ≡ shelf.old }
    ensures idle { (IsServing (texts words.now) → ⊥) →
        (door.new ≡ door.old) × (keeper.new ≡ keeper.old) }
    ensures in_again { D.is_out door.new ≡ false }
    ensures no_routes { IsServing (texts words.now) → result ≡ NO_MEMORY →
        (door.new ≡ door.old) × (keeper.new ≡ keeper.old) }
    ensures door_fault { result ≡ DOOR_FAULT → Rose (D.faults door.old) (D.faults door.new) }
    ensures store_fault { result ≡ STORE_FAULT →
        Risen (K.faults keeper.old) (K.faults keeper.new) }
    ensures serve_clean { IsServing (texts words.now) → result ≡ CLEAN →
        (D.faults door.new ≡ D.faults door.old) × (K.faults keeper.new ≡ K.faults keeper.old) }
    ensures serve_room { (turns : ℕ) → IsServe (texts words.now) turns →
        HasRoom (O.room out.old) (11 * turns + 12) → result ≢ WRITE_FAULT }
    ensures serve_sure { K.sure keeper.old ≡ true → result ≢ STORE_FAULT }
{
    match turns_of_serve(words) {
        Some(turns) => serve(alloc, turns, out, door, keeper),
        None => run_words(alloc, words, shelf, out),
    }
}

/// The turns of the words `serve ADDRESS STORE TURNS`. None for other words.
fn turns_of_serve(words: &[&str]) -> Option<u32>
    ensures { IsServeOf (texts words.now) result }
{
    if begin(words, "serve", 4) {
        count(words[3])
    } else {
        None
    }
}

/// Does what the words say where they judge a capture, and else writes the usage line.
fn run_words<H: Shelf, O: Sink>(alloc: Global, words: &[&str], shelf: &mut H, out: &mut O) -> u8
    ensures runs { Runs H.Shelf O.Sink (texts words.now)
        shelf.old shelf.new out.old out.new result }
{
    if begin(words, "check", 3) {
        check(alloc, words[1], words[2], shelf, out)
    } else if begin(words, "list", 4) {
        list(alloc, words[1], words[2], words[3], shelf, out)
    } else if begin(words, "report", 3) {
        report(alloc, words[1], words[2], shelf, out)
    } else {
        match numbers_of_trial(words) {
            Some((number, count)) => trial(alloc, number, count, out),
            None => write_last(out, usage_line(), USAGE),
        }
    }
}

/// The number and the count of the words `trial NUMBER COUNT`. None for other words.
fn numbers_of_trial(words: &[&str]) -> Option<(u64, u32)>
    ensures { IsTrialOf (texts words.now) result }
{
    if !begin(words, "trial", 3) {
        return None;
    }
    let number = number(words[1])?;
    let count = count(words[2])?;
    Some((number, count))
}

/// Whether there are so many words, of which the first is this.
fn begin(words: &[&str], name: &str, count: usize) -> bool
    requires { 0 < count }
    ensures length { IsTrue result → length words.now ≡ count }
    ensures begin { IsTrue result ↔ Begins (texts words.now) name.now count }
{
    words.len() == count && words[0] == name
}
