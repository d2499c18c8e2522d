//! Serves the archive: one link of a door after another, with a line for each.
ghost use Rattle.std.specs.Prelude.{◌≡◌, ◌≢◌, ◌≤◌, ◌∷◌, ◌+◌, ◌*◌, ◌||◌, ◌⊎◌, List, [], ℕ, true};
ghost use Rattle.std.specs.Prelude.{false, length, Some};
ghost use Rattle.pl_io.specs.Faults.{Rose};
ghost use Rattle.pl_io.specs.Links.{Coming, NoneLeft};
ghost use Rattle.pl_io.specs.Told.{HasRoom, plus};
ghost use Rattle.pl_report.specs.ServedLines.{served_text};
ghost use Rattle.pl_web.specs.Turns.{Serves, line_of};
ghost use Rattle.pl_web.specs.declared.serve.Served as web;
ghost use Rattle.pl_cli.specs.Serving.{IsServeStatus, IsServed, Lines, Risen, Session};
ghost use Rattle.pl_cli.specs.Serving.{failed_store, fault_status, last_text, turned_by};

use crate::status::{CLEAN, DOOR_FAULT, NO_MEMORY, STORE_FAULT, WRITE_FAULT};
use pl_io::{Door, Sink, write_all};
use pl_keeper::Keeper;
use pl_report::{door_fault_line, served_line, store_fault_line};
use pl_web::{Routes, serve_link};
use std::alloc::{AllocError, Global};

/// What became of a turn.
#[derive(Clone, Copy, Debug, PartialEq, Eq)]
enum Turned {
    /// A link was served and its line written.
    Served,
    /// The same, and a call of the keeper failed.
    StoreFailed,
    /// The door gave no link.
    NoLink,
    /// The line couldn't be written.
    Unwritten,
}

impl Turned {
    /// Whether a call of the keeper failed.
    fn has_failed_store(self) -> bool
        ensures { result ≡ failed_store self }
    {
        match self {
            Turned::StoreFailed => true,
            Turned::Served | Turned::NoLink | Turned::Unwritten => false,
        }
    }
}

/// Whether one of the two is so.
fn either(one: bool, other: bool) -> bool
    ensures { result ≡ (one || other) }
{
    one || other
}

/// Serves one link and writes its line.
fn serve_turn<O: Sink, D: Door, K: Keeper>(
    alloc: Global,
    routes: &Routes,
    out: &mut O,
    door: &mut D,
    keeper: &mut K,
) -> Turned
    requires { D.is_out door.old ≡ false }
    ensures in_again { D.is_out door.new ≡ false }

    ensures serves { (link : Coming) (others : List Coming) →
        D.links door.old ≡ Some (link ∷ others) → IsServed result →
        (served : web.Served) × Serves link (K.lives keeper.new) (K.tells keeper.old)
        (K.tells keeper.new) (K.faults keeper.old) (K.faults keeper.new) (D.replies door.old)
        (D.replies door.new) served
        × (O.written out.new ≡ plus (O.written out.old) (served_text (line_of served)))
        × (result ≡ turned_by served) }
    ensures line { IsServed result → (status : ℕ)
        × (O.written out.new ≡ plus (O.written out.old) (served_text status))
        × (status ≡ 503 → result ≡ Turned.StoreFailed) }
    ensures gives { (link : Coming) (others : List Coming) →
        D.links door.old ≡ Some (link ∷ others) →
        (result ≢ Turned.NoLink) × (D.links door.new ≡ Some others) }
    ensures empty { D.links door.old ≡ Some [] → result ≡ Turned.NoLink }

    // Without a link nothing else happened.
    ensures no_link { result ≡ Turned.NoLink → NoneLeft (D.links door.old)
        × (D.replies door.new ≡ D.replies door.old) × (keeper.new ≡ keeper.old)
        × (out.new ≡ out.old) × Rose (D.faults door.old) (D.faults door.new) }
    ensures door_kept { result ≢ Turned.NoLink → D.faults door.new ≡ D.faults door.old }
    ensures door_falls { D.faults door.old ≤ D.faults door.new }

    ensures unwritten { result ≡ Turned.Unwritten → Rose (O.faults out.old) (O.faults out.new) }
    ensures sink_kept { result ≢ Turned.Unwritten → O.faults out.new ≡ O.faults out.old }
    ensures room { (more : ℕ) → HasRoom (O.room out.old) (11 + more) →
        (result ≢ Turned.Unwritten) × HasRoom (O.room out.new) more }

    ensures store { result ≡ Turned.StoreFailed → Rose (K.faults keeper.old) (K.faults keeper.new) }
    ensures kept { result ≡ Turned.Served → K.faults keeper.new ≡ K.faults keeper.old }
    ensures sure { K.sure keeper.old ≡ true →
        (result ≢ Turned.StoreFailed) × (K.sure keeper.new ≡ true) }
    ensures lived { K.lives keeper.new → K.lives keeper.old }
    ensures keeper_falls { K.faults keeper.old ≤ K.faults keeper.new }
{
    let served = match serve_link(alloc, routes, door, keeper) {
        Ok(served) => served,
        Err(_) => return Turned::NoLink,
    };
    let line = served_line(served.line());
    match write_all(out, line.as_bytes()) {
        Ok(()) => {
            if served.status == 503 {
                Turned::StoreFailed
            } else {
                Turned::Served
            }
        }
        Err(_) => Turned::Unwritten,
    }
}

/// Writes the last line, where there is one, and answers the status. A fault of the keeper goes
/// before one of the door.
fn end<O: Sink>(out: &mut O, store_failed: bool, door_failed: bool) -> u8
    ensures written { result ≢ WRITE_FAULT → O.written out.new
        ≡ plus (O.written out.old) (last_text store_failed door_failed) }
    ensures status { result ≢ WRITE_FAULT → result ≡ fault_status store_failed door_failed }
    ensures unwritten { result ≡ WRITE_FAULT → Rose (O.faults out.old) (O.faults out.new) }
    ensures sink_kept { result ≢ WRITE_FAULT → O.faults out.new ≡ O.faults out.old }
    ensures room { HasRoom (O.room out.old) 12 → result ≢ WRITE_FAULT }
    ensures memory { result ≢ NO_MEMORY }
    ensures range { IsServeStatus result }
{
    if store_failed {
        return end_with(out, store_fault_line(), STORE_FAULT);
    }
    if door_failed {
        return end_with(out, door_fault_line(), DOOR_FAULT);
    }
    CLEAN
}

/// Writes a last line, and answers its status.
fn end_with<O: Sink>(out: &mut O, line: &str, status: u8) -> u8
    requires no_fault { status ≢ WRITE_FAULT }
    requires no_want { status ≢ NO_MEMORY }
    ensures written { result ≢ WRITE_FAULT →
        O.written out.new ≡ plus (O.written out.old) line.now }
    ensures status { result ≢ WRITE_FAULT → result ≡ status }
    ensures unwritten { result ≡ WRITE_FAULT → Rose (O.faults out.old) (O.faults out.new) }
    ensures sink_kept { result ≢ WRITE_FAULT → O.faults out.new ≡ O.faults out.old }
    ensures room { HasRoom (O.room out.old) (length line.now) → result ≢ WRITE_FAULT }
    ensures memory { result ≢ NO_MEMORY }
    ensures either { (result ≡ WRITE_FAULT) ⊎ (result ≡ status) }
{
    match write_all(out, line.as_bytes()) {
        Ok(()) => status,
        Err(_) => WRITE_FAULT,
    }
}

/// Serves links one after another, `turns` of them, over routes that are there.
fn serve_links<O: Sink, D: Door, K: Keeper>(
    alloc: Global,
    routes: &Routes,
    turns: u32,
    out: &mut O,
    door: &mut D,
    keeper: &mut K,
) -> u8
    requires { D.is_out door.old ≡ false }
    ensures in_again { D.is_out door.new ≡ false }
    ensures session { (links : List Coming) → D.links door.old ≡ Some links →
        result ≢ WRITE_FAULT → Session links turns (K.lives keeper.new) (K.tells keeper.old)
        (K.tells keeper.new) (K.faults keeper.old) (K.faults keeper.new) (D.replies door.old)
        (D.replies door.new) (O.written out.old) (O.written out.new)
        (D.faults door.old) (D.faults door.new) result }
    ensures lines { result ≢ WRITE_FAULT → Lines turns (K.faults keeper.old)
        (K.faults keeper.new) (O.written out.old) (O.written out.new) result }
    ensures lived { K.lives keeper.new → K.lives keeper.old }
    ensures unwritten { result ≡ WRITE_FAULT → Rose (O.faults out.old) (O.faults out.new) }
    ensures sink_kept { result ≢ WRITE_FAULT → O.faults out.new ≡ O.faults out.old }
    ensures room { HasRoom (O.room out.old) (11 * turns + 12) → result ≢ WRITE_FAULT }
    ensures door_fault { result ≡ DOOR_FAULT → Rose (D.faults door.old) (D.faults door.new) }
    ensures store_fault { result ≡ STORE_FAULT →
        Risen (K.faults keeper.old) (K.faults keeper.new) }
    ensures clean { result ≡ CLEAN → (D.faults door.new ≡ D.faults door.old)
        × (K.faults keeper.new ≡ K.faults keeper.old) }
    ensures sure { K.sure keeper.old ≡ true → result ≢ STORE_FAULT }
    ensures memory { result ≢ NO_MEMORY }
    ensures range { IsServeStatus result }
{
    let mut store_failed = false;
    let mut turn = 0;
    while turn < turns {
        match serve_turn(alloc, routes, out, door, keeper) {
            Turned::NoLink => return end(out, store_failed, true),
            Turned::Unwritten => return WRITE_FAULT,
            turned => {
                store_failed = either(store_failed, turned.has_failed_store());
                turn += 1;
            }
        }
    }
    end(out, store_failed, false)
}

/// Serves the archive to so many links of a door, one after another, and writes a line for each:
/// `served S`, with the status of its reply, or 0 where none was sent whole.
///
/// # Answers
///
/// 0 where each turn had a link and nothing failed; 8 where a line couldn't be written, which ends
/// it; 9 for want of memory, with nothing done; 10 where a call of the keeper failed, behind the
/// last turn; 11 where the door gave no link, which ends it. 10 goes before 11, and each of these
/// two has a last line.
pub fn serve<O: Sink, D: Door, K: Keeper>(
    alloc: Global,
    turns: u32,
    out: &mut O,
    door: &mut D,
    keeper: &mut K,
) -> u8
    requires { D.is_out door.old ≡ false }
    ensures in_again { D.is_out door.new ≡ false }

    // Where the door tells its links, each is served in its turn, and has its line and its reply;
    // where the keeper lives, over the rows that those before it left.
    ensures session { (links : List Coming) → D.links door.old ≡ Some links →
        result ≢ WRITE_FAULT → result ≢ NO_MEMORY →
        Session links turns (K.lives keeper.new) (K.tells keeper.old)
        (K.tells keeper.new) (K.faults keeper.old) (K.faults keeper.new) (D.replies door.old)
        (D.replies door.new) (O.written out.old) (O.written out.new)
        (D.faults door.old) (D.faults door.new) result }
    ensures lived { K.lives keeper.new → K.lives keeper.old }

    // Whatever the door and the keeper tell, there are such lines, and no more of them tell of a
    // failed keeper than its count rose by.
    ensures lines { result ≢ WRITE_FAULT → result ≢ NO_MEMORY → Lines turns
        (K.faults keeper.old) (K.faults keeper.new) (O.written out.old) (O.written out.new) result }

    // Want of memory comes before the first turn.
    ensures no_memory { result ≡ NO_MEMORY →
        (out.new ≡ out.old) × (door.new ≡ door.old) × (keeper.new ≡ keeper.old) }

    // Faults are answered only where they were counted.
    ensures unwritten { result ≡ WRITE_FAULT → Rose (O.faults out.old) (O.faults out.new) }
    ensures sink_kept { result ≢ WRITE_FAULT → O.faults out.new ≡ O.faults out.old }
    ensures door_fault { result ≡ DOOR_FAULT → Rose (D.faults door.old) (D.faults door.new) }
    ensures store_fault { result ≡ STORE_FAULT →
        Risen (K.faults keeper.old) (K.faults keeper.new) }
    ensures clean { result ≡ CLEAN → (D.faults door.new ≡ D.faults door.old)
        × (K.faults keeper.new ≡ K.faults keeper.old) }

    // Each answer is one of these.
    ensures status { IsServeStatus result }

    // No fault of its own making.
    ensures room { HasRoom (O.room out.old) (11 * turns + 12) → result ≢ WRITE_FAULT }
    ensures sure { K.sure keeper.old ≡ true → result ≢ STORE_FAULT }
{
    match Routes::new(alloc) {
        Ok(routes) => serve_links(alloc, &routes, turns, out, door, keeper),
        Err(AllocError) => NO_MEMORY,
    }
}
