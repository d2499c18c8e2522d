//! The first reading: the verdict with a number.
ghost use Rattle.std.specs.Prelude.{◌≡◌, ◌+◌, ◌-◌, ◌<◌, ◌≤◌, ◌^◌, ℕ, List, [], true};
ghost use Rattle.std.specs.Prelude.{◌||◌, IfErr};
ghost use Rattle.pl_capture.specs.Entry.{Entry, IsLawful, view};
ghost use Rattle.pl_capture.specs.Standing.{Holding};
ghost use Rattle.pl_profile.specs.declared.profile.Profile.{Profile};
ghost use Rattle.pl_engine.specs.Engine.{StandsFor};
ghost use Rattle.pl_engine.specs.Packets.{is_gap, is_link_down};
ghost use Rattle.pl_excerpt.specs.Searching.{IsOfSearch, Searched, SearchedTo, SearchJudged};
ghost use Rattle.pl_excerpt.specs.Searching.{fault_in};
ghost use Rattle.pl_excerpt.specs.Sources.{Opens, Steady};

use crate::case::Case;
use crate::outcome::{Outcome, without_verdict};
use crate::source::Source;
use pl_base::Stop;
use pl_capture::{Item, ItemKind};
use pl_engine::Engine;
use pl_io::Shelf;

/// Opens the capture of this name and judges it up to the item of the verdict with this number,
/// from 1. Err where there is none, or the capture couldn't be read so far.
pub(crate) fn find<H: Shelf>(
    engine: &mut Engine,
    number: u64,
    capture: &str,
    shelf: &mut H,
) -> Result<Case, Outcome>
    requires some { 1 ≤ number }
    requires engine { StandsFor engine.old [] }
    ensures searched { H.told shelf.old ≡ true → Searched engine.old.profile number
        (H.file shelf.old capture.now) result }
    ensures answer { IfErr result IsOfSearch }
    ensures shelf { Opens H.Shelf capture.now (fault_in result) shelf.old shelf.new }
{
    match shelf.open(capture) {
        Ok(()) => find_open(engine, number, shelf),
        Err(_) => Err(Outcome::ReadFault),
    }
}

/// The same of the capture that was just opened.
fn find_open<H: Shelf>(engine: &mut Engine, number: u64, shelf: &mut H) -> Result<Case, Outcome>
    requires opened { H.is_open shelf.old ≡ true }
    requires some { 1 ≤ number }
    requires engine { StandsFor engine.old [] }
    ensures searched { Searched engine.old.profile number (H.rest shelf.old) result }
    ensures answer { IfErr result IsOfSearch }
    ensures shelf { Steady H.Shelf (fault_in result) shelf.old shelf.new }
{
    let mut source = Source::new();
    let mut search = Search::new(number - 1);
    'items: loop {
        match source.next(shelf) {
            Ok(()) => match search_item(&source, engine, &mut search) {
                Ok(None) => {}
                Ok(Some(case)) => return Ok(case),
                Err(stop) => return Err(Outcome::Stop(stop)),
            },
            Err(ended) => return Err(without_verdict(ended)),
        }
    }
}

/// Judges the item that the source lends.
fn search_item(
    source: &Source,
    engine: &mut Engine,
    search: &mut Search,
) -> Result<Option<Case>, Stop>
    requires holds { (x : Entry) × (source.now.reader.phase ≡ Holding x) }
    requires few { search.old.items < 2 ^ 58 }
    requires engine { engine.old.items < 2 ^ 58 }
    ensures judged { (p : Profile) (number : ℕ) (items : List Entry) (x : Entry) →
        source.now.reader.phase ≡ Holding x → SearchedTo p number items search.old engine.old →
        SearchJudged p number items x result search.new engine.new }
    ensures items { search.new.items ≤ search.old.items + 1 }
    ensures engine { engine.new.items ≤ engine.old.items + 1 }
{
    match source.item() {
        Some(item) => search.judge(&item, engine),
        None => unreachable!(),
    }
}

/// How far a search has come.
#[derive(Drop)]
pub(crate) struct Search {
    /// How many verdicts are still passed over.
    left: u64,
    /// How many items were judged.
    items: u64,
    /// The number of the latest link down or gap, or 0.
    start: u64,
}

impl Search {
    /// A search that passes over so many verdicts.
    fn new(left: u64) -> Search
        ensures { result ≡ record { left = left; items = 0; start = 0 } }
    {
        Search {
            left,
            items: 0,
            start: 0,
        }
    }

    /// Judges the next item: the verdict that is sought, if it is one of its.
    fn judge(&mut self, item: &Item, engine: &mut Engine) -> Result<Option<Case>, Stop>
        requires lawful { IsLawful (view item.now) }
        requires few { self.old.items < 2 ^ 58 }
        requires engine { engine.old.items < 2 ^ 58 }
        ensures judged { (p : Profile) (number : ℕ) (items : List Entry) →
            SearchedTo p number items self.old engine.old →
            SearchJudged p number items (view item.now) result self.new engine.new }
        ensures items { self.new.items ≤ self.old.items + 1 }
        ensures engine { engine.new.items ≤ engine.old.items + 1 }
    {
        let found = match engine.feed(item) {
            Ok(found) => found,
            Err(refused) => return Err(refused.stop_at(self.items + 1)),
        };
        if self.left < found.len() as u64 {
            return Ok(Some(Case {
                verdict: found[self.left as usize],
                at: self.items + 1,
                start: self.start,
            }));
        }
        self.left -= found.len() as u64;
        self.items += 1;
        if is_break(item.kind) {
            self.start = self.items;
        }
        Ok(None)
    }
}

/// Whether a span begins behind the item.
fn is_break(kind: ItemKind) -> bool
    ensures { result ≡ (is_link_down kind || is_gap kind) }
{
    match kind {
        ItemKind::LinkDown | ItemKind::Gap => true,
        ItemKind::Tlp | ItemKind::Dllp => false,
    }
}
