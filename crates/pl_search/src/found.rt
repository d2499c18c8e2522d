//! What a search has found.
ghost use Rattle.std.specs.Prelude.{◌≡◌, ◌+◌, ◌++◌, IfErr, OnOk, map};
ghost use Rattle.pl_search.specs.Hits.{hit_of};

use crate::error::SearchError;
use crate::hit::{Hit, Hits, Key};
use pl_engine::Judged;
use std::alloc::Global;

/// The most hits that are shown.
pub const MOST_FOUND: usize = 10_000;

/// Where a rule is broken in the captures of a bench.
#[derive(Debug, Drop)]
pub struct Search {
    /// How often.
    pub total: u64,
    /// The first 10,000 of them.
    pub found: Hits,
}

impl Search {
    /// Adds the verdicts of a capture, of which there are no more than can be shown. A total that
    /// passes a u64 counts as want of memory.
    pub(crate) fn add(
        &mut self,
        alloc: Global,
        key: &str,
        judged: &Judged,
    ) -> Result<(), SearchError>
        ensures total { OnOk result (self.new.total ≡ self.old.total + judged.now.total) }
        ensures found { OnOk result (self.new.found ≡ self.old.found
            ++ map (hit_of key.now) judged.now.verdicts.items) }
        ensures memory { IfErr result (λ error. error ≡ SearchError.Memory) }
    {
        let Some(total) = self.total.checked_add(judged.total) else {
            return Err(SearchError::Memory);
        };
        for verdict in &judged.verdicts {
            let key = Key::new(alloc, key)?;
            self.found.push(Hit {
                key,
                at: verdict.at,
            })?;
        }
        self.total = total;
        Ok(())
    }
}
