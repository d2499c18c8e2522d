//! What is found: the key of a capture, and the number of an item.
ghost use Rattle.std.specs.Prelude.{◌≡◌, ◌∷◌, ◌++◌, [], IfOk, OnOk};

use std::alloc::{AllocError, Global};
use std::marker::Model;

/// The key of a capture within its bench.
#[derive(Debug, Drop)]
pub struct Key(String);

impl Model for Key {
    ghost use Rattle.std.specs.Prelude.{ℕ, List, string_bytes};

    ghost Value = { List ℕ };

    ghost view = { λ k. string_bytes k.0 };
}

impl Key {
    /// A key with a text of its own.
    ///
    /// # Errors
    ///
    /// Where memory for the text is wanting.
    pub(crate) fn new(alloc: Global, text: &str) -> Result<Key, AllocError>
        ensures { IfOk result (λ key. key ≡ text.now) }
    {
        Ok(Key(String::from_str(alloc, text)?))
    }

    /// Its text.
    pub fn as_str(&self) -> &str
        ensures { result.now ≡ self.now }
    {
        self.0.as_str()
    }
}

/// A broken rule: in which capture, and at which item, counted from 1.
#[derive(Debug, Drop)]
pub struct Hit {
    pub key: Key,
    pub at: u64,
}

/// Hits, by ascending key, and in each capture in the order of its verdicts.
#[derive(Debug, Drop)]
pub struct Hits(Vec<Hit>);

impl Model for Hits {
    ghost use Rattle.std.specs.Prelude.{List};
    ghost use Rattle.pl_search.specs.declared.hit.Hit.{Hit};

    ghost Value = { List Hit };

    ghost view = { λ h. h.0.items };
}

impl Hits {
    /// No hits.
    pub(crate) fn new(alloc: Global) -> Hits
        ensures { result ≡ [] }
    {
        Hits(Vec::new(alloc))
    }

    /// One hit more, behind the others.
    ///
    /// # Errors
    ///
    /// Where memory for it is wanting.
    pub(crate) fn push(&mut self, hit: Hit) -> Result<(), AllocError>
        ensures { OnOk result (self.new ≡ self.old ++ hit ∷ []) }
    {
        self.0.push(hit)?;
        Ok(())
    }

    pub fn as_slice(&self) -> &[Hit]
        ensures { result.now ≡ self.now }
    {
        self.0.as_slice()
    }
}
