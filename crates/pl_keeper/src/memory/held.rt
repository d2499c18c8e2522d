//! The rows in memory, which contracts see as the rows of the archive.
ghost use Rattle.std.specs.Prelude.{◌≡◌, ◌≤◌, ◌&&◌, length, bytes_eq, IfOk};
ghost use Rattle.pl_keeper.specs.Archive.{longest_body, is_profile, is_capture};
ghost use Rattle.pl_keeper.specs.Listing.{found_of, line_of};

use crate::compare::compared;
use crate::keeper::{KeyRow, Put, Stored};
use std::alloc::{AllocError, Global};
use std::marker::Model;

/// A profile that is held.
#[derive(Debug, Drop)]
pub struct HeldProfile {
    bench: String,
    name: String,
    bytes: Vec<u8>,
}

impl Model for HeldProfile {
    ghost use Rattle.std.specs.Prelude.{◌≤◌, string_bytes, length};
    ghost use Rattle.pl_keeper.specs.Archive.{Profile, longest_body};

    ghost Value = { Profile };

    ghost view = { λ p. record {
      bench = string_bytes p.bench;
      name = string_bytes p.name;
      bytes = p.bytes.items;
    } };

    ghost invariant = { λ p. length p.bytes.items ≤ longest_body };
}

/// A capture that is held.
#[derive(Debug, Drop)]
pub struct HeldCapture {
    bench: String,
    key: String,
    profile: String,
    bytes: Vec<u8>,
}

impl Model for HeldCapture {
    ghost use Rattle.std.specs.Prelude.{◌≤◌, string_bytes, length};
    ghost use Rattle.pl_keeper.specs.Archive.{Capture, longest_body};

    ghost Value = { Capture };

    ghost view = { λ c. record {
      bench = string_bytes c.bench;
      key = string_bytes c.key;
      profile = string_bytes c.profile;
      bytes = c.bytes.items;
    } };

    ghost invariant = { λ c. length c.bytes.items ≤ longest_body };
}

impl HeldProfile {
    pub fn new(
        alloc: Global,
        bench: &str,
        name: &str,
        bytes: &[u8],
    ) -> Result<HeldProfile, AllocError>
        requires { length bytes.now ≤ longest_body }
        ensures { IfOk result (λ p. p ≡ record {
          bench = bench.now;
          name = name.now;
          bytes = bytes.now;
        }) }
    {
        Ok(HeldProfile {
            bench: String::from_str(alloc, bench)?,
            name: String::from_str(alloc, name)?,
            bytes: bytes.to_vec(alloc)?,
        })
    }

    pub fn is(&self, bench: &str, name: &str) -> bool
        ensures { result ≡ is_profile bench.now name.now self.now }
    {
        self.bench.as_str() == bench && self.name.as_str() == name
    }

    pub fn is_of(&self, bench: &str) -> bool
        ensures { result ≡ bytes_eq self.now.bench bench.now }
    {
        self.bench.as_str() == bench
    }

    pub fn bytes(&self) -> &[u8]
        ensures value { result.now ≡ self.now.bytes }
        ensures short { length result.now ≤ longest_body }
    {
        self.bytes.as_slice()
    }
}

impl HeldCapture {
    ghost use Rattle.pl_keeper.specs.Puts.{compared_capture};

    pub fn new(
        alloc: Global,
        bench: &str,
        key: &str,
        profile: &str,
        bytes: &[u8],
    ) -> Result<HeldCapture, AllocError>
        requires { length bytes.now ≤ longest_body }
        ensures { IfOk result (λ c. c ≡ record {
          bench = bench.now;
          key = key.now;
          profile = profile.now;
          bytes = bytes.now;
        }) }
    {
        Ok(HeldCapture {
            bench: String::from_str(alloc, bench)?,
            key: String::from_str(alloc, key)?,
            profile: String::from_str(alloc, profile)?,
            bytes: bytes.to_vec(alloc)?,
        })
    }

    pub fn is(&self, bench: &str, key: &str) -> bool
        ensures { result ≡ is_capture bench.now key.now self.now }
    {
        self.bench.as_str() == bench && self.key.as_str() == key
    }

    pub fn is_of(&self, bench: &str) -> bool
        ensures { result ≡ bytes_eq self.now.bench bench.now }
    {
        self.bench.as_str() == bench
    }

    /// What a put over it answers.
    pub fn compared(&self, profile: &str, bytes: &[u8]) -> Put
        ensures { result ≡ compared_capture self.now profile.now bytes.now }
    {
        if self.profile.as_str() == profile {
            compared(self.bytes.as_slice(), bytes)
        } else {
            Put::OtherProfile
        }
    }

    /// What a look-up hands out of it.
    pub fn stored(&self, alloc: Global) -> Result<Stored, AllocError>
        ensures seen { IfOk result (λ stored. stored ≡ found_of self.now) }
        ensures short { IfOk result (λ stored. length stored.bytes ≤ longest_body) }
    {
        Ok(Stored {
            profile: self.profile.clone()?,
            bytes: self.bytes.to_vec(alloc)?,
        })
    }

    /// Its line in the list of a bench's captures.
    pub fn line(&self) -> Result<KeyRow, AllocError>
        ensures { IfOk result (λ row. row ≡ line_of self.now) }
    {
        Ok(KeyRow {
            key: self.key.clone()?,
            profile: self.profile.clone()?,
            length: self.bytes.len() as u64,
        })
    }
}
