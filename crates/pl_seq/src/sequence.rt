//! The sequence numbers of a run: TLPs of one direction that are numbered one after the other.
//! PCI Express Base Specification 5.0, chapter 3: sequence numbers, Ack and Nak.
ghost use Rattle.std.specs.Prelude.{◌≡◌, ℕ, ◌+◌, ◌<◌, ◌≤◌, Bool, IfSome, IsTrue, Some, is_some};
ghost use Rattle.pl_seq.specs.Runs.{advance, empty_run, has_original, is_ahead, is_confirmed};
ghost use Rattle.pl_seq.specs.Runs.{is_sure, is_valid, newly_answered, original_place_of};
ghost use Rattle.pl_seq.specs.Runs.{place_behind, place_of, with_answered, with_taken};

use crate::number::{MOST_BEHIND, MOST_UNACKNOWLEDGED, after, difference};
use crate::place::Place;
use pl_base::Body;
use std::marker::Model;

/// What is known of a run.
///
/// Beside each count stands the number that it leads to, so that a TLP or an Ack in its turn needs
/// neither the first number nor a remainder.
#[derive(Drop)]
pub struct Sequence {
    /// Whether a gap began its span.
    torn: bool,
    /// The number of its first TLP, none until it is known.
    base: Option<u16>,
    /// How many TLPs were taken.
    next: u64,
    /// How many of these are answered.
    answered: u64,
    /// The number of the next TLP, where the first one's is known.
    due: u16,
    /// The number of the next TLP to be answered, where the first one's is known.
    unanswered: u16,
}

impl Model for Sequence {
    ghost use Rattle.pl_seq.specs.Runs.{IsNumbered, Run};

    ghost Value = { Run };

    ghost view = { λ s.
        record { torn = s.torn; base = s.base; next = s.next; answered = s.answered } };

    ghost invariant = { λ s.
        IsNumbered s.base s.next s.due × IsNumbered s.base s.answered s.unanswered };
}

impl Sequence {
    /// A run that has no TLP yet.
    pub fn empty(torn: bool, base: Option<u16>) -> Sequence
        requires { IfSome base (λ number. number < 4096) }
        ensures { result ≡ empty_run torn base }
    {
        let first = base.unwrap_or(0);
        Sequence {
            torn,
            base,
            next: 0,
            answered: 0,
            due: first,
            unanswered: first,
        }
    }

    /// Whether a gap began its span.
    pub fn is_torn(&self) -> bool
        ensures { result ≡ self.now.torn }
    {
        self.torn
    }

    /// How many TLPs were taken.
    pub fn next(&self) -> u64
        ensures { result ≡ self.now.next }
    {
        self.next
    }

    /// How many of these are answered.
    pub fn answered(&self) -> u64
        ensures { result ≡ self.now.answered }
    {
        self.answered
    }

    /// Whether an Ack or Nak has answered a TLP of it.
    pub fn is_confirmed(&self) -> bool
        ensures { result ≡ is_confirmed self.now }
    {
        self.answered >= 1
    }

    /// Whether its numbers are sure: no gap began its span, or it is confirmed.
    pub fn is_sure(&self) -> bool
        ensures { result ≡ is_sure self.now }
    {
        !self.torn || self.is_confirmed()
    }

    /// Whether a whole TLP with this sequence number is known to have the next one. While no TLP's
    /// number is known any has it, and this may say no.
    pub fn is_due(&self, number: u16) -> bool
        ensures { IsTrue result → place_of self.now number Body.Whole ≡ Place.Taken }
    {
        number == self.due
    }

    /// Where a TLP with this sequence number stands, if it comes now.
    pub fn place(&self, number: u16, body: Body) -> Place
        requires { number < 4096 }
        ensures { result ≡ place_of self.now number body }
    {
        match body {
            Body::Whole => {
                if number == self.due {
                    return Place::Taken;
                }
                match self.base {
                    Some(_) => self.place_behind(difference(self.due, number)),
                    None => Place::Taken,
                }
            }
            Body::Nullified | Body::Spoiled => Place::Dropped,
        }
    }

    /// Where a whole TLP stands that lies so far behind the next one, but not at 0. Apart, since
    /// most TLPs have the next number.
    #[cold]
    #[inline(never)]
    fn place_behind(&self, back: u16) -> Place
        ensures { result ≡ place_behind self.now back }
    {
        if back >= 1 && back <= MOST_BEHIND {
            if self.torn || u64::from(back) <= self.next {
                return Place::Repeat;
            }
            return Place::Stray;
        }
        if self.torn && !self.is_confirmed() {
            Place::Opens
        } else {
            Place::Stray
        }
    }

    /// The place, counted from 0 among the taken TLPs, of the original that a repeat of this
    /// number has.
    pub fn original(&self, number: u16) -> Option<u64>
        requires { number < 4096 }
        ensures found { is_some result ≡ has_original self.now number }
        ensures place { IfSome result (λ place. place ≡ original_place_of self.now number) }
    {
        match self.base {
            Some(_) => {
                let back = difference(self.due, number);
                if back >= 1 && back <= MOST_BEHIND && u64::from(back) <= self.next {
                    Some(self.next - u64::from(back))
                } else {
                    None
                }
            }
            None => None,
        }
    }

    /// Whether the number of its first TLP is known.
    pub fn is_based(&self) -> bool
        ensures { result ≡ is_some self.now.base }
    {
        self.base.is_some()
    }

    /// How many more an Ack or Nak of this number would answer, where the first TLP's number is
    /// known.
    pub fn distance(&self, number: u16) -> u16
        requires { number < 4096 }
        ensures { (base : ℕ) → self.now.base ≡ Some base →
            result ≡ advance base self.now.answered number }
    {
        difference(after(number), self.unanswered)
    }

    /// Whether an Ack or Nak of this number, which isn't valid, answers TLPs that the capture
    /// hasn't got.
    pub fn is_ahead(&self, number: u16) -> bool
        requires number { number < 4096 }
        requires invalid { is_valid self.now number ≡ Bool.false }
        ensures { result ≡ is_ahead self.now number }
    {
        match self.base {
            Some(_) => {
                let count = difference(after(number), self.unanswered);
                self.torn && count <= MOST_UNACKNOWLEDGED
            }
            None => self.torn,
        }
    }

    /// One TLP more is taken, which has the next number.
    pub fn take(&mut self, number: u16)
        requires number { number < 4096 }
        requires due { place_of self.old number Body.Whole ≡ Place.Taken }
        requires few { self.old.next < 18446744073709551615 }
        ensures { self.new ≡ with_taken self.old number }
    {
        if self.base.is_none() {
            self.base = Some(number);
            self.unanswered = number;
        }
        self.next += 1;
        self.due = after(number);
    }

    /// So many TLPs more are answered, by an Ack or Nak of this number.
    pub fn answer(&mut self, number: u16, count: u16)
        requires number { number < 4096 }
        requires valid { is_valid self.old number ≡ Bool.true }
        requires count { count ≡ newly_answered self.old number }
        requires order { self.old.answered + count ≤ self.old.next }
        ensures { self.new ≡ with_answered self.old count }
    {
        self.answered += u64::from(count);
        self.unanswered = after(number);
    }
}
