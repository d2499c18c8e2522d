//! How far a grant reaches in a pool: computed once for each grant, and compared for each TLP.
//! PCI Express Base Specification 5.0, chapter 2: flow control, and scaled flow control.
ghost use Rattle.std.specs.Prelude.{◌≡◌, ℕ, ◌+◌, ◌%◌, Option};
ghost use Rattle.pl_credit.specs.declared.advert.Advert.{Advert};
ghost use Rattle.pl_credit.specs.Pools.{kept_ring};
ghost use Rattle.pl_credit.specs.Rules.{overspends};

use crate::pool::Pool;
use pl_dllp::Fc;

/// Up to where the credits of a pool may be used, on its ring.
#[derive(Clone, Copy, Debug)]
pub struct Limit {
    /// What is granted, in credits, modulo 65,536.
    granted: u16,
    /// The numbers on the ring of the pool less one; 0 where there is no limit.
    mask: u16,
    /// Half of the numbers on the ring; 0 where there is no limit.
    half: u16,
}

impl Limit {
    ghost use Rattle.pl_credit.specs.Limits.{limit, limit_under, no_limit};

    /// Of credits without end, and before there is an initial.
    pub fn none() -> Limit
        ensures { result ≡ no_limit }
    {
        Limit {
            granted: 0,
            mask: 0,
            half: 0,
        }
    }

    /// Of this grant, where the initial of the class is that one.
    pub fn of(pool: Pool, initial: &Fc, grant: &Fc) -> Limit
        ensures { result ≡ limit_under pool initial.now grant.now }
    {
        if pool.is_infinite(initial) {
            return Limit::none();
        }
        let ring = pool.ring(initial);
        Limit {
            granted: (pool.granted(initial, grant) % 65536) as u16,
            mask: (ring - 1) as u16,
            half: (ring / 2) as u16,
        }
    }

    /// Whether the granted credits don't suffice for a TLP, when so many were used before it.
    ///
    /// `used` is a sum of which only the remainder by the kept ring is given: it decides as the sum
    /// does.
    #[inline(always)]
    pub fn falls_short(self, used: u16, cost: u16) -> bool
        ensures { (pool : Pool) (initial grant : Option Advert) (sum : ℕ)
            → self ≡ limit pool initial grant → used ≡ sum % kept_ring pool
            → result ≡ overspends pool initial grant (sum + cost) }
    {
        let spent = used.wrapping_add(cost);
        self.granted.wrapping_sub(spent) & self.mask > self.half
    }
}
