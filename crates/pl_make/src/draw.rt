//! The numbers of the generator, and what a round takes from one of them.
ghost use Rattle.std.specs.Prelude.{◌≡◌};
ghost use Rattle.pl_make.specs.Generated as spec;
ghost use Rattle.pl_make.specs.Generated.{IsDraw, drawn, start};

/// What a round takes from the generator's number.
#[derive(Clone, Copy, Debug)]
pub(crate) struct Draw {
    /// The length in DW of the first part of the read, 1 to 16.
    pub before: u16,
    /// The length in DW of the second part, 1 to 16.
    pub behind: u16,
    /// The address in bytes at which the parts meet, a multiple of 64.
    pub boundary: u64,
}

/// The generator's next number.
pub(crate) fn step(x: u64) -> u64
    ensures { result ≡ spec.step x }
{
    x.wrapping_mul(6_364_136_223_846_793_005)
        .wrapping_add(1_442_695_040_888_963_407)
}

impl Draw {
    /// What a round takes from this number: its upper half counts.
    #[tactic(auto, unfolding(crate::specs::Generated::drawn))]
    pub fn of(x: u64) -> Draw
        ensures drawn { result ≡ drawn x }
        ensures bounds { IsDraw result }
    {
        let y = x >> 32;
        let unit = y / 256 % 62;
        let page = y / 16_384 % 65_536;
        Draw {
            before: (1 + y % 16) as u16,
            behind: (1 + y / 16 % 16) as u16,
            boundary: 4096 * page + 64 * (1 + unit),
        }
    }

    /// The address in bytes at which the read begins.
    pub fn start(&self) -> u64
        requires { IsDraw self.now }
        ensures { result ≡ start self.now }
    {
        self.boundary - 4 * u64::from(self.before)
    }
}
