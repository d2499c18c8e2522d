//! Where a capture stands: which of its items is made next.
ghost use Rattle.std.specs.Prelude.{◌≡◌, ◌<◌, ◌≤◌, ◌+◌, ◌-◌, ◌∷◌};

use crate::draw::step;

/// Six items that belong together.
#[derive(Clone, Copy, Debug, PartialEq, Eq)]
pub(crate) enum Group {
    /// Both ends' InitFC1.
    FirstInit,
    /// Both ends' InitFC2.
    SecondInit,
    /// A read, its two completions, and what acknowledges them.
    Round,
}

/// The item that is made next.
#[derive(Clone, Copy, Debug)]
pub(crate) struct Position {
    pub group: Group,
    /// The item of the group, 0 to 5.
    pub index: u8,
    /// The round, 0 in the bring-up.
    pub round: u32,
    /// The generator's number: that of the round, in the bring-up the first one.
    pub x: u64,
    ghost of_six: { index < 6 },
    ghost of_rounds: { round < 1000000 },
}

impl Position {
    ghost use Rattle.pl_make.specs.Generated as generated;
    ghost use Rattle.pl_make.specs.declared.position.Group.TheVariants.{FirstInit, Round};
    ghost use Rattle.pl_make.specs.Left.{items_from, items_from_next};
    ghost use Rattle.pl_make.specs.Left as spec;

    /// The first item of a capture.
    pub fn first(number: u64) -> Position
        ensures group { result.group ≡ FirstInit }
        ensures index { result.index ≡ 0 }
        ensures round { result.round ≡ 0 }
        ensures x { result.x ≡ number }
    {
        Position {
            group: Group::FirstInit,
            index: 0,
            round: 0,
            x: number,
        }
    }

    /// The first item of a round, where the generator's number is that of the round before.
    fn of_round(round: u32, before: u64) -> Position
        requires { round < 1000000 }
        ensures group { result.group ≡ Round }
        ensures index { result.index ≡ 0 }
        ensures round { result.round ≡ round }
        ensures x { result.x ≡ generated.step before }
    {
        Position {
            group: Group::Round,
            index: 0,
            round,
            x: step(before),
        }
    }

    /// The item of this group and index, with the same round and number.
    fn at(&self, group: Group, index: u8) -> Position
        requires { index < 6 }
        ensures group { result.group ≡ group }
        ensures index { result.index ≡ index }
        ensures round { result.round ≡ self.now.round }
        ensures x { result.x ≡ self.now.x }
    {
        Position {
            group,
            index,
            round: self.round,
            x: self.x,
        }
    }

    /// The next item in a capture with this many rounds, or none behind the last.
    pub fn next(&self, count: u32) -> Option<Position>
        requires some { 1 ≤ count }
        requires most { count ≤ 1000000 }
        ensures { items_from count self.now ≡ spec.item_at self.now ∷ items_from_next count result }
    {
        if self.index < 5 {
            return Some(self.at(self.group, self.index + 1));
        }
        match self.group {
            Group::FirstInit => Some(self.at(Group::SecondInit, 0)),
            Group::SecondInit => Some(Position::of_round(0, self.x)),
            Group::Round => {
                if self.round + 1 < count {
                    return Some(Position::of_round(self.round + 1, self.x));
                }
                None
            }
        }
    }
}
