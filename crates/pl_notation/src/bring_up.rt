//! Rows of a bring-up: both ends advertise their credits on VC 0, InitFC1 and then InitFC2 for P,
//! NP and Cpl.
use crate::dllp_row::{add_to, class_of, credits};
use crate::notation::Notation;
use pl_base::{Class, Dir};
use pl_dllp::{Dllp, Fc, Stage};
use std::alloc::AllocError;

/// What both ends advertise for P, NP and Cpl.
#[derive(Clone, Copy)]
pub(crate) struct Credits {
    down: [Fc; 3],
    up: [Fc; 3],
}

/// Header and data credits of a class, not scaled.
fn advertised(class: Class, header: u8, units: u16) -> Fc {
    Fc {
        stage: Stage::Init1,
        class,
        vc: 0,
        hdr_scale: 0,
        hdr: header,
        data_scale: 0,
        units,
    }
}

impl Credits {
    /// Unlimited credits, which are written as 0.
    pub fn unlimited() -> Credits {
        let all = [
            advertised(Class::P, 0, 0),
            advertised(Class::Np, 0, 0),
            advertised(Class::Cpl, 0, 0),
        ];
        Credits { down: all, up: all }
    }

    /// Limited credits, but for the completions that the Root Complex takes.
    pub fn limited() -> Credits {
        Credits {
            down: [
                advertised(Class::P, 32, 64),
                advertised(Class::Np, 32, 32),
                advertised(Class::Cpl, 32, 64),
            ],
            up: [
                advertised(Class::P, 32, 64),
                advertised(Class::Np, 32, 32),
                advertised(Class::Cpl, 0, 0),
            ],
        }
    }

    /// The same, but for what these words say, as `with Down P 127/0`.
    pub fn with(mut self, words: &[&str]) -> Option<Credits> {
        match words {
            [] => {}
            ["with", "Down", class, fields @ ..] => {
                let fc = credits(Stage::Init1, class_of(class)?, fields)?;
                self.down = replaced(self.down, fc);
            }
            ["with", "Up", class, fields @ ..] => {
                let fc = credits(Stage::Init1, class_of(class)?, fields)?;
                self.up = replaced(self.up, fc);
            }
            _ => return None,
        }
        Some(self)
    }

    /// Adds the twelve items, and says whether each field fits its width.
    pub fn add_to(&self, notation: &mut Notation) -> Result<bool, AllocError> {
        for stage in [Stage::Init1, Stage::Init2] {
            for fc in self.down {
                if !add_to(notation, Dir::Down, &Dllp::Flow(Fc { stage, ..fc }))? {
                    return Ok(false);
                }
            }
            for fc in self.up {
                if !add_to(notation, Dir::Up, &Dllp::Flow(Fc { stage, ..fc }))? {
                    return Ok(false);
                }
            }
        }
        Ok(true)
    }
}

/// The same credits, but for those of one class.
fn replaced(all: [Fc; 3], fc: Fc) -> [Fc; 3] {
    all.map(|old| if old.class == fc.class { fc } else { old })
}
