//! Rows of DLLPs.
ghost use Rattle.std.specs.Prelude.{IsTrue};
ghost use Rattle.pl_dllp.specs.Encodable.{FitsWidths, IsEncodable};

use crate::notation::Notation;
use pl_base::{Class, Dir};
use pl_dllp::{Dllp, Fc, Stage};
use std::alloc::AllocError;

/// The DLLP of this name, as `Ack` or `UpdateFC-NP`, and these fields.
pub(crate) fn parse(name: &str, fields: &[&str]) -> Option<Dllp> {
    match (name, fields) {
        ("Ack", [number]) => Some(Dllp::Ack(number.parse().ok()?)),
        ("Nak", [number]) => Some(Dllp::Nak(number.parse().ok()?)),
        _ => {
            let (stage, class) = name.split_once('-')?;
            let fc = credits(stage_of(stage)?, class_of(class)?, fields)?;
            Some(Dllp::Flow(fc))
        }
    }
}

fn stage_of(name: &str) -> Option<Stage> {
    match name {
        "InitFC1" => Some(Stage::Init1),
        "InitFC2" => Some(Stage::Init2),
        "UpdateFC" => Some(Stage::Update),
        _ => None,
    }
}

pub(crate) fn class_of(name: &str) -> Option<Class> {
    match name {
        "P" => Some(Class::P),
        "NP" => Some(Class::Np),
        "Cpl" => Some(Class::Cpl),
        _ => None,
    }
}

/// Credits of a class, such as `32/64 HdrScale 10`.
pub(crate) fn credits(stage: Stage, class: Class, fields: &[&str]) -> Option<Fc> {
    let (amounts, others) = fields.split_first()?;
    let (header, units) = amounts.split_once('/')?;
    let mut fc = Fc {
        stage,
        class,
        vc: 0,
        hdr_scale: 0,
        hdr: header.parse().ok()?,
        data_scale: 0,
        units: units.parse().ok()?,
    };
    for field in others.chunks(2) {
        match field {
            ["HdrScale", bits] => fc.hdr_scale = u8::from_str_radix(bits, 2).ok()?,
            ["DataScale", bits] => fc.data_scale = u8::from_str_radix(bits, 2).ok()?,
            ["VC", number] => fc.vc = number.parse().ok()?,
            _ => return None,
        }
    }
    Some(fc)
}

/// Adds the DLLP where each field fits its width, and says whether it does.
pub(crate) fn add_to(notation: &mut Notation, dir: Dir, dllp: &Dllp) -> Result<bool, AllocError> {
    if !fits(dllp) {
        return Ok(false);
    }
    notation.packet(dir, dllp)?;
    Ok(true)
}

/// Whether each field of a DLLP fits its width.
fn fits(dllp: &Dllp) -> bool
    ensures { IsTrue result → IsEncodable dllp.now }
{
    match dllp {
        Dllp::Ack(number) | Dllp::Nak(number) => *number < 4096,
        Dllp::Flow(fc) => fits_widths(fc),
        Dllp::Other(..) => false,
    }
}

/// Whether each field of a flow-control DLLP fits its width.
fn fits_widths(fc: &Fc) -> bool
    ensures { IsTrue result → FitsWidths fc.now }
{
    fc.vc < 8 && fc.hdr_scale < 4 && u16::from(fc.hdr) < 256 && fc.data_scale < 4 && fc.units < 4096
}
