//! The bytes of the packets that a generated capture has.
//! PCI Express Base Specification 5.0, chapter 2 (TLP headers) and chapter 3 (framing, DLLP
//! formats, CRCs).
ghost use Rattle.std.specs.Prelude.{◌≡◌, ◌≤◌, ◌<◌, ◌+◌, ◌++◌, length, take};
ghost use Rattle.pl_crc.specs.Remainder.{crc32_of};
ghost use Rattle.pl_base.specs.Bits.{value};
ghost use Rattle.pl_dllp.specs.Frame.{frame, reserved_bits};
ghost use Rattle.pl_dllp.specs.declared.packet.Decoded.TheVariants.{Ok};
ghost use Rattle.pl_dllp.specs.declared.packet.Dllp.TheVariants.{Ack, Flow};
ghost use Rattle.pl_tlp.specs.Encoding.{IsSeenAs};
ghost use Rattle.pl_tlp.specs.Fields.{fields};
ghost use Rattle.pl_tlp.specs.Fit.{Fits};
ghost use Rattle.pl_make.specs.Generated as spec;
ghost use Rattle.pl_make.specs.Packets.{IsPlain, ack_bytes, credit_bytes, framed, tlp_bytes};

use pl_base::Class;
use pl_crc::crc32;
use pl_dllp::{Dllp, Fc, Stage, encode};
use pl_tlp::{Tlp, encode_into};

/// The bytes of the longest framed TLP: a sequence number, 3 DW of header, 16 DW of data, an LCRC.
pub(crate) const LONGEST: usize = 82;

/// The six bytes of an Ack of this sequence number.
pub(crate) fn ack(number: u16) -> [u8; 6]
    requires { number < 4096 }
    ensures bytes { result ≡ ack_bytes number }
    ensures read { frame result ≡ Ok (Ack number) }
{
    let bytes = encode(&Dllp::Ack(number));
    is_ack(&bytes, number);
    bytes
}

/// The six bytes of a flow-control DLLP on virtual channel 0 that grants these header and data
/// credits, not scaled.
pub(crate) fn credits(stage: Stage, class: Class, header: u8, units: u16) -> [u8; 6]
    requires { units < 4096 }
    ensures bytes { result ≡ credit_bytes (spec.credits stage class header units) }
    ensures read { frame result ≡ Ok (Flow (spec.credits stage class header units)) }
{
    let fc = Fc {
        stage,
        class,
        vc: 0,
        hdr_scale: 0,
        hdr: header,
        data_scale: 0,
        units,
    };
    let bytes = encode(&Dllp::Flow(fc));
    is_credits(&bytes, &fc);
    bytes
}

/// Six bytes that are read as an Ack with reserved bits 0 are the ones that its fields place.
#[inline(always)]
fn is_ack(bytes: &[u8], number: u16)
    requires size { length bytes.now ≡ 6 }
    requires frame { frame bytes.now ≡ Ok (Ack number) }
    requires reserved { value reserved_bits bytes.now ≡ 0 }
    ensures { bytes.now ≡ ack_bytes number }
{}

/// Six bytes that are read as credits are the ones that their fields place.
#[inline(always)]
fn is_credits(bytes: &[u8], fc: &Fc)
    requires size { length bytes.now ≡ 6 }
    requires frame { frame bytes.now ≡ Ok (Flow fc.now) }
    ensures { bytes.now ≡ credit_bytes fc.now }
{}

/// Writes a TLP with its sequence number and LCRC at the front of `out`, and says how many bytes
/// these are.
pub(crate) fn frame(number: u16, tlp: &Tlp, out: &mut [u8; LONGEST]) -> usize
    requires number { number < 4096 }
    requires fits { Fits (fields tlp.now) }
    requires plain { IsPlain (fields tlp.now) }
    ensures least { 6 ≤ result }
    ensures size { result ≤ 82 }
    ensures bytes { take result out.new ≡ framed number (tlp_bytes (fields tlp.now)) }
{
    out[..2].copy_from_slice(&number.to_be_bytes());
    let size = 2 + write_tlp(tlp, &mut out[2..]);
    append_lcrc(out, size);
    size + 4
}

/// Writes the LCRC of the first `size` bytes behind them.
fn append_lcrc(out: &mut [u8; LONGEST], size: usize)
    requires { size ≤ 78 }
    ensures { take (size + 4) out.new ≡ take size out.old ++ crc32_of (take size out.old) }
{
    let lcrc = crc32(&out[..size]);
    out[size..size + 4].copy_from_slice(&lcrc);
}

/// Writes a TLP at the front of `out`, and says how many bytes it has.
fn write_tlp(tlp: &Tlp, out: &mut [u8]) -> usize
    requires fits { Fits (fields tlp.now) }
    requires plain { IsPlain (fields tlp.now) }
    requires room { 76 ≤ length out.old }
    ensures size { result ≤ 76 }
    ensures seen { IsSeenAs (fields tlp.now) (take result out.new) }
    ensures bytes { take result out.new ≡ tlp_bytes (fields tlp.now) }
{
    match encode_into(tlp, out) {
        Some(size) => size,
        None => unreachable!(),
    }
}
