//! Fields that are asked for, out of the bytes and out of a TLP that is made, for each layout.
use super::{MESSAGE, blank};
use crate::kind::Layout;
use crate::{Kind, Packet, Seen, Tlp, View, see, view};

/// The fields that the methods give; `ep` and `completer`, and the address of a message, are left
/// at 0.
fn asked<P: Packet>(packet: &P) -> Tlp<'_> {
    let common = Tlp {
        wide: packet.wide(),
        tc: packet.tc(),
        attr: packet.attr(),
        at: packet.at(),
        th: packet.th(),
        length: packet.length(),
        requester: packet.requester(),
        tag: packet.tag(),
        prefixes: packet.prefixes(),
        payload: packet.payload(),
        digest: packet.digest(),
        header: packet.header(),
        ..blank(packet.kind())
    };
    match packet.kind().layout() {
        Layout::Addressed | Layout::Configuration => Tlp {
            first_be: packet.first_be(),
            last_be: packet.last_be(),
            address: packet.address(),
            ..common
        },
        Layout::Message => Tlp {
            code: packet.code(),
            routing: packet.routing(),
            ..common
        },
        Layout::Completion => Tlp {
            status: packet.status(),
            bcm: packet.bcm(),
            byte_count: packet.byte_count(),
            lower: packet.lower(),
            ..common
        },
    }
}

/// Whether the bytes are a whole TLP, of which the methods give these fields: both out of the bytes
/// and out of a TLP that is made of them.
fn is_asked_as(bytes: &[u8], fields: &Tlp) -> bool {
    match (see(bytes), view(bytes)) {
        (Seen::Whole(captured), View::Whole(tlp)) => {
            asked(&captured) == *fields && asked(&tlp) == *fields
        }
        _ => false,
    }
}

/// A prefix, a header of 4 DW, one DW of data and a digest.
const WRITE: [u8; 28] = [
    0x90, 0x01, 0x02, 0x03, 0x60, 0xd5, 0x98, 0x01, 0x12, 0x34, 0x56, 0x3c, 0x01, 0x02, 0x03, 0x04,
    0x05, 0x06, 0x07, 0x0b, 0xd0, 0xd1, 0xd2, 0xd3, 0xe0, 0xe1, 0xe2, 0xe3,
];

#[test]
fn a_memory_write_is_asked_for_all_its_parts(rt: HostRuntime) {
    let write = Tlp {
        wide: true,
        tc: 5,
        attr: 0b101,
        at: 2,
        th: true,
        length: 1,
        requester: 0x1234,
        tag: 0x256,
        first_be: 0xc,
        last_be: 0x3,
        address: 0x0102_0304_0506_0708,
        prefixes: &[0x90, 0x01, 0x02, 0x03],
        payload: &[0xd0, 0xd1, 0xd2, 0xd3],
        digest: Some([0xe0, 0xe1, 0xe2, 0xe3]),
        header: &WRITE[4..20],
        ..blank(Kind::MWr)
    };
    assert!(rt; is_asked_as(&WRITE, &write));
}

#[test]
fn a_configuration_read_is_asked_for_its_address_as_it_stands(rt: HostRuntime) {
    let bytes = [
        0x04, 0, 0, 1, 0x01, 0x00, 0x02, 0x0f, 0x03, 0x00, 0x00, 0x43,
    ];
    let read = Tlp {
        requester: 0x0100,
        tag: 2,
        first_be: 0xf,
        address: 0x0300_0043,
        header: &bytes,
        ..blank(Kind::CfgRd0)
    };
    assert!(rt; is_asked_as(&bytes, &read));
}

#[test]
fn a_message_is_asked_for_its_code_and_routing(rt: HostRuntime) {
    let message = Tlp {
        wide: true,
        tc: 7,
        attr: 2,
        length: 1024,
        requester: 0x0108,
        tag: 7,
        code: 0x18,
        routing: 4,
        header: &MESSAGE,
        ..blank(Kind::Msg)
    };
    assert!(rt; is_asked_as(&MESSAGE, &message));
}

#[test]
fn a_completion_is_asked_for_what_it_answers(rt: HostRuntime) {
    let bytes = [
        0x0a, 0x08, 0x00, 0x00, 0, 0, 0x70, 0x00, 0x12, 0x34, 0x56, 0xff,
    ];
    let completion = Tlp {
        length: 1024,
        requester: 0x1234,
        tag: 0x156,
        status: 1,
        bcm: true,
        byte_count: 4096,
        lower: 0x7f,
        header: &bytes,
        ..blank(Kind::Cpl)
    };
    assert!(rt; is_asked_as(&bytes, &completion));
}

#[test]
fn nothing_is_asked_of_bytes_that_are_no_whole_tlp(rt: HostRuntime) {
    assert_eq!(rt; see(&[0x1b]), Seen::Undefined);
    assert_eq!(rt; see(&MESSAGE[..15]), Seen::WrongSize);
    assert_eq!(rt; see(&[0x90, 0, 0, 0]), Seen::WrongSize);
}
