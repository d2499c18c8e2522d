//! The verdicts on whole captures as JSON, whose DLLPs have CRCs that were computed elsewhere.
ghost use Rattle.std.specs.Prelude.{◌<◌, ◌^◌, length};

use crate::verdicts_json;
use pl_engine::judge_all;
use pl_profile::Profile;
use std::alloc::Global;
use std::test::Fail;

/// Two DLLPs Up: an Ack of 4095, and the same with a wrong last byte.
const DAMAGED: [u8; 72] = [
    0x50, 0x43, 0x49, 0x45, 0x4C, 0x49, 0x4E, 0x4B, 0x00, 0x01, 0x00, 0, 0, 0, 0, 0, // header
    0x01, 0x01, 0x00, 0x06, 0, 0, 0, 0, 0, 0, 0, 1, 0x00, 0x00, 0x0F, 0xFF, 0x25, 0xA8, // item 1
    0x01, 0x01, 0x00, 0x06, 0, 0, 0, 0, 0, 0, 0, 2, 0x00, 0x00, 0x0F, 0xFF, 0x25, 0xA9, // item 2
    0x03, 0x00, 0x00, 0x08, 0, 0, 0, 0, 0, 0, 0, 2, 0, 0, 0, 0, 0, 0, 0, 2, // end
];

/// Three DLLPs Up: an initial grant of posted credits without end, an update that grants a number
/// of them, and the Ack with a wrong last byte.
const UPDATED: [u8; 90] = [
    0x50, 0x43, 0x49, 0x45, 0x4C, 0x49, 0x4E, 0x4B, 0x00, 0x01, 0x00, 0, 0, 0, 0, 0, // header
    0x01, 0x01, 0x00, 0x06, 0, 0, 0, 0, 0, 0, 0, 1, 0x40, 0x00, 0x00, 0x00, 0x0E, 0x5D, // item 1
    0x01, 0x01, 0x00, 0x06, 0, 0, 0, 0, 0, 0, 0, 2, 0x80, 0x00, 0x40, 0x00, 0x25, 0x73, // item 2
    0x01, 0x01, 0x00, 0x06, 0, 0, 0, 0, 0, 0, 0, 3, 0x00, 0x00, 0x0F, 0xFF, 0x25, 0xA9, // item 3
    0x03, 0x00, 0x00, 0x08, 0, 0, 0, 0, 0, 0, 0, 3, 0, 0, 0, 0, 0, 0, 0, 3, // end
];

/// The JSON of a capture's verdicts, of which `most` are kept.
fn told(alloc: Global, bench: &str, key: &str, bytes: &[u8], most: usize) -> Result<String, Fail>
    requires { length bytes.now < 2 ^ 60 }
{
    let judged = judge_all(alloc, Profile::usual(), bytes, most)?;
    let text = verdicts_json(alloc, bench, key, &judged)?;
    Ok(String::from_utf8(text)?)
}

#[test]
fn each_verdict_has_its_rule_and_the_items_that_it_cites(rt: HostRuntime) -> Result<(), Fail> {
    let alloc = rt.alloc();
    assert_eq!(rt;
        told(alloc, "b1", "k1", &DAMAGED, 9)?.as_str(),
        "{\"bench\":\"b1\",\"items\":2,\"key\":\"k1\",\"total\":1,\
         \"verdicts\":[{\"at\":2,\"first\":null,\"rule\":\"L2\",\"second\":null}]}"
    );
    assert_eq!(rt;
        told(alloc, "b1", "k1", &UPDATED, 9)?.as_str(),
        "{\"bench\":\"b1\",\"items\":3,\"key\":\"k1\",\"total\":2,\
         \"verdicts\":[{\"at\":2,\"first\":1,\"rule\":\"F5\",\"second\":null},\
         {\"at\":3,\"first\":null,\"rule\":\"L2\",\"second\":null}]}"
    );
    Ok(())
}

#[test]
fn the_total_counts_verdicts_that_are_not_kept(rt: HostRuntime) -> Result<(), Fail> {
    let alloc = rt.alloc();
    assert_eq!(rt;
        told(alloc, "b1", "k1", &UPDATED, 0)?.as_str(),
        "{\"bench\":\"b1\",\"items\":3,\"key\":\"k1\",\"total\":2,\"verdicts\":[]}"
    );
    Ok(())
}

#[test]
fn a_name_is_escaped_where_it_has_to_be(rt: HostRuntime) -> Result<(), Fail> {
    let alloc = rt.alloc();
    assert_eq!(rt;
        told(alloc, "a\"b\\c", "\n\u{1f}ä/", &DAMAGED, 0)?.as_str(),
        "{\"bench\":\"a\\\"b\\\\c\",\"items\":2,\"key\":\"\\n\\u001fä/\",\"total\":1,\
         \"verdicts\":[]}"
    );
    Ok(())
}
