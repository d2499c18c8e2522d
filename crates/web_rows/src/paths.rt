//! Which paths have a route, and the names in them.

use pl_web::{Kind, Routes, is_name, segment};
use std::test::Fail;

const PATHS: [(&str, Option<Kind>); 21] = [
    ("/benches/b1/profiles/gen3", Some(Kind::PutProfile)),
    (
        "/benches/b1/profiles/gen3/captures/run-7",
        Some(Kind::PutCapture),
    ),
    ("/benches/b1/captures", Some(Kind::ListCaptures)),
    ("/benches/b1/captures/run-7", Some(Kind::GetCapture)),
    (
        "/benches/b1/captures/run-7/verdicts",
        Some(Kind::GetVerdicts),
    ),
    ("/benches/b1/rules/L2", Some(Kind::GetHits)),
    ("/benches/b1/rules/", None),
    ("/benches/b1/rules/L2/", None),
    ("/benches/captures/captures", Some(Kind::ListCaptures)),
    ("/benches//captures", None),
    ("/benches/b1/captures/", None),
    ("/benches/b1/captures//verdicts", None),
    ("/benches/b1/captures/run-7/", None),
    ("/benches/b1/captures/run-7/verdict", None),
    ("/benches/b1/captures/run-7/verdicts/", None),
    ("/benches/b1/profiles", None),
    ("/benches/b1/profiles/gen3/captures", None),
    ("/benches/b1/profiles/gen3/captures/run-7/verdicts", None),
    ("benches/b1/captures", None),
    ("//benches/b1/captures", None),
    ("/Benches/b1/captures", None),
];

#[test]
fn a_path_with_a_slash_more_or_less_has_no_route(rt: HostRuntime) -> Result<(), Fail> {
    let routes = Routes::new(rt.alloc())?;
    for (path, kind) in PATHS {
        assert_eq!(rt; routes.kind(path), kind, "{path}");
    }
    Ok(())
}

#[test]
fn a_query_is_part_of_the_last_segment(rt: HostRuntime) -> Result<(), Fail> {
    let routes = Routes::new(rt.alloc())?;
    assert_eq!(rt; routes.kind("/benches/b1/captures?all"), None);
    assert_eq!(rt;
        routes.kind("/benches/b1/captures/k?all"),
        Some(Kind::GetCapture)
    );
    assert_eq!(rt; segment("/benches/b1/captures/k?all", 4), "k?all");
    Ok(())
}

#[test]
fn segments_stand_between_slashes(rt: HostRuntime) -> Result<(), Fail> {
    let path = "/benches/b1/profiles/gen3/captures/run-7";
    assert_eq!(rt; segment(path, 0), "");
    assert_eq!(rt; segment(path, 2), "b1");
    assert_eq!(rt; segment(path, 4), "gen3");
    assert_eq!(rt; segment(path, 6), "run-7");
    assert_eq!(rt; segment(path, 7), "");
    Ok(())
}

#[test]
fn a_name_has_1_to_64_small_letters_digits_and_marks(rt: HostRuntime) -> Result<(), Fail> {
    let longest = "abcdefghijklmnopqrstuvwxyz0123456789_-abcdefghijklmnopqrstuvwxyz";
    assert_eq!(rt; longest.len(), 64);
    assert!(rt; is_name(longest));
    assert!(rt; !is_name("abcdefghijklmnopqrstuvwxyz0123456789_-abcdefghijklmnopqrstuvwxyz0"));
    for name in ["a", "0", "_", "-", "run-7", "a_b"] {
        assert!(rt; is_name(name), "{name}");
    }
    for name in ["", "B1", "a.b", "a b", "a%20", "\u{e9}", "`", "{", "/", ":"] {
        assert!(rt; !is_name(name), "{name}");
    }
    Ok(())
}
