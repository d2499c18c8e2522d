//! What requests ask for, and which of two reasons to refuse one comes first.

use pl_base::Rule;
use pl_head::{Form, Method};
use pl_web::{Refusal, Request, Routes, read_request};
use std::test::Fail;

const SIZED: Form = Form::Length(5);

#[test]
fn each_route_asks_for_what_it_names(rt: HostRuntime) -> Result<(), Fail> {
    let routes = Routes::new(rt.alloc())?;
    let (bench, profile, key) = ("b1", "gen3", "run-7");
    let asked = read_request(&routes, b"PUT", "/benches/b1/profiles/gen3", SIZED);
    let wanted = Request::PutProfile {
        bench,
        profile,
        length: 5,
    };
    assert_eq!(rt; asked, Ok(wanted));
    let target = "/benches/b1/profiles/gen3/captures/run-7";
    let wanted = Request::PutCapture {
        bench,
        profile,
        key,
        length: 0,
    };
    assert_eq!(rt;
        read_request(&routes, b"PUT", target, Form::Length(0)),
        Ok(wanted)
    );
    let asked = read_request(&routes, b"GET", "/benches/b1/captures", Form::Without);
    assert_eq!(rt; asked, Ok(Request::ListCaptures { bench }));
    let asked = read_request(&routes, b"GET", "/benches/b1/captures/run-7", Form::Without);
    assert_eq!(rt; asked, Ok(Request::GetCapture { bench, key }));
    let target = "/benches/b1/captures/run-7/verdicts";
    let asked = read_request(&routes, b"GET", target, Form::Without);
    assert_eq!(rt; asked, Ok(Request::GetVerdicts { bench, key }));
    let asked = read_request(&routes, b"GET", "/benches/b1/rules/M20", Form::Without);
    let rule = Rule::M20;
    assert_eq!(rt; asked, Ok(Request::GetHits { bench, rule }));
    Ok(())
}

#[test]
fn a_get_may_have_a_length(rt: HostRuntime) -> Result<(), Fail> {
    let routes = Routes::new(rt.alloc())?;
    let asked = read_request(
        &routes,
        b"GET",
        "/benches/b1/captures",
        Form::Length(u64::MAX),
    );
    assert_eq!(rt; asked, Ok(Request::ListCaptures { bench: "b1" }));
    Ok(())
}

/// Each is broken in two ways, and refused for the first.
const REFUSED: [(&[u8], &str, Form, Refusal); 15] = [
    (b"DELETE", "/nowhere", Form::Refused, Refusal::Framing),
    (b"DELETE", "/nowhere", Form::Without, Refusal::Route),
    (b"GET", "/benches/B1/captures/", SIZED, Refusal::Route),
    (
        b"POST",
        "/benches/B1/captures",
        SIZED,
        Refusal::WrongMethod(Method::Get),
    ),
    (
        b"GET",
        "/benches/b1/profiles/P",
        Form::Without,
        Refusal::WrongMethod(Method::Put),
    ),
    (
        b"get",
        "/benches/b1/captures",
        Form::Without,
        Refusal::WrongMethod(Method::Get),
    ),
    (
        b"PUT",
        "/benches/b1/profiles/P",
        Form::Without,
        Refusal::Name,
    ),
    (
        b"PUT",
        "/benches/b1/profiles/p/captures/K",
        Form::Length(4_194_305),
        Refusal::Name,
    ),
    (
        b"PUT",
        "/benches/b1/profiles/p",
        Form::Without,
        Refusal::NoLength,
    ),
    (
        b"PUT",
        "/benches/b1/profiles/p",
        Form::Length(4_194_305),
        Refusal::TooLong,
    ),
    (b"GET", "/benches/B1/rules/", SIZED, Refusal::Route),
    (
        b"PUT",
        "/benches/B1/rules/Z9",
        Form::Without,
        Refusal::WrongMethod(Method::Get),
    ),
    (b"GET", "/benches/B1/rules/Z9", Form::Without, Refusal::Name),
    (
        b"GET",
        "/benches/b1/rules/Z9",
        Form::Length(4_194_305),
        Refusal::NoRule,
    ),
    (
        b"GET",
        "/benches/b1/rules/L2?all",
        Form::Without,
        Refusal::NoRule,
    ),
];

#[test]
fn the_first_reason_to_refuse_a_request_counts(rt: HostRuntime) -> Result<(), Fail> {
    let routes = Routes::new(rt.alloc())?;
    for (method, target, form, refusal) in REFUSED {
        let asked = read_request(&routes, method, target, form);
        assert_eq!(rt; asked, Err(refusal), "{target}");
    }
    Ok(())
}

#[test]
fn a_body_of_the_longest_length_may_come(rt: HostRuntime) -> Result<(), Fail> {
    let routes = Routes::new(rt.alloc())?;
    let target = "/benches/b1/profiles/p";
    let asked = read_request(&routes, b"PUT", target, Form::Length(4_194_304));
    let wanted = Request::PutProfile {
        bench: "b1",
        profile: "p",
        length: 4_194_304,
    };
    assert_eq!(rt; asked, Ok(wanted));
    Ok(())
}
