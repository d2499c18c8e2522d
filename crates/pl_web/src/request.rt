//! What a request asks for, by its method, its target and the form of its body.
ghost use Rattle.std.specs.Prelude.{◌≡◌, ◌≤◌, get_or, [], true, false, bytes_eq, IfOk, IfErr};
ghost use Rattle.std.specs.Prelude.{OnErr, Some, None};
ghost use Rattle.pl_head.specs.Reply.{method_name};
ghost use Rattle.pl_report.specs.Summary.{named};
ghost use Rattle.pl_web.specs.Names.{is_name as is_name_text};
ghost use Rattle.pl_web.specs.Paths.{kind_of, segments_of};
ghost use Rattle.pl_web.specs.Requests.{asked_by, asked_in, asked_of_kind, asked_of_route};
ghost use Rattle.pl_web.specs.Requests.{HasShortBody, length_by, method_of};
ghost use Rattle.pl_web.specs.Refusals.{longest_body};

use crate::names::{is_name, segment};
use crate::refusal::{LONGEST_BODY, Refusal};
use crate::routes::{Kind, Routes};
use pl_base::Rule;
use pl_head::{Form, Method};
use pl_report::rule_named;

/// What a request asks for. Each name has 1 to 64 of the characters `a` to `z`, `0` to `9`, `_` and
/// `-`; a length is the number of bytes of the body, at most 4,194,304.
#[derive(Clone, Copy, Debug, PartialEq, Eq)]
pub enum Request<'t> {
    /// Stores a profile.
    PutProfile {
        bench: &'t str,
        profile: &'t str,
        length: u64,
    },
    /// Stores a capture under a profile.
    PutCapture {
        bench: &'t str,
        profile: &'t str,
        key: &'t str,
        length: u64,
    },
    /// Lists the captures of a bench.
    ListCaptures {
        bench: &'t str,
    },
    /// Asks for the bytes of a capture.
    GetCapture {
        bench: &'t str,
        key: &'t str,
    },
    /// Asks what is wrong with a capture.
    GetVerdicts {
        bench: &'t str,
        key: &'t str,
    },
    /// Asks where the captures of a bench break a rule.
    GetHits {
        bench: &'t str,
        rule: Rule,
    },
}

impl Kind {
    /// The one method of its route.
    pub fn method(self) -> Method
        ensures { result ≡ method_of self }
    {
        match self {
            Kind::PutProfile | Kind::PutCapture => Method::Put,
            Kind::ListCaptures | Kind::GetCapture | Kind::GetVerdicts | Kind::GetHits =>
                Method::Get,
        }
    }
}

/// Whether a request's method is this one. Methods are told apart by case.
fn is_method(text: &[u8], method: Method) -> bool
    ensures { result ≡ bytes_eq text.now (method_name method) }
{
    match method {
        Method::Get => text == b"GET".as_slice(),
        Method::Put => text == b"PUT".as_slice(),
    }
}

/// The name at a place of a path.
fn name_at(path: &str, place: usize) -> Result<&str, Refusal>
    ensures name { IfOk result (λ name. name.now ≡ get_or (segments_of path.now) place []) }
    ensures is_name { IfOk result (λ name. is_name_text name.now ≡ true) }
    ensures no_name { OnErr result (is_name_text (get_or (segments_of path.now) place []) ≡ false) }
    ensures err { IfErr result (λ refusal. refusal ≡ Refusal.Name) }
{
    let name = segment(path, place);
    if !is_name(name) {
        return Err(Refusal::Name);
    }
    Ok(name)
}

/// The rule at a place of a path.
fn rule_at(path: &str, place: usize) -> Result<Rule, Refusal>
    ensures rule { IfOk result (λ rule. named (get_or (segments_of path.now) place []) ≡ Some rule) }
    ensures no_rule { OnErr result (named (get_or (segments_of path.now) place []) ≡ None) }
    ensures err { IfErr result (λ refusal. refusal ≡ Refusal.NoRule) }
{
    match rule_named(segment(path, place)) {
        Some(rule) => Ok(rule),
        None => Err(Refusal::NoRule),
    }
}

/// The length of a body that is sent.
fn body_length(form: Form) -> Result<u64, Refusal>
    ensures length { result ≡ length_by form }
    ensures short { IfOk result (λ length. length ≤ longest_body) }
{
    match form {
        Form::Refused => Err(Refusal::Framing),
        Form::Without => Err(Refusal::NoLength),
        Form::Length(length) => {
            if length > LONGEST_BODY {
                Err(Refusal::TooLong)
            } else {
                Ok(length)
            }
        }
    }
}

/// What is asked for on a route.
fn request_of_kind(kind: Kind, target: &str, form: Form) -> Result<Request<'_>, Refusal>
    ensures asked { asked_in result ≡ asked_of_kind (segments_of target.now) form kind }
    ensures short { IfOk result HasShortBody }
{
    let bench = name_at(target, 2)?;
    match kind {
        Kind::PutProfile => {
            let profile = name_at(target, 4)?;
            let length = body_length(form)?;
            Ok(Request::PutProfile {
                bench,
                profile,
                length,
            })
        }
        Kind::PutCapture => {
            let profile = name_at(target, 4)?;
            let key = name_at(target, 6)?;
            let length = body_length(form)?;
            Ok(Request::PutCapture {
                bench,
                profile,
                key,
                length,
            })
        }
        Kind::ListCaptures => Ok(Request::ListCaptures { bench }),
        Kind::GetCapture => {
            let key = name_at(target, 4)?;
            Ok(Request::GetCapture { bench, key })
        }
        Kind::GetVerdicts => {
            let key = name_at(target, 4)?;
            Ok(Request::GetVerdicts { bench, key })
        }
        Kind::GetHits => {
            let rule = rule_at(target, 4)?;
            Ok(Request::GetHits { bench, rule })
        }
    }
}

/// What is asked for, on whichever route.
fn request_of_target<'t>(
    routes: &Routes,
    method: &[u8],
    target: &'t str,
    form: Form,
) -> Result<Request<'t>, Refusal>
    ensures asked { asked_in result
        ≡ asked_of_route (segments_of target.now) method.now form
        (kind_of (segments_of target.now)) }
    ensures short { IfOk result HasShortBody }
{
    let Some(kind) = routes.kind(target) else {
        return Err(Refusal::Route);
    };
    if !is_method(method, kind.method()) {
        return Err(Refusal::WrongMethod(kind.method()));
    }
    request_of_kind(kind, target, form)
}

/// What a request with a whole head asks for: `method` and `target` as they were sent, and what its
/// fields say of its body. It is refused by the first of these that applies: the fields frame no
/// body; the path has no route; the route has another method; a name isn't one; a rule isn't one; a
/// body that is to be stored has no length, or is too long.
pub fn read_request<'t>(
    routes: &Routes,
    method: &[u8],
    target: &'t str,
    form: Form,
) -> Result<Request<'t>, Refusal>
    ensures asked { asked_in result ≡ asked_by method.now target.now form }
    ensures short { IfOk result HasShortBody }
{
    if form == Form::Refused {
        return Err(Refusal::Framing);
    }
    request_of_target(routes, method, target, form)
}
