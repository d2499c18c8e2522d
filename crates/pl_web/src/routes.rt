//! The routes of the archive.
ghost use Rattle.std.specs.Prelude.{◌≡◌, IfOk};
ghost use Rattle.pl_web.specs.Paths.{kind_of, segments_of};
ghost use Rattle.pl_web.specs.Router.{all_routes};

use matchit::{InsertError, Router};
use std::alloc::{AllocError, Global};

/// What a path asks for. `{bench}`, `{profile}`, `{key}` and `{rule}` stand for a segment of a byte
/// or more.
#[derive(Clone, Copy, Debug, PartialEq, Eq)]
pub enum Kind {
    /// `/benches/{bench}/profiles/{profile}`: a profile is stored.
    PutProfile,
    /// `/benches/{bench}/profiles/{profile}/captures/{key}`: a capture is stored under a profile.
    PutCapture,
    /// `/benches/{bench}/captures`: the captures of a bench are listed.
    ListCaptures,
    /// `/benches/{bench}/captures/{key}`: the bytes of a capture.
    GetCapture,
    /// `/benches/{bench}/captures/{key}/verdicts`: what is wrong with a capture.
    GetVerdicts,
    /// `/benches/{bench}/rules/{rule}`: where the captures of a bench break a rule.
    GetHits,
}

/// A router with all routes.
fn make_router(alloc: Global) -> Result<Router<Kind>, InsertError>
    ensures { IfOk result (λ router. router ≡ all_routes) }
{
    let mut router = Router::new(alloc);
    router.insert("/benches/{bench}/profiles/{profile}", Kind::PutProfile)?;
    router.insert(
        "/benches/{bench}/profiles/{profile}/captures/{key}",
        Kind::PutCapture,
    )?;
    router.insert("/benches/{bench}/captures", Kind::ListCaptures)?;
    router.insert("/benches/{bench}/captures/{key}", Kind::GetCapture)?;
    router.insert(
        "/benches/{bench}/captures/{key}/verdicts",
        Kind::GetVerdicts,
    )?;
    router.insert("/benches/{bench}/rules/{rule}", Kind::GetHits)?;
    Ok(router)
}

/// The routes of the archive.
#[derive(Drop)]
pub struct Routes {
    router: Router<Kind>,
    ghost whole: { router ≡ all_routes },
}

impl Routes {
    /// Takes memory for the router, and answers otherwise only for want of it.
    pub fn new(alloc: Global) -> Result<Routes, AllocError> {
        match make_router(alloc) {
            Ok(router) => Ok(Routes { router }),
            Err(_) => Err(AllocError),
        }
    }

    /// What a path asks for, if it has a route. The path is the whole target as it was sent.
    pub fn kind(&self, path: &str) -> Option<Kind>
        ensures { result ≡ kind_of (segments_of path.now) }
    {
        match self.router.at(path) {
            Ok(found) => Some(*found.value),
            Err(_) => None,
        }
    }
}
