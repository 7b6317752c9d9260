//! The routes, and the route of a target.

ghost use Rattle.std.specs.Prelude.{◌≡◌, length, IfOk, IfSome, IfNone};
ghost use Rattle.dh_requests.specs.Routes.{routes, words_of};
ghost use Rattle.dh_requests.specs.Targets.{IsTarget};
ghost use Rattle.dh_requests.specs.declared.routes.Route.{Route as AnyRoute};

use matchit::{InsertError, Router};
use std::alloc::{AllocError, Global};

/// What a target names.
#[derive(Clone, Copy, Debug, PartialEq, Eq)]
pub(crate) enum Route {
    /// `/commands`
    Commands,
    /// `/branches`
    Branches,
    /// `/vacant/{day}`
    Vacant,
    /// `/matching/{client}/{day}`
    Matching,
    /// `/statement/{lease}`
    Statement,
    /// `/arrears/{branch}`
    Arrears,
    /// `/run/{month}`
    Run,
    /// `/owner/{owner}/{month}`
    Owner,
}

impl Route {
    /// The word behind the first slash, and how many pieces follow it.
    pub(crate) fn words(self) -> (&'static str, usize)
        ensures word { result.0.now ≡ (words_of self).word }
        ensures count { result.1 ≡ length (words_of self).pieces }
    {
        match self {
            Route::Commands => ("commands", 0),
            Route::Branches => ("branches", 0),
            Route::Vacant => ("vacant", 1),
            Route::Matching => ("matching", 2),
            Route::Statement => ("statement", 1),
            Route::Arrears => ("arrears", 1),
            Route::Run => ("run", 1),
            Route::Owner => ("owner", 2),
        }
    }
}

// A router of all routes. An error comes only for want of memory.
fn router(alloc: Global) -> Result<Router<Route>, InsertError>
    ensures { IfOk result (λ router. router ≡ routes) }
{
    let mut router = Router::new(alloc);
    router.insert("/commands", Route::Commands)?;
    router.insert("/branches", Route::Branches)?;
    router.insert("/vacant/{day}", Route::Vacant)?;
    router.insert("/matching/{client}/{day}", Route::Matching)?;
    router.insert("/statement/{lease}", Route::Statement)?;
    router.insert("/arrears/{branch}", Route::Arrears)?;
    router.insert("/run/{month}", Route::Run)?;
    router.insert("/owner/{owner}/{month}", Route::Owner)?;
    Ok(router)
}

/// All routes, made once for many requests.
#[derive(Drop)]
pub struct Routes {
    router: Router<Route>,
    ghost all: { router ≡ routes },
}

impl Routes {
    /// All routes. An error comes only for want of memory.
    pub fn new(alloc: Global) -> Result<Routes, AllocError> {
        match router(alloc) {
            Ok(router) => Ok(Routes { router }),
            Err(_) => Err(AllocError),
        }
    }

    /// The route that a target names, if it names one.
    pub(crate) fn of(&self, target: &str) -> Option<Route>
        ensures found { IfSome result (λ route. IsTarget route target.now) }
        ensures none { IfNone result ((route : AnyRoute) → ¬ IsTarget route target.now) }
    {
        match self.router.at(target) {
            Ok(found) => Some(*found.value),
            Err(_) => None,
        }
    }
}
