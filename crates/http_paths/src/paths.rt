//! The six paths and what each of them names.
ghost use Rattle.std.specs.Prelude.{◌≡◌, [], Some, None, IfOk, MatchOption, option_map, codes};
ghost use Rattle.std.specs.Char.{is_ascii as ascii_byte};
ghost use Rattle.std.specs.List.{list_all};
ghost use Rattle.matchit.specs.Params.{AllText};
ghost use Rattle.http_paths.specs.Routes.{routes, add_route};
ghost use Rattle.http_paths.specs.Paths.{name_in, number_at, asked_from, target_of, parts_held, shown};

use crate::query::number;
use http_texts::is_name;
use matchit::{InsertError, Params, Router};
use std::alloc::Global;
use std::str::from_utf8;

/// One of the paths that the server takes.
#[derive(Clone, Copy, Debug, PartialEq, Eq, Drop)]
pub enum Route {
    /// `/components/{name}/versions`
    Versions,

    /// `/motes/{mote}/releases`
    Releases,

    /// `/motes/{mote}/acks`
    Acknowledgements,

    /// `/motes/{mote}/update`
    Update,

    /// `/motes/{mote}`
    Mote,

    /// `/motes/{mote}/releases/{n}/image`
    Image,
}

/// A path with what it names: a component or a mote, and for an image the number of a release.
#[derive(Clone, Copy, Debug, PartialEq, Eq)]
pub enum Target<'p> {
    /// The versions of a component.
    Versions(&'p str),

    /// The releases of a mote.
    Releases(&'p str),

    /// The acknowledgements of a mote.
    Acknowledgements(&'p str),

    /// The frames that bring a mote up to date.
    Update(&'p str),

    /// A mote.
    Mote(&'p str),

    /// The image of a mote's release with this number.
    Image(&'p str, u32),
}

// The paths of components, and of a mote's lists.
fn list_router(alloc: Global) -> Result<Router<Route>, InsertError>
    ensures { IfOk result (λ router. router
        ≡ add_route (codes "/motes/{mote}/acks") Route.Acknowledgements
        (add_route (codes "/motes/{mote}/releases") Route.Releases
        (add_route (codes "/components/{name}/versions") Route.Versions []))) }
{
    let mut router = Router::new(alloc);
    router.insert("/components/{name}/versions", Route::Versions)?;
    router.insert("/motes/{mote}/releases", Route::Releases)?;
    router.insert("/motes/{mote}/acks", Route::Acknowledgements)?;
    Ok(router)
}

/// A router of the six paths. They don't conflict, so the error is want of memory.
pub fn make_router(alloc: Global) -> Result<Router<Route>, InsertError>
    ensures routes { IfOk result (λ router. router ≡ routes) }
{
    let mut router = list_router(alloc)?;
    router.insert("/motes/{mote}/update", Route::Update)?;
    router.insert("/motes/{mote}", Route::Mote)?;
    router.insert("/motes/{mote}/releases/{n}/image", Route::Image)?;
    Ok(router)
}

fn is_ascii(path: &[u8]) -> bool
    ensures { result ≡ list_all ascii_byte path.now }
{
    path.iter().all(|byte| byte.is_ascii())
}

// The part of this name, where it is a name.
fn name_at<'p>(params: &Params<'_, 'p>, key: &str) -> Option<&'p str>
    requires text { AllText (parts_held params.now) }
    ensures { MatchOption result (name_in key.now (parts_held params.now) ≡ None) (λ name. name_in key.now (parts_held params.now) ≡ Some name.now) }
{
    let Some(text) = params.get(key) else {
        return None;
    };
    if !is_name(text.as_bytes()) {
        return None;
    }
    Some(text)
}

// The part of this name, where it is a number.
fn number_of(params: &Params<'_, '_>, key: &str) -> Option<u32>
    requires text { AllText (parts_held params.now) }
    ensures { result ≡ number_at key.now (parts_held params.now) }
{
    let Some(text) = params.get(key) else {
        return None;
    };
    number(text.as_bytes())
}

// The image that the parts of a path name.
fn image_at<'p>(params: &Params<'_, 'p>) -> Option<Target<'p>>
    requires text { AllText (parts_held params.now) }
    ensures { MatchOption result (asked_from Route.Image (parts_held params.now) ≡ None) (λ target.
        asked_from Route.Image (parts_held params.now) ≡ Some (shown target)) }
{
    let Some(mote) = name_at(params, "mote") else {
        return None;
    };
    let Some(number) = number_of(params, "n") else {
        return None;
    };
    Some(Target::Image(mote, number))
}

// What a route with these parts is.
fn target_at<'p>(route: Route, params: &Params<'_, 'p>) -> Option<Target<'p>>
    requires text { AllText (parts_held params.now) }
    ensures { MatchOption result (asked_from route (parts_held params.now) ≡ None) (λ target.
        asked_from route (parts_held params.now) ≡ Some (shown target)) }
{
    match route {
        Route::Versions => {
            let Some(component) = name_at(params, "name") else {
                return None;
            };
            Some(Target::Versions(component))
        }
        Route::Releases => {
            let Some(mote) = name_at(params, "mote") else {
                return None;
            };
            Some(Target::Releases(mote))
        }
        Route::Acknowledgements => {
            let Some(mote) = name_at(params, "mote") else {
                return None;
            };
            Some(Target::Acknowledgements(mote))
        }
        Route::Update => {
            let Some(mote) = name_at(params, "mote") else {
                return None;
            };
            Some(Target::Update(mote))
        }
        Route::Mote => {
            let Some(mote) = name_at(params, "mote") else {
                return None;
            };
            Some(Target::Mote(mote))
        }
        Route::Image => image_at(params),
    }
}

/// What a path asks for: the route that matchit finds first, where its parts are names and numbers. A path with a byte outside ASCII is
/// none.
pub fn find<'p>(router: &Router<Route>, path: &'p [u8]) -> Option<Target<'p>>
    requires routes { router.now ≡ routes }
    ensures target { MatchOption result (target_of path.now ≡ None) (λ target. target_of path.now ≡ Some (shown target)) }
{
    if !is_ascii(path) {
        return None;
    }
    let Ok(text) = from_utf8(path) else {
        return None;
    };
    let Ok(found) = router.at(text) else {
        return None;
    };
    let Some(target) = target_at(*found.value, &found.params) else {
        return None;
    };
    Some(target)
}
