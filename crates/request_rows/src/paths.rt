//! Targets and their parts, and paths and what they name.
ghost use Rattle.std.specs.Prelude.{◌≡◌};
ghost use Rattle.http_paths.specs.Routes.{routes};

use http_paths::{Route, Target, find, make_router, path_of, query_of, read_have};
use matchit::Router;
use std::alloc::Global;
use std::test::Fail;

/// A target, its path, its query, and the number that the query asks for.
type Parts = (
    &'static [u8],
    &'static [u8],
    Option<&'static [u8]>,
    Option<u32>,
);

const TARGETS: [Parts; 12] = [
    (b"/motes/m", b"/motes/m", None, None),
    (b"/motes/m?", b"/motes/m", Some(b""), None),
    (b"/motes/m?have=7", b"/motes/m", Some(b"have=7"), Some(7)),
    (b"?have=0", b"", Some(b"have=0"), Some(0)),
    (
        b"/a?have=4294967295",
        b"/a",
        Some(b"have=4294967295"),
        Some(u32::MAX),
    ),
    (b"/a?have=4294967296", b"/a", Some(b"have=4294967296"), None),
    (b"/a?have=", b"/a", Some(b"have="), None),
    (b"/a?have=07", b"/a", Some(b"have=07"), None),
    (b"/a?have=7&x", b"/a", Some(b"have=7&x"), None),
    (b"/a?have=7?", b"/a", Some(b"have=7?"), None),
    (b"/a?Have=7", b"/a", Some(b"Have=7"), None),
    (b"/a%3Fhave=7", b"/a%3Fhave=7", None, None),
];

fn has_parts(row: &Parts) -> bool {
    let (target, path, query, have) = *row;
    let number = match query {
        Some(query) => read_have(query),
        None => None,
    };
    path_of(target) == path && query_of(target) == query && number == have
}

// The first of these rows whose target has other parts.
fn first_other(rows: &[Parts]) -> Option<usize> {
    let mut i = 0usize;
    for row in rows {
        if !has_parts(row) {
            return Some(i);
        }
        i = i.wrapping_add(1);
    }
    None
}

#[test]
fn targets_have_their_parts(rt: HostRuntime) {
    assert_eq!(rt; first_other(&TARGETS), None);
}

/// A path and what it names.
type Named = (&'static [u8], Option<Target<'static>>);

const PATHS: [Named; 14] = [
    (b"/components/c_1/versions", Some(Target::Versions("c_1"))),
    (b"/motes/m/releases", Some(Target::Releases("m"))),
    (b"/motes/m/acks", Some(Target::Acknowledgements("m"))),
    (b"/motes/m/update", Some(Target::Update("m"))),
    (b"/motes/m", Some(Target::Mote("m"))),
    (b"/motes/releases", Some(Target::Mote("releases"))),
    (b"/motes/update/update", Some(Target::Update("update"))),
    (b"/motes/m/releases/0/image", Some(Target::Image("m", 0))),
    (
        b"/motes/m/releases/4294967295/image",
        Some(Target::Image("m", u32::MAX)),
    ),
    (b"/motes/m/releases/4294967296/image", None),
    (b"/motes/m/releases/07/image", None),
    (b"/motes/m/releases/x/image", None),
    (
        b"/motes/abcdefghijklmnopqrstuvwxyz_01234",
        Some(Target::Mote("abcdefghijklmnopqrstuvwxyz_01234")),
    ),
    (b"/motes/abcdefghijklmnopqrstuvwxyz_012345", None),
];

// Paths that name nothing.
const STRANGERS: [&[u8]; 18] = [
    b"",
    b"/",
    b"*",
    b"/motes",
    b"/motes/",
    b"/motes/m/",
    b"/motes/M",
    b"/motes/m%20",
    b"/motes/m-1",
    b"/motes/\xC3\xA4",
    b"/motes/m/x",
    b"/motes//update",
    b"//motes/m",
    b"/motes/m/releases/",
    b"/motes/m/releases/1",
    b"/motes/m/releases/1/image/",
    b"/components/c",
    b"/components/c/d/versions",
];

// The first of these rows whose path names something else.
fn first_misnamed(router: &Router<Route>, rows: &[Named]) -> Option<usize>
    requires { router.now ≡ routes }
{
    let mut i = 0usize;
    for (path, target) in rows {
        if find(router, path) != *target {
            return Some(i);
        }
        i = i.wrapping_add(1);
    }
    None
}

// The first of these paths that names something.
fn first_named(router: &Router<Route>, paths: &[&[u8]]) -> Option<usize>
    requires { router.now ≡ routes }
{
    let mut i = 0usize;
    for path in paths {
        if find(router, path).is_some() {
            return Some(i);
        }
        i = i.wrapping_add(1);
    }
    None
}

// The first row whose path names something else, and the first path that names something.
fn first_others(alloc: Global) -> Result<(Option<usize>, Option<usize>), Fail> {
    let router = make_router(alloc)?;
    Ok((
        first_misnamed(&router, &PATHS),
        first_named(&router, &STRANGERS),
    ))
}

#[test]
fn paths_have_their_targets(rt: HostRuntime) -> Result<(), Fail> {
    assert_eq!(rt; first_others(rt.alloc())?, (None, None));
    Ok(())
}
