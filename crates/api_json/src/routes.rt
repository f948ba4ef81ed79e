// Where a method on a path leads.
ghost use Rattle.std.specs.Prelude.{◌≡◌, map, option_map};
ghost use Rattle.std.specs.List.{list_any, find};
ghost use Rattle.std.specs.Option.{option_copied};
ghost use Rattle.api_calls.specs.Routes as routes;
ghost use Rattle.api_json.specs.Leads.{Leads};
ghost use Rattle.api_json.specs.Tables.{pattern_of, route_of, target_of};

use crate::form::is_id;
use api_calls::{Body, Endpoint, Part};
use refusals::Refusal;

/// Where a route is.
#[derive(Clone, Copy)]
enum Pattern {
    /// At this path, compared byte by byte.
    Fixed(&'static str),
    /// At each id in this folder, which ends in a slash.
    Folder(&'static str),
}

/// A pattern of paths with one of its methods.
#[derive(Clone, Copy)]
pub struct Route {
    pattern: Pattern,
    method: &'static str,
    endpoint: Endpoint,
}

/// A route's endpoint, and the id in the path, which is empty where the route is at a fixed path.
#[derive(Clone, Copy)]
pub struct Target<'p> {
    pub endpoint: Endpoint,
    pub id: &'p [u8],
}

static ROUTES: [Route; 26] = [
    Route {
        pattern: Pattern::Fixed("/boot-source"),
        method: "PUT",
        endpoint: Endpoint::Send(Body::BootSource),
    },
    Route {
        pattern: Pattern::Folder("/drives/"),
        method: "PUT",
        endpoint: Endpoint::Send(Body::Drive),
    },
    Route {
        pattern: Pattern::Folder("/drives/"),
        method: "PATCH",
        endpoint: Endpoint::Send(Body::DrivePatch),
    },
    Route {
        pattern: Pattern::Folder("/network-interfaces/"),
        method: "PUT",
        endpoint: Endpoint::Send(Body::Interface),
    },
    Route {
        pattern: Pattern::Folder("/network-interfaces/"),
        method: "PATCH",
        endpoint: Endpoint::Send(Body::InterfacePatch),
    },
    Route {
        pattern: Pattern::Fixed("/vsock"),
        method: "PUT",
        endpoint: Endpoint::Send(Body::Vsock),
    },
    Route {
        pattern: Pattern::Fixed("/machine-config"),
        method: "PUT",
        endpoint: Endpoint::Send(Body::MachineConfig),
    },
    Route {
        pattern: Pattern::Fixed("/machine-config"),
        method: "PATCH",
        endpoint: Endpoint::Send(Body::MachinePatch),
    },
    Route {
        pattern: Pattern::Fixed("/balloon"),
        method: "PUT",
        endpoint: Endpoint::Send(Body::Balloon),
    },
    Route {
        pattern: Pattern::Fixed("/balloon"),
        method: "PATCH",
        endpoint: Endpoint::Send(Body::BalloonPatch),
    },
    Route {
        pattern: Pattern::Fixed("/balloon/statistics"),
        method: "PATCH",
        endpoint: Endpoint::Send(Body::StatisticsPatch),
    },
    Route {
        pattern: Pattern::Fixed("/entropy"),
        method: "PUT",
        endpoint: Endpoint::Send(Body::Entropy),
    },
    Route {
        pattern: Pattern::Fixed("/mmds/config"),
        method: "PUT",
        endpoint: Endpoint::Send(Body::MmdsConfig),
    },
    Route {
        pattern: Pattern::Fixed("/mmds"),
        method: "PUT",
        endpoint: Endpoint::Send(Body::Metadata),
    },
    Route {
        pattern: Pattern::Fixed("/mmds"),
        method: "PATCH",
        endpoint: Endpoint::Send(Body::MetadataPatch),
    },
    Route {
        pattern: Pattern::Fixed("/actions"),
        method: "PUT",
        endpoint: Endpoint::Send(Body::Action),
    },
    Route {
        pattern: Pattern::Fixed("/vm"),
        method: "PATCH",
        endpoint: Endpoint::Send(Body::VmState),
    },
    Route {
        pattern: Pattern::Fixed("/snapshot/create"),
        method: "PUT",
        endpoint: Endpoint::Send(Body::SnapshotCreate),
    },
    Route {
        pattern: Pattern::Fixed("/snapshot/load"),
        method: "PUT",
        endpoint: Endpoint::Send(Body::SnapshotLoad),
    },
    Route {
        pattern: Pattern::Fixed("/"),
        method: "GET",
        endpoint: Endpoint::Get(Part::Instance),
    },
    Route {
        pattern: Pattern::Fixed("/version"),
        method: "GET",
        endpoint: Endpoint::Get(Part::Version),
    },
    Route {
        pattern: Pattern::Fixed("/machine-config"),
        method: "GET",
        endpoint: Endpoint::Get(Part::MachineConfig),
    },
    Route {
        pattern: Pattern::Fixed("/mmds"),
        method: "GET",
        endpoint: Endpoint::Get(Part::Metadata),
    },
    Route {
        pattern: Pattern::Fixed("/vm/config"),
        method: "GET",
        endpoint: Endpoint::Get(Part::VmConfig),
    },
    Route {
        pattern: Pattern::Fixed("/balloon"),
        method: "GET",
        endpoint: Endpoint::Get(Part::Balloon),
    },
    Route {
        pattern: Pattern::Fixed("/balloon/statistics"),
        method: "GET",
        endpoint: Endpoint::Get(Part::Statistics),
    },
];

fn id_in<'p>(folder: &[u8], path: &'p [u8]) -> Option<&'p [u8]>
    ensures { option_copied result ≡ routes.id_by (routes.folder folder.now) path.now }
{
    if path.len() < folder.len() {
        return None;
    }
    let (front, id) = path.split_at(folder.len());
    if front == folder && is_id(id) {
        Some(id)
    } else {
        None
    }
}

// The id that a path has where it fits a pattern.
fn id_by<'p>(pattern: &Pattern, path: &'p [u8]) -> Option<&'p [u8]>
    ensures { option_copied result ≡ routes.id_by (pattern_of pattern.now) path.now }
{
    match pattern {
        Pattern::Fixed(place) => {
            if place.as_bytes() == path {
                Some(&path[..0])
            } else {
                None
            }
        }
        Pattern::Folder(folder) => id_in(folder.as_bytes(), path),
    }
}

fn is_at(route: &Route, path: &[u8]) -> bool
    ensures { result ≡ routes.is_at path.now (route_of route.now) }
{
    id_by(&route.pattern, path).is_some()
}

fn has_path(table: &[Route], path: &[u8]) -> bool
    ensures { result ≡ list_any (λ route. routes.is_at path.now (route_of route)) table.now }
{
    table.iter().any(|route| is_at(route, path))
}

fn find_route<'r>(table: &'r [Route], path: &[u8], method: &[u8]) -> Option<&'r Route>
    ensures { option_map (λ route. route.now) result
        ≡ find (λ route. routes.is_route path.now method.now (route_of route)) table.now }
{
    table.iter().find(|route| is_at(route, path) && route.method.as_bytes() == method)
}

fn target_by<'p>(route: &Route, path: &'p [u8]) -> Target<'p>
    ensures { target_of result ≡ routes.target_by path.now (route_of route.now) }
{
    let id = match id_by(&route.pattern, path) {
        Some(id) => id,
        None => &path[..0],
    };
    Target {
        endpoint: route.endpoint,
        id,
    }
}

fn target_in<'p>(table: &[Route], path: &'p [u8], method: &[u8]) -> Result<Target<'p>, Refusal>
    ensures { Leads result (routes.target_or path.now (find (routes.is_route path.now method.now) (map route_of table.now))
        (list_any (routes.is_at path.now) (map route_of table.now))) }
{
    match find_route(table, path, method) {
        Some(route) => Ok(target_by(route, path)),
        None => {
            if has_path(table, path) {
                Err(Refusal::NoSuchMethod)
            } else {
                Err(Refusal::NoSuchPath)
            }
        }
    }
}

/// Where a method on a path leads. `Err`: there is no such path, or no such method on it.
#[tactic(auto, unfolding(api_calls::specs::Routes::target_of))]
pub fn target_of<'p>(path: &'p [u8], method: &[u8]) -> Result<Target<'p>, Refusal>
    ensures { Leads result (routes.target_of path.now method.now) }
{
    target_in(&ROUTES, path, method)
}
