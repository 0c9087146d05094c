//! The routes in a router.
ghost use Rattle.std.specs.Prelude.{◌≡◌, OnOk, map};
ghost use Rattle.matchit.specs.Route.{parse_route};
ghost use Rattle.http_routes.specs.Routes.{resource_of};
ghost use Rattle.http_routes.specs.Table.{table, with_route, with_routes};

use crate::Resource;
use matchit::Router;
use std::alloc::{AllocError, Global};

/// The routes, each with what it names.
const ROUTES: [(&str, Resource); 15] = [
    ("/teams/{team}", Resource::Team),
    ("/pacticipants/{pacticipant}", Resource::Pacticipant),
    ("/environments/{environment}", Resource::Environment),
    (
        "/grants/team/{team}/environment/{environment}",
        Resource::Grant,
    ),
    (
        "/pacticipants/{pacticipant}/versions/{version}",
        Resource::Version,
    ),
    (
        "/pacts/provider/{provider}/consumer/{consumer}/version/{version}",
        Resource::Pact,
    ),
    (
        "/pacts/provider/{provider}/consumer/{consumer}/branch/{branch}",
        Resource::BranchPact,
    ),
    (
        "/pacts/provider/{provider}/consumer/{consumer}/version/{version}/results",
        Resource::Results,
    ),
    (
        "/pacts/provider/{provider}/consumer/{consumer}/version/{version}/replies",
        Resource::Replies,
    ),
    (
        "/environments/{environment}/deployments",
        Resource::Deployments,
    ),
    (
        "/environments/{environment}/undeployments",
        Resource::Undeployments,
    ),
    ("/environments/{environment}/releases", Resource::Releases),
    (
        "/environments/{environment}/support-ended",
        Resource::SupportEnded,
    ),
    ("/can-i-deploy", Resource::CanIDeploy),
    ("/matrix", Resource::Matrix),
];

/// All routes, and no other.
#[derive(Drop)]
pub struct RouteTable {
    router: Router<Resource>,
    ghost whole: { router ≡ table },
}

/// Adds a route. An `Err` means out of memory, since no two of the routes conflict.
fn add(router: &mut Router<Resource>, route: &str, resource: Resource) -> Result<(), AllocError>
    ensures { OnOk result (router.new ≡ with_route (parse_route route.now) resource router.old) }
{
    router.insert(route, resource).map_err(|_| AllocError)
}

/// Adds routes, one after another.
fn add_routes(router: &mut Router<Resource>, routes: &[(&str, Resource)]) -> Result<(), AllocError>
    ensures { OnOk result (router.new ≡ with_routes (map (λ row. (row.0.now, row.1)) routes.now) router.old) }
{
    for (route, resource) in routes {
        add(router, route, *resource)?;
    }
    Ok(())
}

impl RouteTable {
    /// The table of all routes. An `Err` means out of memory.
    pub fn new(alloc: Global) -> Result<RouteTable, AllocError> {
        let mut router = Router::new(alloc);
        add_routes(&mut router, &ROUTES)?;
        Ok(RouteTable { router })
    }

    /// The resource that a path names, if it is on a route. `path` is a target up to its first question mark.
    pub fn resource_of(&self, path: &str) -> Option<Resource>
        ensures { result ≡ resource_of path.now }
    {
        match self.router.at(path) {
            Ok(found) => Some(*found.value),
            Err(_) => None,
        }
    }
}
