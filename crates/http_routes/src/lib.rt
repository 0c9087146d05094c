//! The routes: which resource a path names, and which operation a method asks of it.
#![tactic(auto)]

ghost use Rattle.std.specs.Prelude.{◌≡◌, codes};
ghost use Rattle.http_routes.specs.Methods.{operation_at};
ghost use Rattle.http_routes.specs.Routes.{segment};

pub mod laws;
pub mod places;
mod table;

use http::Method;
pub use table::RouteTable;

/// What a path names.
#[derive(Clone, Copy, Debug, PartialEq, Eq)]
pub enum Resource {
    Team,
    Pacticipant,
    Environment,
    Grant,
    Version,
    Pact,
    BranchPact,
    Results,
    Replies,
    Deployments,
    Undeployments,
    Releases,
    SupportEnded,
    CanIDeploy,
    Matrix,
}

/// What a method asks of a resource: one for each command.
#[derive(Clone, Copy, PartialEq, Eq)]
pub enum Operation {
    PutTeam,
    PutPacticipant,
    PutEnvironment,
    PutGrant,
    DeleteGrant,
    PutVersion,
    PutPact,
    GetPact,
    GetBranchPact,
    PostResult,
    PostReplies,
    Deploy,
    Undeploy,
    Release,
    EndSupport,
    GetEnvironment,
    CanIDeploy,
    GetMatrix,
}

/// One segment of a path, counted from 0, empty if there is none.
#[tactic(auto, unfolding(crate::specs::Routes::segment))]
pub fn segment(path: &[u8], index: usize) -> &[u8]
    ensures { result.now ≡ segment index path.now }
{
    path.split(|byte| *byte == b'/').nth(index).unwrap_or(&[])
}

/// What GET asks of a resource.
fn gets(resource: Resource) -> Option<Operation>
    ensures { result ≡ operation_at resource (codes "GET") }
{
    match resource {
        Resource::Environment => Some(Operation::GetEnvironment),
        Resource::Pact => Some(Operation::GetPact),
        Resource::BranchPact => Some(Operation::GetBranchPact),
        Resource::CanIDeploy => Some(Operation::CanIDeploy),
        Resource::Matrix => Some(Operation::GetMatrix),
        _ => None,
    }
}

/// What PUT asks of a resource.
fn puts(resource: Resource) -> Option<Operation>
    ensures { result ≡ operation_at resource (codes "PUT") }
{
    match resource {
        Resource::Team => Some(Operation::PutTeam),
        Resource::Pacticipant => Some(Operation::PutPacticipant),
        Resource::Environment => Some(Operation::PutEnvironment),
        Resource::Grant => Some(Operation::PutGrant),
        Resource::Version => Some(Operation::PutVersion),
        Resource::Pact => Some(Operation::PutPact),
        _ => None,
    }
}

/// What POST asks of a resource.
fn posts(resource: Resource) -> Option<Operation>
    ensures { result ≡ operation_at resource (codes "POST") }
{
    match resource {
        Resource::Results => Some(Operation::PostResult),
        Resource::Replies => Some(Operation::PostReplies),
        Resource::Deployments => Some(Operation::Deploy),
        Resource::Undeployments => Some(Operation::Undeploy),
        Resource::Releases => Some(Operation::Release),
        Resource::SupportEnded => Some(Operation::EndSupport),
        _ => None,
    }
}

/// What DELETE asks of a resource.
fn deletes(resource: Resource) -> Option<Operation>
    ensures { result ≡ operation_at resource (codes "DELETE") }
{
    match resource {
        Resource::Grant => Some(Operation::DeleteGrant),
        _ => None,
    }
}

/// What a method asks of a resource, if the resource has the method.
pub fn operation_at(resource: Resource, method: &Method) -> Option<Operation>
    ensures { result ≡ operation_at resource method.now }
{
    if *method == Method::GET {
        gets(resource)
    } else if *method == Method::PUT {
        puts(resource)
    } else if *method == Method::POST {
        posts(resource)
    } else if *method == Method::DELETE {
        deletes(resource)
    } else {
        None
    }
}
