//! What a message asks by its head and its body.
ghost use Rattle.std.specs.Prelude.{◌≡◌, codes, List, IfOk, IfErr, Option, IsUtf8};
ghost use Rattle.httparse.specs.Grammar.{RequestHead};
ghost use Rattle.httparse.specs.Spans.{IsRequestWithin};
ghost use Rattle.http_messages.specs.Message.{message};
ghost use Rattle.http_messages.specs.Views.{IsHeadRead};
ghost use Rattle.http_routes.specs.Routes.{resource_of};
ghost use Rattle.http_requests.specs.Requests.{path_of, query_of, ByResource, ByOperation, AsksOperation, IsOperationOf, IsReadFrom, IsRequest};

use crate::commands::command_of;
use crate::target::split_target;
use crate::tokens::caller_token;
use broker_core::command::Command;
use broker_names::name::Token;
use http_messages::fields::field_of;
use http_messages::head::{Head, Refusal, Refused};
use http_routes::{Operation, Resource, RouteTable, operation_at};
use std::alloc::{AllocError, Global};

/// What a message asks.
#[derive(Drop)]
pub enum Request {
    /// The head is refused, and the connection closes. The answer goes without its body if `is_bodiless` is true.
    Refused {
        refusal: Refusal,
        is_bodiless: bool,
    },
    /// The path has no route.
    NoRoute {
        closes: bool,
    },
    /// The resource doesn't have the method.
    NoMethod {
        resource: Resource,
        closes: bool,
    },
    /// A command. The connection closes after its answer if `closes` is true.
    Asks {
        token: Option<Token>,
        command: Command,
        closes: bool,
    },
}

/// The command that an operation asks of the target's two parts, with the token of its caller.
fn command_request(
    alloc: Global,
    text: &[u8],
    head: Head,
    path: &[u8],
    query: &[u8],
    body: &[u8],
    operation: Operation,
) -> Result<Request, AllocError>
    requires { IsRequestWithin text.now head.spans head.parsed }
    ensures { (h : RequestHead) → IsReadFrom text.now head h → path.now ≡ path_of h.target
        → query.now ≡ query_of h.target → IfOk result (ByOperation h body.now operation) }
{
    let fields = &head.spans[..head.parsed.headers];
    let token = caller_token(alloc, field_of(text, fields, b"authorization"))?;
    let command = command_of(alloc, operation, path, query, body)?;
    Ok(Request::Asks {
        token,
        command,
        closes: head.closes,
    })
}

/// The resource that a path names, if it is a text on a route.
fn resource_of(routes: &RouteTable, path: &[u8]) -> Option<Resource>
    ensures { IsUtf8 path.now → result ≡ resource_of path.now }
{
    match str::from_utf8(path) {
        Ok(path) => routes.resource_of(path),
        Err(_) => None,
    }
}

/// What a message with this head asks.
fn request_of(
    alloc: Global,
    routes: &RouteTable,
    text: &[u8],
    head: Head,
    body: &[u8],
) -> Result<Request, AllocError>
    requires { IsRequestWithin text.now head.spans head.parsed }
    ensures ok { (h : RequestHead) → IsReadFrom text.now head h
        → IfOk result (ByResource h body.now (resource_of (path_of h.target))) }
    ensures memory { (h : RequestHead) → IsReadFrom text.now head h
        → IfErr result (λ _. (operation : Operation) × IsOperationOf h operation) }
{
    let closes = head.closes;
    let (path, query) = split_target(head.parsed.path.of(text));
    let Some(resource) = resource_of(routes, path) else {
        return Ok(Request::NoRoute { closes });
    };
    match operation_at(resource, &head.method) {
        Some(operation) => command_request(alloc, text, head, path, query, body, operation),
        None => Ok(Request::NoMethod { resource, closes }),
    }
}

/// What a message asks, by its head, what was read of it, and its body. An `Err` means out of memory, which only a
/// message that asks an operation takes.
///
/// The checks are made in this order: those on the head, the route, the method, and then what the command
/// reads.
pub fn read_request(
    alloc: Global,
    routes: &RouteTable,
    text: &[u8],
    head: Result<Head, Refused>,
    body: &[u8],
) -> Result<Request, AllocError>
    requires { IsHeadRead text.now head }
    ensures ok { IfOk result (IsRequest (message text.now body.now)) }
    ensures memory { IfErr result (λ _. AsksOperation (message text.now body.now)) }
{
    match head {
        Ok(head) => request_of(alloc, routes, text, head, body),
        Err(refused) => Ok(Request::Refused {
            refusal: refused.refusal,
            is_bodiless: refused.is_bodiless,
        }),
    }
}
