//! The command that a message asks.
ghost use Rattle.std.specs.Prelude.{◌≡◌, [], IfOk, codes, if◌then◌else◌, Option};
ghost use Rattle.serde_json.specs.Data.{Data};
ghost use Rattle.http_requests.specs.Views.{object_in, IsBeside};
ghost use Rattle.http_requests.specs.Bodies.{IsNameField, IsOptionalName, IsTokenField, or_empty};
ghost use Rattle.http_requests.specs.Commands.{WithFields, IsTwoNames, IsPactNames, IsPactPath, IsVersionFields, IsVersionQuery};
ghost use Rattle.http_requests.specs.Commands.{IsMarksFields, IsResultFields, IsReportFields, IsMoveFields, IsGrant, IsMove, IsSupport};
ghost use Rattle.http_requests.specs.Commands.{IsParsed, IsCommand, or_malformed};

use crate::bodies::{Fields, or_empty};
use crate::names::{Parsed, path_name};
use crate::queries::query_name;
use broker_core::command::{Command, FormFault, Marks, PactPath, Report, Version};
use broker_names::name::{Body, Name, Token};
use http_routes::{Operation, places};
use std::alloc::{AllocError, Global};

/// Gives the part that is read. A fault in it is the fault of the whole, and nothing more is read.
macro_rules! part {
    ($read:expr) => {
        match $read? {
            Ok(part) => part,
            Err(fault) => return Ok(Err(fault)),
        }
    };
}

/// Two names of the path.
fn two_names(alloc: Global, path: &[u8], first: usize, second: usize) -> Parsed<(Name, Name)>
    ensures { IfOk result (IsTwoNames first second path.now) }
{
    let first = part!(path_name(alloc, path, first));
    let second = part!(path_name(alloc, path, second));
    Ok(Ok((first, second)))
}

/// The provider, the consumer and a third name.
fn pact_names(alloc: Global, path: &[u8], third: usize) -> Parsed<(Name, Name, Name)>
    ensures { IfOk result (IsPactNames third path.now) }
{
    let (provider, consumer) = part!(two_names(alloc, path, places::PROVIDER, places::CONSUMER));
    let third = part!(path_name(alloc, path, third));
    Ok(Ok((provider, consumer, third)))
}

fn pact_path(alloc: Global, path: &[u8]) -> Parsed<PactPath>
    ensures { IfOk result (IsPactPath path.now) }
{
    let (provider, consumer, version) = part!(pact_names(alloc, path, places::PACT_VERSION));
    Ok(Ok(PactPath {
        provider,
        consumer,
        version,
    }))
}

fn version_fields(alloc: Global, fields: &Fields) -> Parsed<Version>
    ensures { IfOk result (IsVersionFields (object_in fields.now)) }
{
    let pacticipant = part!(fields.name(alloc, "pacticipant"));
    let name = part!(fields.name(alloc, "version"));
    Ok(Ok(Version { pacticipant, name }))
}

fn version_query(alloc: Global, query: &[u8]) -> Parsed<Version>
    ensures { IfOk result (IsVersionQuery query.now) }
{
    let pacticipant = part!(query_name(alloc, query, "pacticipant"));
    let name = part!(query_name(alloc, query, "version"));
    Ok(Ok(Version { pacticipant, name }))
}

fn name_in(alloc: Global, body: &[u8], key: &str) -> Parsed<Name>
    ensures { IfOk result (WithFields body.now (IsNameField key.now)) }
{
    let fields = part!(Fields::read(alloc, body));
    fields.name(alloc, key)
}

fn optional_name_in(alloc: Global, body: &[u8], key: &str) -> Parsed<Option<Name>>
    ensures { IfOk result (WithFields body.now (IsOptionalName key.now)) }
{
    let fields = part!(Fields::read(alloc, body));
    fields.optional_name(alloc, key)
}

fn token_in(alloc: Global, body: &[u8]) -> Parsed<Token>
    ensures { IfOk result (WithFields body.now IsTokenField) }
{
    let fields = part!(Fields::read(alloc, body));
    fields.token(alloc)
}

fn marks_fields(alloc: Global, fields: &Fields) -> Parsed<Marks>
    ensures { IfOk result (IsMarksFields (object_in fields.now)) }
{
    let gated = part!(fields.truth(alloc, "gated"));
    let strict = part!(fields.optional_truth(alloc, "strict"));
    Ok(Ok(Marks { gated, strict }))
}

fn marks_in(alloc: Global, body: &[u8]) -> Parsed<Marks>
    ensures { IfOk result (WithFields body.now IsMarksFields) }
{
    let fields = part!(Fields::read(alloc, body));
    marks_fields(alloc, &fields)
}

fn version_in(alloc: Global, body: &[u8]) -> Parsed<Version>
    ensures { IfOk result (WithFields body.now IsVersionFields) }
{
    let fields = part!(Fields::read(alloc, body));
    version_fields(alloc, &fields)
}

fn put_team(alloc: Global, path: &[u8], body: &[u8]) -> Parsed<Command>
    ensures { IfOk result (IsParsed Operation.PutTeam path.now [] body.now) }
{
    let team = part!(path_name(alloc, path, places::OWN_NAME));
    let token = part!(token_in(alloc, body));
    Ok(Ok(Command::PutTeam { team, token }))
}

fn put_pacticipant(alloc: Global, path: &[u8], body: &[u8]) -> Parsed<Command>
    ensures { IfOk result (IsParsed Operation.PutPacticipant path.now [] body.now) }
{
    let pacticipant = part!(path_name(alloc, path, places::OWN_NAME));
    let team = part!(name_in(alloc, body, "team"));
    Ok(Ok(Command::PutPacticipant { pacticipant, team }))
}

fn put_environment(alloc: Global, path: &[u8], body: &[u8]) -> Parsed<Command>
    ensures { IfOk result (IsParsed Operation.PutEnvironment path.now [] body.now) }
{
    let environment = part!(path_name(alloc, path, places::OWN_NAME));
    let marks = part!(marks_in(alloc, body));
    Ok(Ok(Command::PutEnvironment { environment, marks }))
}

/// A grant that is given, or taken.
fn grant(alloc: Global, path: &[u8], gives: bool) -> Parsed<Command>
    ensures { IfOk result (IsGrant (if gives then Command.PutGrant else Command.DeleteGrant) path.now) }
{
    let (team, environment) = part!(two_names(
        alloc,
        path,
        places::GRANTED_TEAM,
        places::GRANTED_ENVIRONMENT,
    ));
    if gives {
        Ok(Ok(Command::PutGrant { team, environment }))
    } else {
        Ok(Ok(Command::DeleteGrant { team, environment }))
    }
}

fn put_version(alloc: Global, path: &[u8], body: &[u8]) -> Parsed<Command>
    ensures { IfOk result (IsParsed Operation.PutVersion path.now [] body.now) }
{
    let (pacticipant, name) = part!(two_names(alloc, path, places::OWN_NAME, places::VERSION));
    let branch = part!(optional_name_in(alloc, or_empty(body), "branch"));
    Ok(Ok(Command::PutVersion {
        version: Version { pacticipant, name },
        branch,
    }))
}

fn put_pact(alloc: Global, path: &[u8], body: &[u8]) -> Parsed<Command>
    ensures { IfOk result (IsParsed Operation.PutPact path.now [] body.now) }
{
    let path = part!(pact_path(alloc, path));
    let file = Body::new(Vec::from_slice(alloc, body)?);
    Ok(Ok(Command::PutPact { path, file }))
}

fn get_pact(alloc: Global, path: &[u8]) -> Parsed<Command>
    ensures { IfOk result (IsParsed Operation.GetPact path.now [] []) }
{
    let path = part!(pact_path(alloc, path));
    Ok(Ok(Command::GetPact { path }))
}

fn get_branch_pact(alloc: Global, path: &[u8]) -> Parsed<Command>
    ensures { IfOk result (IsParsed Operation.GetBranchPact path.now [] []) }
{
    let (provider, consumer, branch) = part!(pact_names(alloc, path, places::PACT_BRANCH));
    Ok(Ok(Command::GetBranchPact {
        provider,
        consumer,
        branch,
    }))
}

fn result_fields(alloc: Global, fields: &Fields) -> Parsed<(Report, bool)>
    ensures { IfOk result (IsResultFields (object_in fields.now)) }
{
    let provider_version = part!(fields.name(alloc, "providerApplicationVersion"));
    let success = part!(fields.truth(alloc, "success"));
    let run = part!(fields.optional_name(alloc, "run"));
    Ok(Ok((
        Report {
            provider_version,
            run,
        },
        success,
    )))
}

fn result_in(alloc: Global, body: &[u8]) -> Parsed<(Report, bool)>
    ensures { IfOk result (WithFields body.now IsResultFields) }
{
    let fields = part!(Fields::read(alloc, body));
    result_fields(alloc, &fields)
}

fn report_fields(alloc: Global, fields: &Fields) -> Parsed<Report>
    ensures { IfOk result (IsReportFields (object_in fields.now)) }
{
    let provider_version = part!(fields.name(alloc, "providerApplicationVersion"));
    let run = part!(fields.optional_name(alloc, "run"));
    Ok(Ok(Report {
        provider_version,
        run,
    }))
}

fn report_in(alloc: Global, body: &[u8]) -> Parsed<Report>
    ensures { IfOk result (WithFields body.now IsReportFields) }
{
    let fields = part!(Fields::read(alloc, body));
    report_fields(alloc, &fields)
}

/// The report on replies, and a copy of the body.
fn replies_in(alloc: Global, body: &[u8]) -> Parsed<(Report, Body)>
    ensures { IfOk result (IsBeside body.now (WithFields body.now IsReportFields)) }
{
    let report = part!(report_in(alloc, body));
    let replies = Body::new(Vec::from_slice(alloc, body)?);
    Ok(Ok((report, replies)))
}

fn post_result(alloc: Global, path: &[u8], body: &[u8]) -> Parsed<Command>
    ensures { IfOk result (IsParsed Operation.PostResult path.now [] body.now) }
{
    let path = part!(pact_path(alloc, path));
    let (report, success) = part!(result_in(alloc, body));
    Ok(Ok(Command::PostResult {
        path,
        report,
        success,
    }))
}

fn post_replies(alloc: Global, path: &[u8], body: &[u8]) -> Parsed<Command>
    ensures { IfOk result (IsParsed Operation.PostReplies path.now [] body.now) }
{
    let path = part!(pact_path(alloc, path));
    let (report, replies) = part!(replies_in(alloc, body));
    Ok(Ok(Command::PostReplies {
        path,
        report,
        replies,
    }))
}

/// A version, and the instance of an environment.
fn move_fields(alloc: Global, fields: &Fields) -> Parsed<(Version, Option<Name>)>
    ensures { IfOk result (IsMoveFields (object_in fields.now)) }
{
    let version = part!(version_fields(alloc, fields));
    let instance = part!(fields.optional_name(alloc, "instance"));
    Ok(Ok((version, instance)))
}

fn move_in(alloc: Global, body: &[u8]) -> Parsed<(Version, Option<Name>)>
    ensures { IfOk result (WithFields body.now IsMoveFields) }
{
    let fields = part!(Fields::read(alloc, body));
    move_fields(alloc, &fields)
}

/// What is deployed, or undeployed.
fn deployment(alloc: Global, path: &[u8], body: &[u8], deploys: bool) -> Parsed<Command>
    ensures { IfOk result (IsMove (if deploys then Command.Deploy else Command.Undeploy) path.now body.now) }
{
    let environment = part!(path_name(alloc, path, places::OWN_NAME));
    let (version, instance) = part!(move_in(alloc, body));
    if deploys {
        Ok(Ok(Command::Deploy {
            environment,
            version,
            instance,
        }))
    } else {
        Ok(Ok(Command::Undeploy {
            environment,
            version,
            instance,
        }))
    }
}

/// What is released, or no longer supported.
fn support(alloc: Global, path: &[u8], body: &[u8], releases: bool) -> Parsed<Command>
    ensures { IfOk result (IsSupport (if releases then Command.Release else Command.EndSupport) path.now body.now) }
{
    let environment = part!(path_name(alloc, path, places::OWN_NAME));
    let version = part!(version_in(alloc, body));
    if releases {
        Ok(Ok(Command::Release {
            environment,
            version,
        }))
    } else {
        Ok(Ok(Command::EndSupport {
            environment,
            version,
        }))
    }
}

fn get_environment(alloc: Global, path: &[u8]) -> Parsed<Command>
    ensures { IfOk result (IsParsed Operation.GetEnvironment path.now [] []) }
{
    let environment = part!(path_name(alloc, path, places::OWN_NAME));
    Ok(Ok(Command::GetEnvironment { environment }))
}

fn can_i_deploy(alloc: Global, query: &[u8]) -> Parsed<Command>
    ensures { IfOk result (IsParsed Operation.CanIDeploy [] query.now []) }
{
    let version = part!(version_query(alloc, query));
    let environment = part!(query_name(alloc, query, "environment"));
    Ok(Ok(Command::CanIDeploy {
        version,
        environment,
    }))
}

fn get_matrix(alloc: Global, query: &[u8]) -> Parsed<Command>
    ensures { IfOk result (IsParsed Operation.GetMatrix [] query.now []) }
{
    let version = part!(version_query(alloc, query));
    Ok(Ok(Command::GetMatrix { version }))
}

/// The command of an operation, or its first fault.
fn parse(
    alloc: Global,
    operation: Operation,
    path: &[u8],
    query: &[u8],
    body: &[u8],
) -> Parsed<Command>
    ensures { IfOk result (IsParsed operation path.now query.now body.now) }
{
    match operation {
        Operation::PutTeam => put_team(alloc, path, body),
        Operation::PutPacticipant => put_pacticipant(alloc, path, body),
        Operation::PutEnvironment => put_environment(alloc, path, body),
        Operation::PutGrant => grant(alloc, path, true),
        Operation::DeleteGrant => grant(alloc, path, false),
        Operation::PutVersion => put_version(alloc, path, body),
        Operation::PutPact => put_pact(alloc, path, body),
        Operation::GetPact => get_pact(alloc, path),
        Operation::GetBranchPact => get_branch_pact(alloc, path),
        Operation::PostResult => post_result(alloc, path, body),
        Operation::PostReplies => post_replies(alloc, path, body),
        Operation::Deploy => deployment(alloc, path, body, true),
        Operation::Undeploy => deployment(alloc, path, body, false),
        Operation::Release => support(alloc, path, body, true),
        Operation::EndSupport => support(alloc, path, body, false),
        Operation::GetEnvironment => get_environment(alloc, path),
        Operation::CanIDeploy => can_i_deploy(alloc, query),
        Operation::GetMatrix => get_matrix(alloc, query),
    }
}

fn or_malformed(parsed: Result<Command, FormFault>) -> Command
    ensures { result ≡ or_malformed parsed }
{
    match parsed {
        Ok(command) => command,
        Err(fault) => Command::Malformed(fault),
    }
}

/// The command that an operation asks of a path, a query and a body.
///
/// A command whose form is at fault is `Malformed` with its first fault: those of the names in the path come first, in
/// the path's order, and then those of the body's fields or the query's keys in the order in which the command asks for
/// them. An `Err` means out of memory.
pub fn command_of(
    alloc: Global,
    operation: Operation,
    path: &[u8],
    query: &[u8],
    body: &[u8],
) -> Result<Command, AllocError>
    ensures { IfOk result (IsCommand operation path.now query.now body.now) }
{
    let parsed = parse(alloc, operation, path, query, body)?;
    Ok(or_malformed(parsed))
}
