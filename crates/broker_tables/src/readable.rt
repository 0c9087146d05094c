//! That the names of a command are names in UTF-8.
ghost use Rattle.std.specs.Prelude.{IfSome, IsUtf8};
ghost use Rattle.broker_tables.specs.Laws.{AreUtf8, HasReadableNames, PathIsUtf8, ReportIsUtf8, VersionIsUtf8};

use broker_core::command::{Command, PactPath, Report, Version};
use broker_names::name::Name;

/// It is in UTF-8.
fn is_utf8(name: &Name)
    ensures { IsUtf8 name.now }
{
    let _ = name.as_str();
}

/// It is, if there is one.
fn is_utf8_if_there(name: &Option<Name>)
    ensures { IfSome name.now IsUtf8 }
{
    if let Some(name) = name {
        is_utf8(name);
    }
}

/// Its names are in UTF-8.
fn path_is_utf8(path: &PactPath)
    ensures { PathIsUtf8 path.now }
{
    is_utf8(&path.provider);
    is_utf8(&path.consumer);
    is_utf8(&path.version);
}

/// Its names are in UTF-8.
fn version_is_utf8(version: &Version)
    ensures { VersionIsUtf8 version.now }
{
    is_utf8(&version.pacticipant);
    is_utf8(&version.name);
}

/// Its names are in UTF-8.
fn report_is_utf8(report: &Report)
    ensures { ReportIsUtf8 report.now }
{
    is_utf8(&report.provider_version);
    is_utf8_if_there(&report.run);
}

/// Each name is in UTF-8.
fn are_utf8(command: &Command)
    ensures { AreUtf8 command.now }
{
    match command {
        Command::PutTeam { team, token: _ } => is_utf8(team),
        Command::PutPacticipant { pacticipant, team } => {
            is_utf8(pacticipant);
            is_utf8(team);
        },
        Command::PutEnvironment {
            environment,
            marks: _,
        } => is_utf8(environment),
        Command::PutGrant { team, environment } | Command::DeleteGrant { team, environment } => {
            is_utf8(team);
            is_utf8(environment);
        },
        Command::PutVersion { version, branch } => {
            version_is_utf8(version);
            is_utf8_if_there(branch);
        },
        Command::PutPact { path, file: _ } | Command::GetPact { path } => path_is_utf8(path),
        Command::GetBranchPact {
            provider,
            consumer,
            branch,
        } => {
            is_utf8(provider);
            is_utf8(consumer);
            is_utf8(branch);
        },
        Command::PostResult {
            path,
            report,
            success: _,
        } => {
            path_is_utf8(path);
            report_is_utf8(report);
        },
        Command::PostReplies {
            path,
            report,
            replies: _,
        } => {
            path_is_utf8(path);
            report_is_utf8(report);
        },
        Command::Deploy {
            environment,
            version,
            instance,
        }
        | Command::Undeploy {
            environment,
            version,
            instance,
        } => {
            is_utf8(environment);
            version_is_utf8(version);
            is_utf8_if_there(instance);
        },
        Command::Release {
            environment,
            version,
        }
        | Command::EndSupport {
            environment,
            version,
        }
        | Command::CanIDeploy {
            version,
            environment,
        } => {
            is_utf8(environment);
            version_is_utf8(version);
        },
        Command::GetEnvironment { environment } => is_utf8(environment),
        Command::GetMatrix { version } => version_is_utf8(version),
        Command::Malformed(_) => {},
    }
}

/// That each name of this command is a name in UTF-8, as their types promise. Nothing is done.
pub fn has_readable_names(command: &Command)
    ensures { HasReadableNames command.now }
{
    command.has_names();
    are_utf8(command);
}
