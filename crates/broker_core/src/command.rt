//! Commands: one variant a route, and one for what couldn't be read.
ghost use Rattle.std.specs.Prelude.{◌≡◌, IfOk, IfSome, IsOk, None};
ghost use Rattle.broker_names.specs.Name.{IsName};
ghost use Rattle.broker_core.specs.Words.{named_in};
ghost use Rattle.broker_core.specs.SoundNames.{AreNames, AreNamesOfPath, AreNamesOfReport, VersionHasNames};

use broker_names::name::{Body, Name, Text, Token};
use std::alloc::AllocError;
use std::fmt;
use std::marker::Model;
use thiserror::Error;

/// The contract that a path names: whose it is, with whom.
#[derive(Debug, Drop)]
pub struct PactPath {
    pub provider: Name,
    pub consumer: Name,
    pub version: Name,
}

/// A version of a pacticipant, known by both names.
#[derive(Debug, Drop)]
pub struct Version {
    pub pacticipant: Name,
    pub name: Name,
}

/// What an environment asks of a deployment: that the gate judges it, and that the gate trusts only checked results.
#[derive(Clone, Copy, Debug, PartialEq, Eq)]
pub struct Marks {
    /// The gate judges deployments and releases.
    pub gated: bool,
    /// The gate takes only checked results. A strict environment is a gated one.
    pub strict: bool,
}

/// What a result says of a contract and a version of its provider.
#[derive(Debug, Drop)]
pub struct Report {
    pub provider_version: Name,
    pub run: Option<Name>,
}

/// Where the form of a command is at fault.
#[derive(Debug, Drop, Error)]
pub enum FormFault {
    /// A name in the path.
    Name,
    /// The body isn't JSON, or not an object.
    Json,
    /// This field of the body: it isn't there, has a wrong kind, or isn't a name.
    Field(Text),
    /// This key of the query: it isn't there exactly once, or its value isn't a name.
    Query(Text),
    /// The body's token has a wrong form.
    Token,
    /// The names in the pact file aren't those of the path.
    Names,
    /// The pact file: the number of its fault, and the place.
    Pact(Text),
    /// The replies: the number of their fault, and the place.
    Replies(Text),
    /// A reply belongs to no interaction of the contract's pact.
    UnknownReply,
}

impl FormFault {
    /// The same fault once more. The error is out of memory, and comes only if the fault names a field, a key or a place.
    pub fn clone(&self) -> Result<FormFault, AllocError>
        ensures same { IfOk result (λ copy. copy ≡ self.now) }
        ensures plain { named_in self.now ≡ None → IsOk result }
    {
        match self {
            FormFault::Name => Ok(FormFault::Name),
            FormFault::Json => Ok(FormFault::Json),
            FormFault::Field(field) => Ok(FormFault::Field(field.clone()?)),
            FormFault::Query(key) => Ok(FormFault::Query(key.clone()?)),
            FormFault::Token => Ok(FormFault::Token),
            FormFault::Names => Ok(FormFault::Names),
            FormFault::Pact(place) => Ok(FormFault::Pact(place.clone()?)),
            FormFault::Replies(place) => Ok(FormFault::Replies(place.clone()?)),
            FormFault::UnknownReply => Ok(FormFault::UnknownReply),
        }
    }
}

impl fmt::Display for FormFault {
    ghost use Rattle.std.specs.Prelude.{Some};
    ghost use Rattle.broker_core.specs.Words.{fault_text};

    ghost output = { λ fault. Some (fault_text fault) };

    fn fmt<W: fmt::Write>(&self, f: &mut fmt::Formatter<W>) -> fmt::Result {
        match self {
            FormFault::Name => f.write_str("name"),
            FormFault::Json => f.write_str("json"),
            FormFault::Field(field) => write!(f, "field {}", field.as_str()),
            FormFault::Query(key) => write!(f, "query {}", key.as_str()),
            FormFault::Token => f.write_str("token"),
            FormFault::Names => f.write_str("names"),
            FormFault::Pact(place) => write!(f, "pact {}", place.as_str()),
            FormFault::Replies(place) => write!(f, "replies {}", place.as_str()),
            FormFault::UnknownReply => f.write_str("check 1"),
        }
    }
}

/// One command of a caller: a variant for each route, and one for what couldn't be read.
#[derive(Drop)]
pub enum Command {
    /// Names a team and its token.
    PutTeam {
        team: Name,
        token: Token,
    },
    /// Names a pacticipant and the team that owns it.
    PutPacticipant {
        pacticipant: Name,
        team: Name,
    },
    /// Names an environment with its marks.
    PutEnvironment {
        environment: Name,
        marks: Marks,
    },
    /// Allows a team to deploy into an environment.
    PutGrant {
        team: Name,
        environment: Name,
    },
    /// Takes that back.
    DeleteGrant {
        team: Name,
        environment: Name,
    },
    /// Names a version, and puts it on a branch if one is given.
    PutVersion {
        version: Version,
        branch: Option<Name>,
    },
    /// Publishes a pact file as the contract of a consumer version with a provider.
    PutPact {
        path: PactPath,
        file: Body,
    },
    /// Shows a contract.
    GetPact {
        path: PactPath,
    },
    /// Shows the contract of the newest consumer version on a branch that has one with the
    /// provider.
    GetBranchPact {
        provider: Name,
        consumer: Name,
        branch: Name,
    },
    /// Reports the outcome of a verification, as its sender claims it.
    PostResult {
        path: PactPath,
        report: Report,
        success: bool,
    },
    /// Sends recorded replies, which the broker checks: the whole body.
    PostReplies {
        path: PactPath,
        report: Report,
        replies: Body,
    },
    /// Deploys a version into an instance of an environment.
    Deploy {
        environment: Name,
        version: Version,
        instance: Option<Name>,
    },
    /// Takes a deployed version out of an instance.
    Undeploy {
        environment: Name,
        version: Version,
        instance: Option<Name>,
    },
    /// Releases a version into an environment.
    Release {
        environment: Name,
        version: Version,
    },
    /// Ends the support of a released version.
    EndSupport {
        environment: Name,
        version: Version,
    },
    /// Lists what is in an environment.
    GetEnvironment {
        environment: Name,
    },
    /// Asks the gate without deploying.
    CanIDeploy {
        version: Version,
        environment: Name,
    },
    /// Shows the contracts of a version with their latest results.
    GetMatrix {
        version: Version,
    },
    /// A request of a known route whose path, query or body is at fault: it is reported after the token was looked at.
    Malformed(FormFault),
}

impl PactPath {
    /// Its names are names.
    fn has_names(&self)
        ensures { AreNamesOfPath self.now }
    {
        self.provider.is_name();
        self.consumer.is_name();
        self.version.is_name();
    }
}

impl Version {
    /// Its names are names.
    fn has_names(&self)
        ensures { VersionHasNames self.now }
    {
        self.pacticipant.is_name();
        self.name.is_name();
    }
}

/// It is a name, if there is one.
fn has_name(name: &Option<Name>)
    ensures { IfSome name.now IsName }
{
    if let Some(name) = name {
        name.is_name();
    }
}

impl Report {
    /// Its names are names.
    fn has_names(&self)
        ensures { AreNamesOfReport self.now }
    {
        self.provider_version.is_name();
        has_name(&self.run);
    }
}

impl Command {
    /// That each name of this command is a name, and its token a token, as their types promise. Nothing is done.
    pub fn has_names(&self)
        ensures { AreNames self.now }
    {
        match self {
            Command::PutTeam { team, token } => {
                team.is_name();
                token.is_token();
            },
            Command::PutPacticipant { pacticipant, team } => {
                pacticipant.is_name();
                team.is_name();
            },
            Command::PutEnvironment {
                environment,
                marks: _,
            } => environment.is_name(),
            Command::PutGrant { team, environment } | Command::DeleteGrant { team, environment } =>
                {
                    team.is_name();
                    environment.is_name();
                },
            Command::PutVersion { version, branch } => {
                version.has_names();
                has_name(branch);
            },
            Command::PutPact { path, file: _ } | Command::GetPact { path } => path.has_names(),
            Command::GetBranchPact {
                provider,
                consumer,
                branch,
            } => {
                provider.is_name();
                consumer.is_name();
                branch.is_name();
            },
            Command::PostResult {
                path,
                report,
                success: _,
            } => {
                path.has_names();
                report.has_names();
            },
            Command::PostReplies {
                path,
                report,
                replies: _,
            } => {
                path.has_names();
                report.has_names();
            },
            Command::Deploy {
                environment,
                version,
                instance,
            }
            | Command::Undeploy {
                environment,
                version,
                instance,
            } => {
                environment.is_name();
                version.has_names();
                has_name(instance);
            },
            Command::Release {
                environment,
                version,
            }
            | Command::EndSupport {
                environment,
                version,
            }
            | Command::CanIDeploy {
                version,
                environment,
            } => {
                environment.is_name();
                version.has_names();
            },
            Command::GetEnvironment { environment } => environment.is_name(),
            Command::GetMatrix { version } => version.has_names(),
            Command::Malformed(_) => {},
        }
    }
}
