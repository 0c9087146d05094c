//! Who may do what (this project's own policy).
ghost use Rattle.std.specs.Prelude.{◌≡◌, if◌then◌else◌, map};
ghost use Rattle.std.specs.List.{list_any};
ghost use Rattle.broker_core.specs.Policy.{allows};
ghost use Rattle.broker_core.specs.Text.{same_text};

use broker_names::name::Name;
use std::fmt;

/// Who sent a command, known by the digest of its token.
#[derive(Debug, Drop)]
pub enum Caller {
    /// The office, which names teams, pacticipants and environments, and gives grants.
    Office,
    /// A team, which owns pacticipants.
    Team(Name),
}

/// The rules of the policy. Each command is judged by one of them, which the answer names if it denies.
#[derive(Clone, Copy, Debug, PartialEq, Eq)]
pub enum Rule {
    /// The token is the office's or a team's.
    KnownCaller,
    /// Only the office names teams, pacticipants with their owners, and environments, and gives and takes grants.
    OfficeOnly,
    /// A version is named by the pacticipant's owner, and a pact published by the consumer's.
    OwnerToPublish,
    /// Results and replies come from the provider's owner.
    OwnerToVerify,
    /// A pact is read by the owner of either side, or by the office.
    OwnerOrOfficeToRead,
    /// can-i-deploy and the matrix are asked by the pacticipant's owner, or by the office.
    OwnerOrOfficeToAsk,
    /// Deployments, undeployments, releases and ends of support come from the pacticipant's owner,
    /// with a grant for the environment; not from the office.
    OwnerWithGrant,
    /// An environment is listed to each known caller.
    KnownCallerToList,
}

impl Rule {
    ghost use Rattle.broker_core.specs.Words.{rule_text};

    /// The rule's name in answers, from `A1` to `A8`.
    pub const fn as_str(self) -> &'static str
        ensures { result.now ≡ rule_text self }
    {
        match self {
            Rule::KnownCaller => "A1",
            Rule::OfficeOnly => "A2",
            Rule::OwnerToPublish => "A3",
            Rule::OwnerToVerify => "A4",
            Rule::OwnerOrOfficeToRead => "A5",
            Rule::OwnerOrOfficeToAsk => "A6",
            Rule::OwnerWithGrant => "A7",
            Rule::KnownCallerToList => "A8",
        }
    }
}

impl fmt::Display for Rule {
    ghost use Rattle.std.specs.Prelude.{Some};
    ghost use Rattle.broker_core.specs.Words.{rule_text};

    ghost output = { λ rule. Some (rule_text rule) };

    fn fmt<W: fmt::Write>(&self, f: &mut fmt::Formatter<W>) -> fmt::Result {
        f.write_str(self.as_str())
    }
}

/// Whether the text is one of these.
fn is_among(texts: &[&str], text: &str) -> bool
    ensures { result ≡ list_any (same_text text.now) (map (λ t. t.now) texts.now) }
{
    for other in texts {
        if text == *other {
            return true;
        }
    }
    false
}

/// What a command asks of the policy.
#[derive(Clone, Copy, Debug)]
pub struct Ask<'a> {
    /// The rule by which the command is judged.
    pub rule: Rule,
    /// The teams that own the pacticipants which count here, as many as there are.
    pub owners: &'a [&'a str],
    /// Whether the caller's team has a grant for the command's environment.
    pub granted: bool,
}

impl Caller {
    ghost use Rattle.broker_core.specs.Policy.{is_office, is_owner};

    /// Whether the caller is the office.
    pub fn is_office(&self) -> bool
        ensures { result ≡ is_office self.now }
    {
        matches!(self, Caller::Office)
    }

    /// Whether the caller is a team among the owners.
    fn is_owner(&self, owners: &[&str]) -> bool
        ensures { result ≡ is_owner self.now (map (λ o. o.now) owners.now) }
    {
        match self {
            Caller::Team(team) => is_among(owners, team.as_str()),
            Caller::Office => false,
        }
    }

    fn has_right(&self, ask: &Ask<'_>) -> bool
        ensures { result ≡ allows ask.now.rule self.now (map (λ o. o.now) ask.now.owners.now) ask.now.granted }
    {
        match ask.rule {
            Rule::KnownCaller | Rule::KnownCallerToList => true,
            Rule::OfficeOnly => self.is_office(),
            Rule::OwnerToPublish | Rule::OwnerToVerify => self.is_owner(ask.owners),
            Rule::OwnerOrOfficeToRead | Rule::OwnerOrOfficeToAsk => self.is_office()
                || self.is_owner(ask.owners),
            Rule::OwnerWithGrant => self.is_owner(ask.owners) && ask.granted,
        }
    }
}

/// Whether the policy allows the caller what is asked: nothing, or the rule that denies, which is the one asked for.
///
/// `KnownCaller` and `KnownCallerToList` let every caller that is known. A team is an owner if it is among the owners.
/// Takes no memory.
pub fn allowed(caller: &Caller, ask: &Ask<'_>) -> Result<(), Rule>
    ensures { result ≡ (if allows ask.now.rule caller.now (map (λ o. o.now) ask.now.owners.now) ask.now.granted
        then Ok tt else Err ask.now.rule) }
{
    if caller.has_right(ask) {
        Ok(())
    } else {
        Err(ask.rule)
    }
}
