//! What the gate looks at, after the Pact Broker's can-i-deploy: the needs of a version, and their
//! faults.
ghost use Rattle.std.specs.Prelude.{◌≡◌, IfOk, Ok, None, nat_eq};
ghost use Rattle.std.proofs.Common.{rules};
ghost use Rattle.std.specs.Cmp.{partial_order_from_own_ties};
ghost use Rattle.std.specs.Cmp.Rules.{comparing};
ghost use Rattle.std.specs.Ordering.{nat_cmp, on, as_partial_cmp};

use broker_names::name::Name;
use std::alloc::{AllocError, Global};
use std::cmp::Ordering;
use std::fmt;
use std::marker::Model;

/// What the latest verification result says.
#[derive(Clone, Copy, Debug, PartialEq, Eq)]
pub struct Latest {
    /// Whether it is a pass.
    pub pass: bool,
    /// Whether the broker checked recorded replies; otherwise its sender claimed it.
    pub checked: bool,
}

/// A contract and a version of its provider, with the latest result.
#[derive(Debug, Drop)]
pub struct Need {
    pub consumer: Name,
    pub consumer_version: Name,
    pub provider: Name,
    /// None if the provider is absent from the environment.
    pub provider_version: Option<Name>,
    /// None if that version has no result for the contract's content.
    pub latest: Option<Latest>,
}

/// What a need lacks.
#[derive(Clone, Copy, Debug)]
pub enum Kind {
    /// No version of the provider is in the environment.
    Absent,
    /// The version of the provider has no result for the contract's content.
    Missing,
    /// The latest result isn't a pass.
    Failed,
    /// The environment is strict, and the latest result is a pass that was only claimed.
    Claimed,
}

impl Kind {
    ghost use Rattle.broker_core.specs.Kind.{kind_rank};
    ghost use Rattle.broker_core.specs.Words.{kind_text};

    /// The kind's word in answers.
    pub const fn as_str(self) -> &'static str
        ensures { result.now ≡ kind_text self }
    {
        match self {
            Kind::Absent => "absent",
            Kind::Missing => "missing",
            Kind::Failed => "failed",
            Kind::Claimed => "claimed",
        }
    }

    const fn rank(self) -> u8
        ensures { result ≡ kind_rank self }
    {
        match self {
            Kind::Absent => 0,
            Kind::Missing => 1,
            Kind::Failed => 2,
            Kind::Claimed => 3,
        }
    }
}

impl fmt::Display for Kind {
    ghost use Rattle.std.specs.Prelude.{Some};
    ghost use Rattle.broker_core.specs.Words.{kind_text};

    ghost output = { λ kind. Some (kind_text kind) };

    fn fmt<W: fmt::Write>(&self, f: &mut fmt::Formatter<W>) -> fmt::Result {
        f.write_str(self.as_str())
    }
}

impl PartialEq for Kind {
    ghost use Rattle.broker_core.specs.Kind.{kind_rank};

    ghost eq = { on kind_rank nat_eq };

    ghost laws = { Prim.search (comparing, rules) };

    fn eq(&self, other: &Kind) -> bool {
        self.rank() == other.rank()
    }
}

impl Eq for Kind {
    ghost laws = { Prim.search (comparing, rules) };
}

impl PartialOrd for Kind {
    ghost use Rattle.broker_core.specs.Kind.{kind_rank};

    ghost partial_cmp = { as_partial_cmp (on kind_rank nat_cmp) };

    ghost laws = { partial_order_from_own_ties (Prim.search (comparing, rules))
        (Prim.search (comparing, rules)) };

    fn partial_cmp(&self, other: &Kind) -> Option<Ordering> {
        Some(self.cmp(other))
    }
}

impl Ord for Kind {
    ghost use Rattle.broker_core.specs.Kind.{kind_rank};

    ghost cmp = { on kind_rank nat_cmp };

    ghost total = { Prim.search (comparing, rules) };

    ghost matches_partial_cmp = { Prim.search (comparing, rules) };

    ghost matches_eq = { Prim.search (comparing, rules) };

    fn cmp(&self, other: &Kind) -> Ordering {
        self.rank().cmp(&other.rank())
    }
}

/// A need that isn't good: a contract, a version of its provider, and what is lacking.
///
/// Faults are ordered by consumer, its version, provider, its version (none first) and kind, names
/// by their bytes.
#[derive(Debug, Drop, PartialEq, Eq, PartialOrd, Ord)]
pub struct PairFault {
    pub consumer: Name,
    pub consumer_version: Name,
    pub provider: Name,
    /// None if the provider is absent.
    pub provider_version: Option<Name>,
    pub kind: Kind,
}

impl Need {
    ghost use Rattle.broker_core.specs.Faults.{kind_of, fault_of};

    /// What this need lacks, none if it is good.
    fn kind(&self, strict: bool) -> Option<Kind>
        ensures { result ≡ kind_of strict self.now.provider_version self.now.latest }
    {
        match (&self.provider_version, self.latest) {
            (None, _) => Some(Kind::Absent),
            (Some(_), None) => Some(Kind::Missing),
            (Some(_), Some(latest)) => {
                if !latest.pass {
                    Some(Kind::Failed)
                } else if strict && !latest.checked {
                    Some(Kind::Claimed)
                } else {
                    None
                }
            }
        }
    }

    /// The fault of this need, none if it is good. A good need takes no memory.
    pub(crate) fn fault(&self, strict: bool) -> Result<Option<PairFault>, AllocError>
        ensures fault { IfOk result (λ fault. fault ≡ fault_of strict self.now) }
        ensures good { fault_of strict self.now ≡ None → result ≡ Ok None }
    {
        let Some(kind) = self.kind(strict) else {
            return Ok(None);
        };
        let provider_version = match &self.provider_version {
            Some(version) => Some(version.clone()?),
            None => None,
        };
        Ok(Some(PairFault {
            consumer: self.consumer.clone()?,
            consumer_version: self.consumer_version.clone()?,
            provider: self.provider.clone()?,
            provider_version,
            kind,
        }))
    }
}
