//! The texts that make the tables, each in one place. A new broker runs them in this order.

/// The one row of the broker itself: the format of its tables, and the digest of the office's token.
pub const META: &str =
    "CREATE TABLE meta (one INTEGER NOT NULL PRIMARY KEY CHECK (one = 1), format INTEGER NOT NULL, office_digest TEXT NOT NULL) STRICT";

/// Teams, each with the digest of its token, which no other team has.
pub const TEAMS: &str =
    "CREATE TABLE teams (name TEXT NOT NULL PRIMARY KEY, token_digest TEXT NOT NULL UNIQUE) STRICT";

/// Pacticipants, each with the team that owns it.
pub const PACTICIPANTS: &str =
    "CREATE TABLE pacticipants (name TEXT NOT NULL PRIMARY KEY, team TEXT NOT NULL REFERENCES teams (name)) STRICT";

/// Versions of pacticipants, numbered from 1. The other tables name a version by its number.
pub const VERSIONS: &str =
    "CREATE TABLE versions (number INTEGER NOT NULL PRIMARY KEY, pacticipant TEXT NOT NULL REFERENCES pacticipants (name), version TEXT NOT NULL, UNIQUE (pacticipant, version)) STRICT";

/// The branches that a version is on.
pub const BRANCHES: &str =
    "CREATE TABLE branches (version_number INTEGER NOT NULL REFERENCES versions (number), branch TEXT NOT NULL, PRIMARY KEY (version_number, branch)) STRICT";

/// Environments, each with the mark that the gate judges what comes in.
pub const ENVIRONMENTS: &str =
    "CREATE TABLE environments (name TEXT NOT NULL PRIMARY KEY, gated INTEGER NOT NULL CHECK (gated IN (0, 1))) STRICT";

/// The teams that may change what is in an environment.
pub const GRANTS: &str =
    "CREATE TABLE grants (team TEXT NOT NULL REFERENCES teams (name), environment TEXT NOT NULL REFERENCES environments (name), PRIMARY KEY (team, environment)) STRICT";

/// The normal texts of pacts, numbered from 1, each with its digest.
pub const CONTENTS: &str =
    "CREATE TABLE contents (number INTEGER NOT NULL PRIMARY KEY, digest TEXT NOT NULL, body TEXT NOT NULL) STRICT";

/// The contract of a consumer version with a provider, by the number of its content.
pub const CONTRACTS: &str =
    "CREATE TABLE contracts (version_number INTEGER NOT NULL REFERENCES versions (number), provider TEXT NOT NULL REFERENCES pacticipants (name), content INTEGER NOT NULL REFERENCES contents (number), PRIMARY KEY (version_number, provider)) STRICT";

/// Verification results, numbered from 1. A provider uses a run once.
pub const RESULTS: &str =
    "CREATE TABLE results (number INTEGER NOT NULL PRIMARY KEY, content INTEGER NOT NULL REFERENCES contents (number), provider TEXT NOT NULL REFERENCES pacticipants (name), provider_version INTEGER NOT NULL REFERENCES versions (number), pass INTEGER NOT NULL CHECK (pass IN (0, 1)), run TEXT, UNIQUE (provider, run)) STRICT";

/// The latest result of each content and provider version.
pub const LATEST: &str =
    "CREATE TABLE latest (content INTEGER NOT NULL REFERENCES contents (number), provider_version INTEGER NOT NULL REFERENCES versions (number), result INTEGER NOT NULL REFERENCES results (number), PRIMARY KEY (content, provider_version)) STRICT";

/// The version of a pacticipant that is deployed in an environment as an instance.
pub const DEPLOYED: &str =
    "CREATE TABLE deployed (environment TEXT NOT NULL REFERENCES environments (name), pacticipant TEXT NOT NULL REFERENCES pacticipants (name), instance TEXT NOT NULL, version_number INTEGER NOT NULL REFERENCES versions (number), PRIMARY KEY (environment, pacticipant, instance)) STRICT";

/// The versions that are released and supported in an environment.
pub const RELEASED: &str =
    "CREATE TABLE released (environment TEXT NOT NULL REFERENCES environments (name), version_number INTEGER NOT NULL REFERENCES versions (number), PRIMARY KEY (environment, version_number)) STRICT";

/// The results that the broker checked itself; the others are claims of their senders.
pub const CHECKED_RESULTS: &str =
    "CREATE TABLE checked_results (result INTEGER NOT NULL PRIMARY KEY REFERENCES results (number)) STRICT";

/// The environments whose gate trusts only checked results.
pub const STRICT_ENVIRONMENTS: &str =
    "CREATE TABLE strict_environments (environment TEXT NOT NULL PRIMARY KEY REFERENCES environments (name)) STRICT";

/// Contents by their digest.
pub const CONTENTS_BY_DIGEST: &str = "CREATE INDEX contents_by_digest ON contents (digest)";

/// Contracts by their content.
pub const CONTRACTS_BY_CONTENT: &str = "CREATE INDEX contracts_by_content ON contracts (content)";

/// The latest results by the version that was verified.
pub const LATEST_BY_PROVIDER_VERSION: &str =
    "CREATE INDEX latest_by_provider_version ON latest (provider_version)";

/// The versions of a pacticipant in the order of their numbers.
pub const VERSIONS_BY_PACTICIPANT: &str =
    "CREATE INDEX versions_by_pacticipant ON versions (pacticipant, number)";
