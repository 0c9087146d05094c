//! The places of the names in a path: which segment, counted from 0 by the slashes, so that what is before the first
//! slash is 0. `laws::places_are_right` says that they are there in the routes.

/// The name that a path is of: `/teams/{team}`, `/pacticipants/{pacticipant}`, `/environments/{environment}`.
pub const OWN_NAME: usize = 2;

/// The version in `/pacticipants/{pacticipant}/versions/{version}`.
pub const VERSION: usize = 4;

/// The team in `/grants/team/{team}/environment/{environment}`.
pub const GRANTED_TEAM: usize = 3;

/// The environment in the same path.
pub const GRANTED_ENVIRONMENT: usize = 5;

/// The provider in the paths of pacts, `/pacts/provider/{provider}/consumer/{consumer}/version/{version}` and others.
pub const PROVIDER: usize = 3;

/// The consumer in the same paths.
pub const CONSUMER: usize = 5;

/// The consumer's version in the same paths.
pub const PACT_VERSION: usize = 7;

/// The branch in `/pacts/provider/{provider}/consumer/{consumer}/branch/{branch}`.
pub const PACT_BRANCH: usize = 7;
