//! An entry of a table.

ghost use Rattle.std.specs.Prelude.{option_map};
ghost use Rattle.pact_rules.specs.Gathered.{IsGatheredOf, HasItsPatterns};

use crate::many::Many;
use crate::table::Matcher;

/// An entry of a table: it holds if all its matchers hold, or with `any` if at least one does.
#[derive(Drop)]
pub struct Entry {
    pub any: bool,
    pub matchers: Vec<Matcher>,
    /// What the matchers ask, each thing once, if they are many.
    pub(crate) many: Option<Many>,
    ghost says: { IsGatheredOf any matchers.items (option_map (λ m. m.gathered) many) },
    ghost patterns: { HasItsPatterns matchers.items (option_map (λ m. m.gathered) many) },
}
