//! What many matchers ask, ready to be asked.

ghost use Rattle.std.specs.Prelude.{IsTrue};
ghost use Rattle.pact_rules.specs.Gathered.{AreApart};

use crate::gathered::Gathered;

/// What many matchers ask, and whether its parts of texts are in order so that one search finds them.
#[derive(Drop)]
pub(crate) struct Many {
    pub(crate) gathered: Gathered,
    pub(crate) are_apart: bool,
    ghost apart: { IsTrue are_apart → AreApart gathered.parts.items },
}
