//! Laws of what can be read back. The program calls none of these.
ghost use Rattle.broker_tables.specs.Laws.{KeepsUtf8, ReadableBegins, ReadableStays, ReadableStaysInRuns};

use broker_core::laws::Machine;

/// Each state that a broker reaches can be read back from the tables: the opening state can, if the
/// digest of the office's token is in UTF-8, and each step from such a state leads to such a state, if the names of the
/// command are names in UTF-8, and so does each run.
pub fn readable_stays<M: Machine>()
    ensures begins { ReadableBegins }
    ensures steps { KeepsUtf8 M.primitives → ReadableStays M.primitives }
    ensures runs { KeepsUtf8 M.primitives → ReadableStaysInRuns M.primitives }
{}
