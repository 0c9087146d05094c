//! Laws of the definitions, as they are of this broker. The program calls them only for a proof.
ghost use Rattle.broker_core.specs.Contents.{ReadsAgain};
ghost use Rattle.broker_core.specs.SoundNames.{GivesDigests, NamesStay, NamesStayInRuns};
ghost use Rattle.broker_tables.specs.Laws.{KeepsUtf8, ReadableStays, ReadableStaysInRuns};
ghost use Rattle.command_facts.specs.Laws.{AreReadOnce, ReachedIsReadable};
ghost use Rattle.command_facts.specs.Primitives.{broker_primitives};

/// What is read of a stored text and of a command: the normal text of a pact reads as that pact, and the file of a
/// command is read in one way, unless a pattern is refused, as its replies are.
pub fn reading_again()
    ensures again { ReadsAgain broker_primitives }
    ensures once { AreReadOnce }
{}

/// What is kept of a token is 64 hexadecimal digits. So each name and each digest that a state of this
/// broker has keeps its form, for all requests: see `names_stay` of `broker_core::laws`.
pub fn names_stay()
    ensures digests { GivesDigests broker_primitives }
    ensures steps { NamesStay broker_primitives }
    ensures runs { NamesStayInRuns broker_primitives }
{}

/// Each state that this broker reaches can be read back from the tables (see `readable_stays` of
/// `broker_tables::laws`): what it keeps of a token is hexadecimal digits, and the normal text of a pact reads as that
/// pact, and so is in UTF-8 (`texts`). So each step by a command whose names are names in UTF-8 leads from such a
/// state to such a state (`steps`), as each run does (`runs`), also from the opening state, without a premise on the
/// token of its office (`reached`).
pub fn readable_stays()
    ensures texts { KeepsUtf8 broker_primitives }
    ensures steps { ReadableStays broker_primitives }
    ensures runs { ReadableStaysInRuns broker_primitives }
    ensures reached { ReachedIsReadable }
{
    names_stay();
    reading_again();
}
