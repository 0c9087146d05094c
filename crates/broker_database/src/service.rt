//! What runs the commands of a stream.
ghost use Rattle.sqlite.specs.Held.{Held};
ghost use Rattle.sqlite.specs.State.{State};
ghost use Rattle.caller_facts.specs.Callers.{token_of};
ghost use Rattle.broker_database.specs.BrokerView.{BrokerView};
ghost use Rattle.broker_database.specs.Calls.{Applied};

use answer_texts::RenderedAnswer;
use broker_core::command::Command;
use std::alloc::Global;

/// What runs commands over a broker's database, one at a time, each in one transaction: the broker, to those that read
/// its commands from a stream.
pub trait Service {
    /// The values of the store below its connection.
    ghost Store: { Type 0 };

    /// What a connection shows of its store.
    ghost shown: { Held Store → State };

    /// What is seen of it: its connection, and whether it is stopped.
    ghost seen: { Self → BrokerView Store };

    /// Runs one command of the caller with this token, in one transaction.
    fn apply(&mut self, alloc: Global, token: Option<&str>, command: &Command) -> RenderedAnswer
        ensures { Applied shown (seen self.old) (token_of token.entry) command.now result (seen self.new) };
}
