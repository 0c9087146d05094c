//! The broker as what runs the commands of a stream.
use crate::broker::Broker;
use answer_texts::RenderedAnswer;
use broker_core::command::Command;
use broker_database::Service;
use sqlite::Alter;
use std::alloc::Global;

impl<S: Alter> Service for Broker<S> {
    ghost use Rattle.sqlite.specs.Held.{state};

    ghost Store = { S };

    ghost shown = { state S.Store };

    ghost seen = { λ broker. broker };

    fn apply(&mut self, alloc: Global, token: Option<&str>, command: &Command) -> RenderedAnswer {
        Broker::apply(self, alloc, token, command)
    }
}
