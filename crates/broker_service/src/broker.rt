//! The broker.
ghost use Rattle.std.specs.Prelude.{◌≡◌, false};
ghost use Rattle.sqlite.specs.Held.{state};
ghost use Rattle.caller_facts.specs.Callers.{token_of};
ghost use Rattle.command_facts.specs.Primitives.{broker_primitives};
ghost use Rattle.broker_database.specs.Calls.{Applied, Created, Opened};
ghost use Rattle.broker_database.specs.Transaction.{fault_of};
ghost use Rattle.broker_service.specs.Transacted.{failed_as};

use crate::work::transact;
use answer_texts::RenderedAnswer;
use broker_core::answer::Answer;
use broker_core::command::Command;
use broker_database::{Failure, Refused};
use broker_names::name::Token;
use broker_tables::has_readable_names;
use command_facts::laws::readable_stays;
use sqlite::{Alter, Connection};
use std::alloc::Global;
use std::marker::Model;
use table_access::StoreFault;

/// The answer to a command whose transaction isn't done.
fn failed(failure: &Failure) -> RenderedAnswer
    ensures { result ≡ failed_as (fault_of failure.now) }
{
    match failure.fault() {
        StoreFault::Memory => RenderedAnswer::failed(Answer::Memory),
        StoreFault::Store => RenderedAnswer::failed(Answer::Store),
    }
}

/// A broker over its database. A contract sees its connection, and whether it is stopped.
#[derive(Drop)]
pub struct Broker<S: Alter> {
    conn: Connection<S>,
    stopped: bool,
}

impl<S: Alter> Model for Broker<S> {
    ghost use Rattle.broker_database.specs.BrokerView.{BrokerView, broker_view_code};

    ghost Value = { BrokerView S };

    ghost coded = { broker_view_code S.code };

    ghost view = { λ b. record { connection = b.conn; is_stopped = b.stopped } };
}

impl<S: Alter> Broker<S> {
    /// Makes the tables of a new broker, whose office has this token, on a database without tables.
    ///
    /// `NotEmpty`: there is a table, an index or a view; nothing is read or changed. `Memory`: the database is as it
    /// was. `Store`: the database refused the commit, or another call for another cause than memory; the last commit is
    /// the old one, and after a refused commit a crash may leave the new broker's tables. On a connection as it is
    /// opened, that is only if the store failed, or if memory ran out for the commit: no table and no index is refused.
    pub fn create(
        alloc: Global,
        conn: Connection<S>,
        office: &Token,
    ) -> Result<Broker<S>, Refused<S>>
        ensures { Created (state S.Store) conn (broker_primitives.digest_of office.now) result }
    {
        let mut conn = conn;
        match broker_database::create(alloc, &mut conn, office) {
            Ok(()) => Ok(Broker {
                conn,
                stopped: false,
            }),
            Err(fault) => Err(Refused {
                fault,
                connection: conn,
            }),
        }
    }

    /// Opens the database that a broker left. Nothing is changed.
    ///
    /// `NotABroker`: there is no table `meta` with its columns, its key and exactly one row; or what is declared isn't
    /// exactly what a broker declares. `Format`: the format in that row is this other one. `Memory` and `Store` as of
    /// `create`; `Store` also if the format isn't a number from 0 to 2^32 - 1.
    pub fn open(conn: Connection<S>) -> Result<Broker<S>, Refused<S>>
        ensures { Opened (state S.Store) conn result }
    {
        let mut conn = conn;
        match broker_database::open(&mut conn) {
            Ok(()) => Ok(Broker {
                conn,
                stopped: false,
            }),
            Err(fault) => Err(Refused {
                fault,
                connection: conn,
            }),
        }
    }

    /// Gives the connection back, as it is. Takes no memory.
    pub fn close(self) -> Connection<S>
        ensures { result ≡ self.connection }
    {
        let Broker { conn, stopped: _ } = self;
        conn
    }

    /// Whether the broker is stopped: a command was answered `Store`, and each one since is answered `Stopped`.
    pub fn is_stopped(&self) -> bool
        ensures { result ≡ self.now.is_stopped }
    {
        self.stopped
    }

    /// Runs one command of the caller with this token, in one transaction.
    ///
    /// The answer is the machine's, and the database then holds the machine's next state; or it is `Pattern`, `Memory`,
    /// `Store` or `Stopped`, and there was no step. A deployment and a release are recorded if and only if every
    /// contract with the partners that are there has a successful latest verification, no required provider is absent,
    /// and the caller's team is granted; otherwise the answer names every pair at fault, or what else refuses, and
    /// nothing changes. `Pattern`: replies were to be compared with a stored pact whose pattern was refused; nothing
    /// has changed. `Memory`: an allocation failed, or the database has no memory, be it for a rollback; nothing has
    /// changed. `Store`: the database refused the commit, or another call for another cause than memory, or a row broke
    /// the rules of the tables: from a state that can be read back, and on a disk that works, this comes only of a
    /// command that is to change something, and only if its commit was refused for lack of memory, or a table has no
    /// numbers left for its rows. From then on each answer is `Stopped`, and nothing changes. After a refused commit a
    /// crash may leave the next state.
    pub fn apply(&mut self, alloc: Global, token: Option<&str>, command: &Command) -> RenderedAnswer
        ensures { Applied (state S.Store) self.old (token_of token.entry) command.now result self.new }
    {
        // For the proof: the names are in UTF-8, so that a step keeps what can be read back such (the clause `readable`).
        has_readable_names(command);
        readable_stays();
        if self.stopped {
            return RenderedAnswer::failed(Answer::Stopped);
        }
        let answer = match transact(alloc, &mut self.conn, token, command) {
            Ok(answer) => answer,
            Err(failure) => failed(&failure),
        };
        self.stopped = matches!(answer.answer(), Answer::Store);
        answer
    }
}
