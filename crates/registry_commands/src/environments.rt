//! PUT of an environment.
ghost use Rattle.std.specs.Prelude.{◌≡◌, None, IfOk, IfErr, IfSome, IfNone};
ghost use Rattle.broker_core.specs.Machine.{fault_of_marks};
ghost use Rattle.broker_core.specs.declared.command.Command.TheVariants.{PutEnvironment};
ghost use Rattle.command_facts.specs.Performs.{Carries};
ghost use Rattle.registry_commands.specs.Facts.{RefusesMarks, AnswersPutEnvironment, AddsNewEnvironment};

use broker_core::answer::{Answer, Clash, Detail};
use broker_core::command::{FormFault, Marks};
use broker_core::policy::{Caller, Rule};
use broker_names::name::{Name, Text};
use command_facts::change::returned;
use registry_tables::{add_environment, marks_of};
use sqlite::{Alter, Connection};
use std::alloc::Global;
use table_access::StoreFault;

/// The answer to marks that no environment may have.
fn form_of_marks(alloc: Global, marks: Marks) -> Result<Option<Answer>, StoreFault>
    ensures ok { IfOk result (λ o. IfSome o (RefusesMarks marks) × IfNone o (fault_of_marks marks ≡ None)) }
    ensures cause { IfErr result (λ fault. fault ≡ StoreFault.Memory) }
{
    if marks.strict && !marks.gated {
        match String::from_str(alloc, "strict") {
            Ok(field) => Ok(Some(Answer::BadForm(FormFault::Field(Text::new(field))))),
            Err(_) => Err(StoreFault::Memory),
        }
    } else {
        Ok(None)
    }
}

/// The answer if nothing changes; none if the environment is added.
fn decide_put_environment(caller: &Caller, old: Option<Marks>, marks: Marks) -> Option<Answer>
    ensures unchanged { IfSome result (AnswersPutEnvironment caller.now old marks) }
    ensures changes { IfNone result (AddsNewEnvironment caller.now old marks) }
{
    if !caller.is_office() {
        return Some(Answer::Denied(Rule::OfficeOnly));
    }
    match old {
        Some(old) => if old.gated == marks.gated && old.strict == marks.strict {
            Some(Answer::Already(Detail::Plain))
        } else {
            Some(Answer::Taken(Clash::Name))
        },
        None => None,
    }
}

/// Adds an environment with well-formed marks, or reports why not.
fn put_marks<S: Alter>(
    conn: &mut Connection<S>,
    caller: &Caller,
    environment: &Name,
    marks: Marks,
) -> Result<Answer, StoreFault>
    requires { fault_of_marks marks ≡ None }
    ensures { Carries S.Store conn.old conn.new result caller.now (PutEnvironment environment.now marks) }
{
    let old = done!(marks_of(conn, environment.as_str()));
    match decide_put_environment(caller, old, marks) {
        Some(answer) => Ok(answer),
        None => returned(add_environment(conn, environment.as_str(), marks.gated, marks.strict)),
    }
}

/// Adds an environment with these marks, for the office; or answers why not, and nothing changes.
///
/// # Errors
/// `StoreFault::Memory` if an allocation failed or the database is out of memory; `StoreFault::Store` if the database
/// refused a statement, or a row breaks the rules of its table.
pub fn put_environment<S: Alter>(
    alloc: Global,
    conn: &mut Connection<S>,
    caller: &Caller,
    environment: &Name,
    marks: Marks,
) -> Result<Answer, StoreFault>
    ensures { Carries S.Store conn.old conn.new result caller.now (PutEnvironment environment.now marks) }
{
    match done!(form_of_marks(alloc, marks)) {
        Some(answer) => Ok(answer),
        None => put_marks(conn, caller, environment, marks),
    }
}
