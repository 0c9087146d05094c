//! The matrix of a version.
ghost use Rattle.std.specs.Prelude.{◌≡◌, Some, None, IfOk, IfErr};
ghost use Rattle.broker_core.specs.declared.command.Command.TheVariants.{GetMatrix};
ghost use Rattle.broker_tables.specs.Failures.{LooksUp};
ghost use Rattle.command_facts.specs.Performs.{CarriesUnrefused};
ghost use Rattle.environment_commands.specs.Effects.{IsMatrixShown};
ghost use Rattle.environment_commands.specs.Places.{MatrixHasRefusal};

use crate::places::{VersionFacts, number_among, read_version};
use broker_core::answer::{Answer, MatrixRows, Shown};
use broker_core::command::Version;
use broker_core::policy::{Caller, Rule};
use deploy_tables::matrix;
use sqlite::{Alter, Connection};
use std::alloc::Global;
use table_access::StoreFault;

/// The number of the version, or the answer that refuses to show its matrix.
fn admitted_to_matrix(version: VersionFacts) -> Result<u32, Answer>
    ensures refused { IfErr result (λ answer. MatrixHasRefusal version (Some answer)) }
    ensures let_through { IfOk result (λ _. MatrixHasRefusal version None) }
    ensures numbered { IfOk result (λ number. version.number ≡ Some number) }
{
    match number_among(version) {
        Ok(number) => if version.owner.is_allowed {
            Ok(number)
        } else {
            Err(Answer::Denied(Rule::OwnerOrOfficeToAsk))
        },
        Err(missing) => Err(Answer::Unknown(missing)),
    }
}

/// Shows the matrix of the version of this number.
fn show_matrix<S: Alter>(
    alloc: Global,
    conn: &mut Connection<S>,
    number: u32,
) -> Result<Answer, StoreFault>
    ensures { LooksUp S.Store conn.old conn.new result (IsMatrixShown number) }
{
    let rows = done!(matrix(alloc, conn, number));
    Ok(Answer::Shown(Shown::Matrix(MatrixRows::new(rows))))
}

/// Shows the matrix of a version, or says why not.
pub fn get_matrix<S: Alter>(
    alloc: Global,
    conn: &mut Connection<S>,
    caller: &Caller,
    version: &Version,
) -> Result<Answer, StoreFault>
    ensures { CarriesUnrefused S.Store conn.old conn.new result caller.now (GetMatrix version.now) }
{
    let facts = done!(read_version(conn, caller, Rule::OwnerOrOfficeToAsk, version, false));
    match admitted_to_matrix(facts) {
        Ok(number) => show_matrix(alloc, conn, number),
        Err(answer) => Ok(answer),
    }
}
