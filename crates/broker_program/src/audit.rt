//! The audit of a broker's file.
ghost use Rattle.std.specs.Prelude.{◌≡◌, ◌++◌, ◌⊎◌, Ok, Some, IfErr, IfOk, OnErr, is_none};
ghost use Rattle.std.specs.Io.KnownBytes.{Appends};
ghost use Rattle.sqlite.specs.WalFiles.{image_at};
ghost use Rattle.table_audit.specs.Line.{line_of};
ghost use Rattle.table_audit.specs.declared.auditing.Finding.{Finding as FindingModel};
ghost use Rattle.program_io.specs.Reported.{IsFromOutside};
ghost use Rattle.program_io.specs.Written.{IsBegun, newline};
ghost use Rattle.broker_program.specs.Audits.{Audits, AuditsUntil, LeavesAudited, audit_fault, output_of};
ghost use Rattle.broker_program.specs.Reasons.{FailsToAudit, FailsToReadTables};

use crate::files::{connection_of, leave, open_broker};
use crate::run_end::FileAfter;
use broker_service::OpenFault;
use command_line::FilePath;
use program_io::fault::RunFault;
use program_io::output::write_line;
use sqlite::{FileFrom, Start};
use std::alloc::Global;
use std::io::Write;
use table_access::StoreFault;
use table_audit::Finding;

/// How a failure of the store is reported.
fn reported(fault: StoreFault) -> RunFault
    ensures { result ≡ audit_fault fault }
{
    match fault {
        StoreFault::Memory => RunFault::Memory,
        StoreFault::Store => RunFault::Open(OpenFault::Store),
    }
}

/// What the audit of a file found, and what it left of the file.
type Found<S> = (Result<Option<Finding>, RunFault>, FileAfter<FileFrom<S>>);

/// Audits the tables of the broker in the file, which is given up as it is.
fn findings_in<S: Start>(rt: &HostRuntime, file: FilePath<'_>, start: S) -> Found<S>
    ensures ok { IfOk result.0 (λ found. LeavesAudited (image_at S.Start) result.1 (Ok found)) }
    ensures cause { IfErr result.0 (λ fault. FailsToReadTables (image_at S.Start) fault result.1) }
{
    let broker = match open_broker(rt, file, start) {
        Ok(broker) => broker,
        Err((fault, left)) => return (Err(fault), left),
    };
    let mut connection = connection_of(broker);
    let found = table_audit::audit(rt.alloc(), &mut connection);
    let left = FileAfter::GivenUp(leave(connection));
    match found {
        Ok(found) => (Ok(found), left),
        Err(fault) => (Err(reported(fault)), left),
    }
}

/// Writes the line of what was found, if something was, and says whether nothing was.
fn print_finding<W: Write>(
    alloc: Global,
    found: Option<Finding>,
    output: &mut W,
) -> Result<bool, RunFault>
    ensures ok { IfOk result (λ passes. (passes ≡ is_none found)
        × Appends (W.contents output.old) (W.contents output.new) (output_of found)) }
    ensures err { OnErr result ((output.new ≡ output.old) ⊎ ((finding : FindingModel) × (found ≡ Some finding)
        × IsBegun (line_of finding ++ newline) (W.contents output.old) (W.contents output.new))) }
    ensures cause { IfErr result (λ fault. (finding : FindingModel) × (found ≡ Some finding) × IsFromOutside fault) }
{
    let Some(finding) = found else {
        return Ok(true);
    };
    match finding.line(alloc) {
        Ok(line) => {
            write_line(output, line.as_str())?;
            Ok(false)
        }
        Err(_) => Err(RunFault::Memory),
    }
}

/// Audits the tables of the broker in the file, writes which row breaks which rule, if one does, and says whether none
/// does. What is left of the file comes with it, if it was opened.
pub(crate) fn audit<S: Start, W: Write>(
    rt: &HostRuntime,
    file: FilePath<'_>,
    start: S,
    output: &mut W,
) -> (Result<bool, RunFault>, FileAfter<FileFrom<S>>)
    ensures ok { IfOk result.0 (Audits (image_at S.Start) result.1 (W.contents output.old) (W.contents output.new)) }
    // Nothing was written, or a beginning of the line.
    ensures err { OnErr result.0 ((output.new ≡ output.old)
        ⊎ AuditsUntil (image_at S.Start) result.1 (W.contents output.old) (W.contents output.new)) }
    ensures cause { IfErr result.0 (λ fault. FailsToAudit (image_at S.Start) fault result.1) }
{
    let (found, left) = findings_in(rt, file, start);
    match found {
        Ok(found) => (print_finding(rt.alloc(), found, output), left),
        Err(fault) => (Err(fault), left),
    }
}
