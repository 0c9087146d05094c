//! Running a command over any reader and writers.
ghost use Rattle.std.specs.Prelude.{◌≡◌, ◌≢◌, false, IfErr, IfOk, IsTrue, OnErr};
ghost use Rattle.sqlite.specs.WalFiles.{image_at};
ghost use Rattle.clap.specs.Values.{kind_of};
ghost use Rattle.command_line.specs.Lines.{texts_of};
ghost use Rattle.program_io.specs.Reported.{IsReported};
ghost use Rattle.broker_program.specs.Running.{CommandEndsOn, CommandFailsOn, IsFaultOn, LineRan, Ran, RanTo};
ghost use Rattle.broker_program.specs.Words.{LacksMemory, ReportsMistake, ReportsOfWords, ReportsText};

use crate::audit::audit;
use crate::can_i_deploy::{Question, ask};
use crate::init::init;
use crate::migrate::migrate;
use crate::replay::replay;
use crate::run_end::{FileAfter, RunEnd};
use crate::serve::serve_file;
use clap::Error;
use clap::error::ErrorKind;
use command_line::{Line, read_line};
use http_responses::WriteFault;
use program_io::check::check;
use program_io::fault::RunFault;
use program_io::normalise::normalise;
use program_io::output::put_line;
use program_io::report::report;
use sqlite::{FileFrom, Start, Unknown};
use sqlite_disk::Disk;
use std::alloc::Global;
use std::io::{Read, Write};

/// A status, and whether standard error took all that it was to take.
type Returned = (u8, Result<(), WriteFault>);

/// The status of a command that failed, with the fault on standard error.
fn fail<E: Write>(fault: &RunFault, errors: &mut E) -> Returned
    ensures status { result.0 ≡ 3 }
    ensures reported { IsReported fault.now result.1 (E.contents errors.old) (E.contents errors.new) }
{
    (3, report(fault, errors))
}

/// Writes what `clap` says: a mistake on standard error, and else what was asked for on standard output.
fn print_text<W: Write, E: Write>(
    is_mistake: bool,
    text: &str,
    output: &mut W,
    errors: &mut E,
) -> Returned
    ensures mistake { IsTrue is_mistake → ReportsMistake W.contents E.contents output.old output.new
        errors.old errors.new result.1 result.0 }
    ensures shown { is_mistake ≡ false → ReportsText W.contents E.contents output.old output.new
        errors.old errors.new result.1 result.0 }
{
    if is_mistake {
        return (2, put_line(errors, text));
    }
    match put_line(output, text) {
        Ok(()) => (0, Ok(())),
        Err(_) => fail(&RunFault::File, errors),
    }
}

/// Reports what `clap` says of the words: help on standard output, a mistake on standard error. Its text ends with a
/// newline.
fn print_usage<W: Write, E: Write>(
    alloc: Global,
    error: &Error,
    output: &mut W,
    errors: &mut E,
) -> Returned
    ensures memory { kind_of error.now ≡ ErrorKind.OutOfMemory
        → LacksMemory W.contents E.contents output.old output.new errors.old errors.new result.1 result.0 }
    ensures returned { ReportsOfWords W.contents E.contents
        (λ kind. (kind_of error.now ≢ ErrorKind.OutOfMemory) × (kind_of error.now ≡ kind))
        output.old output.new errors.old errors.new result.1 result.0 }
{
    if error.kind() == ErrorKind::OutOfMemory {
        return fail(&RunFault::Memory, errors);
    }
    match format!(in alloc; "{error}") {
        Ok(text) => {
            let line = text.as_str().strip_suffix('\n').unwrap_or(text.as_str());
            print_text(error.use_stderr(), line, output, errors)
        }
        Err(_) => fail(&RunFault::Memory, errors),
    }
}

/// A command that ended or failed, and what it left of the file that it worked on.
type Carried<S> = (Result<bool, RunFault>, FileAfter<FileFrom<S>>);

/// Runs the command, and says whether it is done, its check or its audit passed or its version is permitted, and what it
/// left of the file that it worked on.
fn carry_out<S: Start, R: Read, W: Write>(
    rt: &HostRuntime,
    line: Line<'_>,
    start: S,
    input: &mut R,
    output: &mut W,
) -> Carried<S>
    ensures ends { IfOk result.0 (CommandEndsOn (image_at S.Start) R.remaining W.contents
        input.old input.new output.old output.new result.1 line.entry) }
    ensures fails { OnErr result.0 (CommandFailsOn (image_at S.Start) R.remaining W.contents
        input.old input.new output.old output.new result.1 line.entry) }
    ensures cause { IfErr result.0 (IsFaultOn (image_at S.Start) R.remaining W.contents
        input.old input.new output.old output.new result.1 line.entry) }
{
    match line {
        Line::Replay { office_token } => match replay(rt.alloc(), office_token, input, output) {
            Ok(()) => (Ok(true), FileAfter::Nothing),
            Err(fault) => (Err(fault), FileAfter::Nothing),
        },
        Line::Init { file, office_token } => match init(rt, file, office_token, start) {
            Ok(files) => (Ok(true), FileAfter::Closed(files)),
            Err((fault, left)) => (Err(fault), left),
        },
        Line::Migrate { file } => match migrate(rt, file, start) {
            Ok(files) => (Ok(true), FileAfter::Closed(files)),
            Err((fault, left)) => (Err(fault), left),
        },
        Line::Audit { file } => audit(rt, file, start, output),
        Line::Serve {
            file,
            listen,
            connections,
        } => match serve_file(rt, file, listen, connections, start) {
            Ok(service) => (Ok(true), FileAfter::Served(service)),
            Err((fault, left)) => (Err(fault), left),
        },
        Line::Normalise => match normalise(rt.alloc(), input, output) {
            Ok(()) => (Ok(true), FileAfter::Nothing),
            Err(fault) => (Err(fault), FileAfter::Nothing),
        },
        Line::Check { pact, replies } => {
            let (done, read) = check(rt, pact, replies, output);
            (done, FileAfter::Read(read))
        }
        Line::CanIDeploy {
            file,
            token,
            pacticipant,
            version,
            environment,
        } => {
            let question = Question {
                token,
                pacticipant,
                version,
                environment,
            };
            ask(rt, file, question, start, output)
        }
    }
}

/// Runs the command. The result is how that ended, with the fault on standard error.
fn run_line<S: Start, R: Read, W: Write, E: Write>(
    rt: &HostRuntime,
    line: Line<'_>,
    start: S,
    input: &mut R,
    output: &mut W,
    errors: &mut E,
) -> RunEnd<FileFrom<S>>
    ensures { LineRan (image_at S.Start) R.remaining W.contents E.contents line.entry input.old input.new
        output.old output.new errors.old errors.new result }
{
    let (done, left) = carry_out(rt, line, start, input, output);
    match done {
        Ok(true) => RunEnd {
            status: 0,
            line: Ok(()),
            left,
        },
        Ok(false) => RunEnd {
            status: 1,
            line: Ok(()),
            left,
        },
        Err(fault) => {
            let (status, line) = fail(&fault, errors);
            drop(fault);
            RunEnd { status, line, left }
        }
    }
}

/// Runs the command that the words name: the program's own name, a command and its options. The result
/// has the status that the program ends with.
///
/// 0: the command is done, its check or its audit passed or its version is permitted; or `clap`'s help or the version
/// was asked for, which is written to `output`.
/// 1: the check or the audit failed, or the version isn't permitted.
/// 2: the words are no command line, and `clap`'s text on them is written to `errors`.
/// 3: the command failed, and one line on `errors` says why.
/// `token`, `name`: the text of an option isn't a token or a name. `file`: a file, `input` or `output`
/// can't be read or written, or the file isn't there, is in use or is no database. `open n`: the broker
/// couldn't be made, opened or migrated, by the number of the fault of `Broker::create`, `Broker::open`
/// and `migrate`; `open 5` also if the database failed as it was audited.
/// `listen`: the address isn't one of loopback, or can't be listened on.
/// `serve 1`, `serve 2` and `serve 3`, only of `replay`: the input failed, the output failed, or there was no memory
/// for a message; the answers before are out.
/// `pact n`, `replies n`, `check n`: the fault of the pact file, of the replies, or of their comparison.
/// An answer's body: what the broker answered `can-i-deploy` otherwise. `memory`: there was no memory
/// for anything else.
/// If `errors` fails too, the rest of its text is lost, which the result says. Neither `output` nor `errors` is flushed.
///
/// `S` says what the file of the command held, if it has one. What is left of it comes with the status: it was
/// closed, or given up as it was, after a failure too; or it couldn't be opened. Of `check` the bytes come that it read.
pub fn run_from<S: Start, R: Read, W: Write, E: Write>(
    rt: &HostRuntime,
    words: &[&str],
    start: S,
    input: &mut R,
    output: &mut W,
    errors: &mut E,
) -> RunEnd<FileFrom<S>>
    ensures { Ran (image_at S.Start) R.remaining W.contents E.contents (texts_of words.now) input.old input.new
        output.old output.new errors.old errors.new result }
{
    match read_line(rt.alloc(), &*words) {
        Ok(line) => run_line(rt, line, start, input, output, errors),
        Err(error) => {
            let (status, line) = print_usage(rt.alloc(), &error, output, errors);
            RunEnd {
                status,
                line,
                left: FileAfter::Nothing,
            }
        }
    }
}

/// Runs the command that the words name as `run_from` does, over a file of which nothing is said, and answers the status
/// that the program ends with.
pub fn run<R: Read, W: Write, E: Write>(
    rt: &HostRuntime,
    words: &[&str],
    input: &mut R,
    output: &mut W,
    errors: &mut E,
) -> u8
    ensures { RanTo ⟦<FileFrom<Unknown> as Disk>⟧ (image_at ⟦<Unknown as Start>⟧) R.remaining W.contents E.contents
        (texts_of words.now) input.old input.new output.old output.new errors.old errors.new result }
{
    let ended = run_from(rt, words, Unknown, input, output, errors);
    let status = ended.status;
    drop(ended);
    status
}
