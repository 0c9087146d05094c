//! Recorded replies of a provider against a pact file.
ghost use Rattle.std.specs.Prelude.{◌≡◌, ◌⊎◌, ◌<◌, ◌≤◌, ◌++◌, Ok, length, IfErr, IfOk, IsErrAnd, MatchResult, OnErr, OnOk, string_bytes, codes};
ghost use Rattle.std.specs.IoError.{error_kind};
ghost use Rattle.std.specs.Io.KnownBytes.{Appends};
ghost use Rattle.std.specs.List.{flat_map};
ghost use Rattle.program_io.specs.Reported.{FailsToCheck, IsFromOutside, IsReadFault, IsRepliesFault};
ghost use Rattle.program_io.specs.Written.{AreBounded, AreFailingBy, BeginsVerdict, Checks, ChecksUntil, IsBegun, IsFrontOf};
ghost use Rattle.program_io.specs.Written.{ReportsVerdict, newline, place_text, verdict_text};

use crate::bounded::{MOST_READ, fault_of_read, read_most};
use crate::fault::RunFault;
use crate::normalise::pact_of;
use crate::output::write_line;
use pact_file::Pact;
use reply_check::{Verdict, read_replies};
use std::alloc::{AllocError, Global};
use std::fs::File;
use std::io::{self, Read, Write};

/// What was read of the two files that are compared.
#[derive(Drop)]
pub enum FilesRead {
    /// The pact file couldn't be read.
    Neither,
    /// Only the pact file: it has a fault, or the file of replies couldn't be read.
    Pact(Vec<u8>),
    /// The pact file and the file of replies.
    Both(Vec<u8>, Vec<u8>),
}

/// What a file has, by what opening it gave, but no more than `MOST_READ` bytes. `File`: it couldn't be opened or read.
fn read_opened<R: Read + Drop>(alloc: Global, opened: io::Result<R>) -> Result<Vec<u8>, RunFault>
    ensures read { MatchResult opened (λ file. IfOk result (λ bytes. IsFrontOf (R.remaining file) bytes.items))
        (λ error. IsErrAnd result (IsReadFault (error_kind error))) }
    ensures most { IfOk result (λ bytes. length bytes.items ≤ MOST_READ) }
    ensures cause { IfErr result IsFromOutside }
{
    match opened {
        Ok(file) => {
            let mut file = file;
            read_most(alloc, &mut file)
        }
        Err(error) => Err(fault_of_read(error.kind())),
    }
}

/// What is in the file of this path.
fn read_file(rt: &HostRuntime, path: &str) -> Result<Vec<u8>, RunFault>
    ensures most { IfOk result (λ bytes. length bytes.items ≤ MOST_READ) }
    ensures cause { IfErr result IsFromOutside }
{
    read_opened(rt.alloc(), File::open(rt, path))
}

/// The recorded replies in the file of this path. `File`: they are longer than a pact file may be, too.
fn read_recorded(rt: &HostRuntime, path: &str) -> Result<Vec<u8>, RunFault>
    ensures most { IfOk result (λ bytes. length bytes.items < MOST_READ) }
    ensures cause { IfErr result IsFromOutside }
{
    let bytes = read_file(rt, path)?;
    if bytes.len() < MOST_READ {
        Ok(bytes)
    } else {
        Err(RunFault::File)
    }
}

/// The verdict of the pact on the replies that a file has.
fn verdict_of(alloc: Global, pact: &Pact, file: &[u8]) -> Result<Verdict, RunFault>
    ensures ok { IfOk result (AreFailingBy pact.now file.now) }
    ensures err { IfErr result (IsRepliesFault pact.now file.now) }
{
    match read_replies(alloc, file) {
        Ok(replies) => match reply_check::check(alloc, pact, &replies) {
            Ok(verdict) => Ok(verdict),
            Err(fault) => Err(RunFault::Check(fault)),
        },
        Err(fault) => Err(RunFault::Replies(fault)),
    }
}

/// Writes the place after a space.
fn push_place(text: &mut String, place: usize) -> Result<(), AllocError>
    ensures { OnOk result (string_bytes text.new ≡ string_bytes text.old ++ place_text place) }
{
    write!(text, " {place}")
}

/// `fail` and the places.
fn failing_text(alloc: Global, places: &[usize]) -> Result<String, AllocError>
    ensures { IfOk result (λ text. string_bytes text ≡ codes "fail" ++ flat_map place_text places.now) }
{
    let mut text = String::from_str(alloc, "fail")?;
    for place in places {
        push_place(&mut text, *place)?;
    }
    Ok(text)
}

/// `pass`, or `fail` and the places.
#[tactic(auto, using(crate::proofs::VerdictLemmas::pass_text, crate::proofs::VerdictLemmas::fail_text))]
fn verdict_text(alloc: Global, verdict: &Verdict) -> Result<String, AllocError>
    ensures { IfOk result (λ text. string_bytes text ≡ verdict_text verdict.now) }
{
    if verdict.passes() {
        String::from_str(alloc, "pass")
    } else {
        failing_text(alloc, verdict.failing())
    }
}

/// Writes the verdict and a newline.
fn write_verdict<W: Write>(alloc: Global, verdict: &Verdict, output: &mut W) -> Result<(), RunFault>
    ensures ok { OnOk result (Appends (W.contents output.old) (W.contents output.new)
        (verdict_text verdict.now ++ newline)) }
    ensures err { OnErr result ((output.new ≡ output.old)
        ⊎ IsBegun (verdict_text verdict.now ++ newline) (W.contents output.old) (W.contents output.new)) }
    ensures cause { IfErr result IsFromOutside }
{
    match verdict_text(alloc, verdict) {
        Ok(text) => write_line(output, text.as_str()),
        Err(_) => Err(RunFault::Memory),
    }
}

/// Writes the verdict of the pact on the replies that a file has, and a newline, and says whether it is a pass.
#[tactic(auto, using(crate::proofs::VerdictLemmas::passes_is))]
fn print_verdict<W: Write>(
    alloc: Global,
    pact: &Pact,
    file: &[u8],
    output: &mut W,
) -> Result<bool, RunFault>
    ensures ok { IfOk result (ReportsVerdict pact.now file.now (W.contents output.old) (W.contents output.new)) }
    // Nothing was written, or a beginning of the verdict.
    ensures err { OnErr result ((output.new ≡ output.old)
        ⊎ BeginsVerdict pact.now file.now (W.contents output.old) (W.contents output.new)) }
    ensures cause { IfErr result (λ f. IsFromOutside f ⊎ IsRepliesFault pact.now file.now f) }
{
    let verdict = verdict_of(alloc, pact, file)?;
    write_verdict(alloc, &verdict, output)?;
    Ok(verdict.passes())
}

/// Compares the pact in the bytes of a file with the replies in a file of this path, and writes the verdict.
fn check_read<W: Write>(
    rt: &HostRuntime,
    file: Vec<u8>,
    replies: &str,
    output: &mut W,
) -> (Result<bool, RunFault>, FilesRead)
    requires { length file.items ≤ MOST_READ }
    ensures ok { IfOk result.0 (Checks (W.contents output.old) (W.contents output.new) result.1) }
    ensures err { OnErr result.0 ((output.new ≡ output.old)
        ⊎ ChecksUntil (W.contents output.old) (W.contents output.new) result.1) }
    ensures cause { IfErr result.0 (FailsToCheck result.1) }
    ensures bound { AreBounded result.1 }
{
    match pact_of(rt.alloc(), file.as_slice()) {
        Ok(pact) => match read_recorded(rt, replies) {
            Ok(recorded) => {
                let returned = print_verdict(rt.alloc(), &pact, recorded.as_slice(), output);
                drop(pact);
                (returned, FilesRead::Both(file, recorded))
            }
            Err(fault) => (Err(fault), FilesRead::Pact(file)),
        },
        Err(fault) => (Err(fault), FilesRead::Pact(file)),
    }
}

/// Compares the replies in a file with the pact in another, writes the verdict and a newline, and says whether it is a
/// pass. What was read of the files comes with it: the file of replies is read once the pact is found to be one. Of a file
/// that is too long no more is read than shows it.
pub fn check<W: Write>(
    rt: &HostRuntime,
    pact: &str,
    replies: &str,
    output: &mut W,
) -> (Result<bool, RunFault>, FilesRead)
    ensures ok { IfOk result.0 (Checks (W.contents output.old) (W.contents output.new) result.1) }
    // Nothing was written, or a beginning of the verdict.
    ensures err { OnErr result.0 ((output.new ≡ output.old)
        ⊎ ChecksUntil (W.contents output.old) (W.contents output.new) result.1) }
    ensures cause { IfErr result.0 (FailsToCheck result.1) }
    ensures bound { AreBounded result.1 }
{
    match read_file(rt, pact) {
        Ok(file) => check_read(rt, file, replies, output),
        Err(fault) => (Err(fault), FilesRead::Neither),
    }
}
