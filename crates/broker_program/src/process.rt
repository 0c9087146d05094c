//! The program over the words of its process, and any streams.
ghost use Rattle.std.specs.Prelude.{◌≡◌, IfErr, IfOk, map, string_bytes};
ghost use Rattle.std.specs.IoError.{error_kind};
ghost use Rattle.sqlite.specs.WalFiles.{image_at};
ghost use Rattle.command_line.specs.Lines.{texts_of};
ghost use Rattle.program_io.specs.Written.{IsLineOut};
ghost use Rattle.broker_program.specs.Running.{IsUnread, Ran, ReportsUnread, unread_text};

use crate::commands::run_from;
use crate::run_end::{ProcessEnd, Unread};
use program_io::output::put_line;
use sqlite::{FileFrom, Start};
use std::alloc::{AllocError, Global};
use std::io::{ErrorKind, Read, Write};
use std::{env, io};

/// The words, borrowed from their texts.
fn words_of(alloc: Global, texts: &[String]) -> Result<Vec<&str>, AllocError>
    ensures { IfOk result (λ words. texts_of words.items ≡ map string_bytes texts.now) }
{
    let mut words = Vec::new(alloc);
    for text in texts {
        words.push(text.as_str())?;
    }
    Ok(words)
}

/// What a process ends with whose words can't be read, and what standard error says: 2 if a word isn't UTF-8, and else
/// 3, since there is no memory for them.
fn unread(error: &io::Error) -> (u8, &'static str)
    ensures status { IsUnread (error_kind error.now) result.0 }
    ensures text { result.1.now ≡ unread_text (error_kind error.now) }
{
    if error.kind() == ErrorKind::InvalidData {
        (2, "error: a word of the command line isn't UTF-8")
    } else {
        (3, "memory")
    }
}

/// Says on `errors` why the words can't be read, and answers the status to end with.
fn report_unread<E: Write>(error: io::Error, errors: &mut E) -> (u8, Unread)
    ensures status { IsUnread (error_kind error) result.0 }
    ensures same { result.1.error ≡ error }
    ensures returned { IsLineOut (unread_text (error_kind error)) result.1.line (E.contents errors.old) (E.contents errors.new) }
{
    let (status, text) = unread(&error);
    let line = put_line(errors, text);
    (status, Unread { error, line })
}

/// Runs the words of a process over these streams as `run_from` does, and answers the status to end with. The words come
/// with it, with how their run ended: the status is that of these words. If they can't be read, or there is no memory
/// for them, nothing is run, one line on `errors` says why, and their error comes: the status is 2 if a word isn't
/// UTF-8, and 3, with `memory` on `errors`, if there is no memory for them. Nothing is kept back, so that there is
/// nothing to flush.
pub fn run_over<S: Start, R: Read, W: Write, E: Write>(
    rt: &HostRuntime,
    words: io::Result<Vec<String>>,
    start: S,
    input: &mut R,
    output: &mut W,
    errors: &mut E,
) -> (u8, Result<ProcessEnd<FileFrom<S>>, Unread>)
    ensures status { IfOk result.1 (λ run. result.0 ≡ run.ended.status) }
    ensures ran { IfOk result.1 (λ run. Ran (image_at S.Start) R.remaining W.contents E.contents
        (map string_bytes run.words.items) input.old input.new output.old output.new errors.old errors.new run.ended) }
    ensures unread { IfErr result.1 (λ unread. ReportsUnread E.contents input.old input.new output.old output.new
        errors.old errors.new (error_kind unread.error) unread.line result.0) }
{
    let words = match words {
        Ok(words) => words,
        Err(error) => {
            let (status, unread) = report_unread(error, errors);
            return (status, Err(unread));
        }
    };
    let ended = match words_of(rt.alloc(), words.as_slice()) {
        Ok(borrowed) => run_from(rt, borrowed.as_slice(), start, input, output, errors),
        Err(error) => {
            let (status, unread) = report_unread(io::Error::from(error), errors);
            return (status, Err(unread));
        }
    };
    (ended.status, Ok(ProcessEnd { words, ended }))
}

/// The process's words. The error says that one isn't UTF-8, or that there is no memory for them.
pub fn process_words(rt: &HostRuntime) -> io::Result<Vec<String>> {
    let mut words = Vec::new(rt.alloc());
    for text in env::args(rt)? {
        words.push(text)?;
    }
    Ok(words)
}
