//! The program `broker`, over the words and the standard streams of its process.
#![tactic(auto)]

use broker_program::{process_words, run_over};
use sqlite::Unknown;
use std::process::ExitCode;

fn main(rt: HostRuntime) -> ExitCode {
    let words = process_words(&rt);
    let (mut input, mut output, mut errors) = (rt.stdin(), rt.stdout(), rt.stderr());
    let ended = run_over(&rt, words, Unknown, &mut input, &mut output, &mut errors);
    ExitCode::from(ended.0)
}
