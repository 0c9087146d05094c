//! The program over readers and writers; and the laws.
use broker_program::run;
use sqlite::MemStore;
use std::test::Fail;

const NORMALISE: &[&str] = &["broker", "normalise"];

const REPLAY: &[&str] = &["broker", "replay", "--office-token", "office-token-0001"];

const SHORT: &[&str] = &["broker", "replay", "--office-token", "short"];

const PACT: &str =
    "{\"provider\":{\"name\":\"stock\"},\"consumer\":{\"name\":\"shop\"},\"interactions\":[]}";

const NORMAL: &str =
    "{\"consumer\":{\"name\":\"shop\"},\"interactions\":[],\"provider\":{\"name\":\"stock\"}}\n";

/// The words and what is read; the status, what is written and what is reported.
type Run = (
    &'static [&'static str],
    &'static str,
    u8,
    &'static str,
    &'static str,
);

const RUNS: [Run; 4] = [
    (NORMALISE, PACT, 0, NORMAL, ""),
    (NORMALISE, "[]", 3, "", "pact 3 file\n"),
    (REPLAY, "", 0, "", ""),
    (SHORT, "", 3, "", "token\n"),
];

/// The status of a run of these words over this input, what it wrote and what it reported.
fn ran(rt: &HostRuntime, words: &[&str], input: &str) -> (u8, Vec<u8>, Vec<u8>) {
    let mut reader = input.as_bytes();
    let mut output = Vec::new(rt.alloc());
    let mut errors = Vec::new(rt.alloc());
    let status = run(rt, words, &mut reader, &mut output, &mut errors);
    (status, output, errors)
}

#[test]
fn runs(rt: HostRuntime) -> Result<(), Fail> {
    for (words, input, wanted, returned, reported) in RUNS {
        let (status, output, errors) = ran(&rt, words, input);
        assert_eq!(rt; status, wanted);
        assert!(rt; output.as_slice() == returned.as_bytes());
        assert!(rt; errors.as_slice() == reported.as_bytes());
    }
    Ok(())
}

/// The laws are calls that do nothing.
#[test]
fn laws() {
    pact_file::laws::normal_again();
    broker_service::laws::gate_locality();
    broker_service::laws::retry();
    broker_service::laws::sessions::<MemStore>();
}
