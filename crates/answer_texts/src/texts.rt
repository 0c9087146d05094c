//! The bodies of answers as texts.
ghost use Rattle.std.specs.Prelude.{◌≡◌, IfErr, IfOk, [], ◌∷◌, false, codes, is_none, string_bytes};
ghost use Rattle.serde_json.specs.Data.{string};
ghost use Rattle.serde_json.specs.Written.{compact_text};
ghost use Rattle.broker_core.specs.Words.{fault_text, named_in};
ghost use Rattle.answer_texts.specs.Data as spec;
ghost use Rattle.answer_texts.specs.AnswerText as bodies;
ghost use Rattle.answer_texts.specs.AnswerText.{body_bytes};
ghost use Rattle.answer_texts.specs.Data.{IsJsonText};

use crate::constants::BodyText;
use crate::parts::Part;
use crate::writing::object_text;
use broker_core::answer::{DeployedItem, Detail, MatrixRow, Shown};
use broker_core::command::{FormFault, Marks, Version};
use broker_core::need::PairFault;
use std::alloc::{AllocError, Global};

fn content_text(alloc: Global, word: &str, content: u64) -> Result<String, AllocError>
    ensures { IfOk result (IsJsonText (spec.detail_data word.now (Detail.Content content))) }
{
    let members = [
        ("answer", Part::Text(word)),
        ("content", Part::Number(content)),
    ];
    object_text(alloc, &members)
}

fn result_text(alloc: Global, word: &str, number: u64) -> Result<String, AllocError>
    ensures { IfOk result (IsJsonText (spec.detail_data word.now (Detail.Result number))) }
{
    let members = [
        ("answer", Part::Text(word)),
        ("result", Part::Number(number)),
    ];
    object_text(alloc, &members)
}

fn replies_text<'a>(
    alloc: Global,
    word: &'a str,
    failing: &'a [u64],
    number: u64,
    success: bool,
) -> Result<String, AllocError>
    ensures { IfOk result (IsJsonText
        (spec.detail_data word.now (Detail.Replies failing.now number success))) }
{
    let members = [
        ("answer", Part::Text(word)),
        ("failing", Part::Places(failing)),
        ("result", Part::Number(number)),
        ("success", Part::Truth(success)),
    ];
    object_text(alloc, &members)
}

/// The text of `Done` or `Already`: the constant `alone` if the answer has nothing but its word.
pub(crate) fn detail_text(
    alloc: Global,
    word: &str,
    alone: &'static str,
    detail: &Detail,
) -> Result<BodyText, AllocError>
    requires { alone.now ≡ compact_text (spec.says word.now []) }
    ensures text { IfOk result (λ body. body_bytes body ≡ compact_text (spec.detail_data word.now detail.now)) }
    ensures memory { IfErr result (λ _. bodies.is_plain detail.now ≡ false) }
{
    match detail {
        Detail::Plain => Ok(BodyText::Constant(alone)),
        Detail::Content(content) => Ok(BodyText::Made(content_text(alloc, word, *content)?)),
        Detail::Result(number) => Ok(BodyText::Made(result_text(alloc, word, *number)?)),
        Detail::Replies {
            failing,
            result,
            success,
        } => {
            let text = replies_text(alloc, word, failing.as_slice(), *result, *success)?;
            Ok(BodyText::Made(text))
        }
    }
}

fn named_fault_text(alloc: Global, fault: &FormFault) -> Result<String, AllocError>
    ensures { IfOk result (λ text. string_bytes text ≡ compact_text
        (spec.says (codes "bad form") ((codes "fault", string (fault_text fault.now)) ∷ []))) }
{
    let fault = fault.to_string(alloc)?;
    let members = [
        ("answer", Part::Text("bad form")),
        ("fault", Part::Text(fault.as_str())),
    ];
    object_text(alloc, &members)
}

/// A fault of form: a constant text if it names nothing.
#[tactic(auto, unfolding(json::specs::Print::escape_byte))]
pub(crate) fn form_text(alloc: Global, fault: &FormFault) -> Result<BodyText, AllocError>
    ensures text { IfOk result (λ body. body_bytes body ≡ compact_text (spec.form_data (fault_text fault.now))) }
    ensures memory { IfErr result (λ _. is_none (named_in fault.now) ≡ false) }
{
    match fault {
        FormFault::Name => Ok(BodyText::Constant("{\"answer\":\"bad form\",\"fault\":\"name\"}")),
        FormFault::Json => Ok(BodyText::Constant("{\"answer\":\"bad form\",\"fault\":\"json\"}")),
        FormFault::Token => Ok(BodyText::Constant("{\"answer\":\"bad form\",\"fault\":\"token\"}")),
        FormFault::Names => Ok(BodyText::Constant("{\"answer\":\"bad form\",\"fault\":\"names\"}")),
        FormFault::UnknownReply => {
            Ok(BodyText::Constant("{\"answer\":\"bad form\",\"fault\":\"check 1\"}"))
        }
        FormFault::Field(_) | FormFault::Query(_) | FormFault::Pact(_) | FormFault::Replies(_) =>
            Ok(BodyText::Made(named_fault_text(alloc, fault)?)),
    }
}

pub(crate) fn faults_text(alloc: Global, faults: &[PairFault]) -> Result<String, AllocError>
    ensures { IfOk result (IsJsonText (spec.faults_data faults.now)) }
{
    let members = [
        ("answer", Part::Text("not permitted")),
        ("faults", Part::Faults(faults)),
    ];
    object_text(alloc, &members)
}

fn matrix_text(alloc: Global, rows: &[MatrixRow]) -> Result<String, AllocError>
    ensures { IfOk result (IsJsonText (spec.matrix_data rows.now)) }
{
    let members = [("answer", Part::Text("shown")), ("rows", Part::Rows(rows))];
    object_text(alloc, &members)
}

/// The text of an environment; `strict` is in it if the environment is strict.
fn environment_text<'a>(
    alloc: Global,
    environment: &'a str,
    marks: Marks,
    deployed: &'a [DeployedItem],
    released: &'a [Version],
) -> Result<String, AllocError>
    ensures { IfOk result (IsJsonText
        (spec.environment_data environment.now marks deployed.now released.now)) }
{
    let listing = [
        ("answer", Part::Text("shown")),
        ("deployed", Part::Deployed(deployed)),
        ("environment", Part::Text(environment)),
        ("gated", Part::Truth(marks.gated)),
        ("released", Part::Released(released)),
        ("strict", Part::Truth(true)),
    ];
    if marks.strict {
        object_text(alloc, &listing)
    } else {
        object_text(alloc, &listing[..5])
    }
}

/// The text of a judgement; `strict` is in it if the environment is strict.
fn gate_text<'a>(
    alloc: Global,
    environment: &'a str,
    marks: Marks,
    permitted: bool,
    faults: &'a [PairFault],
) -> Result<String, AllocError>
    ensures { IfOk result (IsJsonText (spec.gate_data environment.now marks permitted faults.now)) }
{
    let judgement = [
        ("answer", Part::Text("shown")),
        ("environment", Part::Text(environment)),
        ("faults", Part::Faults(faults)),
        ("gated", Part::Truth(marks.gated)),
        ("permitted", Part::Truth(permitted)),
        ("strict", Part::Truth(true)),
    ];
    if marks.strict {
        object_text(alloc, &judgement)
    } else {
        object_text(alloc, &judgement[..5])
    }
}

pub(crate) fn shown_text(alloc: Global, shown: &Shown) -> Result<String, AllocError>
    ensures { IfOk result (λ text. string_bytes text ≡ bodies.shown_text shown.now) }
{
    match shown {
        Shown::Pact(text) => String::from_str(alloc, text.as_str()),
        Shown::Environment {
            environment,
            marks,
            deployed,
            released,
        } => environment_text(
            alloc,
            environment.as_str(),
            *marks,
            deployed.as_slice(),
            released.as_slice(),
        ),
        Shown::Gate {
            environment,
            marks,
            permitted,
            faults,
        } => gate_text(
            alloc,
            environment.as_str(),
            *marks,
            *permitted,
            faults.as_slice(),
        ),
        Shown::Matrix(rows) => matrix_text(alloc, rows.as_slice()),
    }
}
