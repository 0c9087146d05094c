//! An answer with its body and its status.
ghost use Rattle.std.specs.Prelude.{◌≡◌, IfErr, IfOk, false};
ghost use Rattle.broker_core.specs.Machine.{is_step};
ghost use Rattle.answer_texts.specs.AnswerText as spec;
ghost use Rattle.answer_texts.specs.AnswerText.{body_bytes};

use crate::constants::{BodyText, denied_text, fixed_text, taken_text, unknown_text};
use crate::texts::{detail_text, faults_text, form_text, shown_text};
use broker_core::answer::Answer;
use broker_core::policy::Rule;
use http::StatusCode;
use std::alloc::{AllocError, Global};
use std::marker::Model;

/// An answer with its body. A contract sees the answer.
#[derive(Drop)]
pub struct RenderedAnswer {
    answer: Answer,
    body: BodyText,
}

impl Model for RenderedAnswer {
    ghost use Rattle.broker_core.specs.declared.answer.Answer.{Answer};
    ghost use Rattle.answer_texts.specs.AnswerText.{IsMade};

    ghost Value = { Answer };

    ghost view = { λ a. a.answer };

    ghost invariant = { λ a. IsMade a.body a.answer };
}

/// The body of an answer. Only one that isn't constant takes memory.
#[tactic(auto, unfolding(json::specs::Print::escape_byte))]
fn body_of(alloc: Global, answer: &Answer) -> Result<BodyText, AllocError>
    ensures text { IfOk result (λ body. body_bytes body ≡ spec.answer_text answer.now) }
    ensures memory { IfErr result (λ _. spec.is_constant answer.now ≡ false) }
{
    match answer {
        Answer::Done(detail) => detail_text(alloc, "done", "{\"answer\":\"done\"}", detail),
        Answer::Already(detail) => {
            detail_text(alloc, "already", "{\"answer\":\"already\"}", detail)
        }
        Answer::Shown(shown) => Ok(BodyText::Made(shown_text(alloc, shown)?)),
        Answer::Denied(rule) => Ok(BodyText::Constant(denied_text(*rule))),
        Answer::Unknown(what) => Ok(BodyText::Constant(unknown_text(*what))),
        Answer::BadForm(fault) => form_text(alloc, fault),
        Answer::Taken(what) => Ok(BodyText::Constant(taken_text(*what))),
        Answer::Full => Ok(BodyText::Constant("{\"answer\":\"full\"}")),
        Answer::NotPermitted(faults) => {
            Ok(BodyText::Made(faults_text(alloc, faults.as_slice())?))
        }
        Answer::Pattern | Answer::Memory | Answer::Store | Answer::Stopped => {
            Ok(BodyText::Constant(fixed_text(answer)))
        }
    }
}

impl RenderedAnswer {
    /// This answer with its body. Without memory for a body that isn't constant there is none.
    pub fn new(alloc: Global, answer: Answer) -> Result<RenderedAnswer, AllocError>
        ensures answer { IfOk result (λ made. made ≡ answer) }
        ensures memory { IfErr result (λ _. spec.is_constant answer ≡ false) }
    {
        let body = body_of(alloc, &answer)?;
        Ok(RenderedAnswer { answer, body })
    }

    /// The answer that says why there was no step, with its body, which is constant and takes no memory.
    pub fn failed(answer: Answer) -> RenderedAnswer
        requires { is_step answer ≡ false }
        ensures { result ≡ answer }
    {
        let body = BodyText::Constant(fixed_text(&answer));
        RenderedAnswer { answer, body }
    }

    /// The answer.
    pub fn answer(&self) -> &Answer
        ensures { result.now ≡ self.now }
    {
        &self.answer
    }

    /// The body: compact JSON without a newline, with the keys of objects in byte order.
    pub fn body(&self) -> &str
        ensures { result.now ≡ spec.answer_text self.now }
    {
        self.body.as_str()
    }

    /// The status of HTTP.
    pub fn status(&self) -> StatusCode
        ensures { result ≡ spec.status_of self.now }
    {
        match &self.answer {
            Answer::Done(_) | Answer::Already(_) | Answer::Shown(_) => StatusCode::OK,
            Answer::Denied(Rule::KnownCaller) => StatusCode::UNAUTHORIZED,
            Answer::Denied(_) => StatusCode::FORBIDDEN,
            Answer::Unknown(_) => StatusCode::NOT_FOUND,
            Answer::BadForm(_) => StatusCode::UNPROCESSABLE_ENTITY,
            Answer::Taken(_) | Answer::Full | Answer::NotPermitted(_) => StatusCode::CONFLICT,
            Answer::Pattern | Answer::Store => StatusCode::INTERNAL_SERVER_ERROR,
            Answer::Memory | Answer::Stopped => StatusCode::SERVICE_UNAVAILABLE,
        }
    }
}
