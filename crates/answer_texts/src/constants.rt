//! The bodies that are constant, so that they take no memory.
ghost use Rattle.std.specs.Prelude.{◌≡◌, false};
ghost use Rattle.broker_core.specs.Machine.{is_step};
ghost use Rattle.broker_core.specs.declared.answer.Answer.TheVariants as answers;
ghost use Rattle.answer_texts.specs.AnswerText.{answer_text, body_bytes};

use broker_core::answer::{Answer, Clash, Missing};
use broker_core::policy::Rule;

/// The text of a body: a constant, or one that was made.
#[derive(Drop)]
pub(crate) enum BodyText {
    Constant(&'static str),
    Made(String),
}

impl BodyText {
    /// The text.
    pub(crate) fn as_str(&self) -> &str
        ensures { result.now ≡ body_bytes self.now }
    {
        match self {
            BodyText::Constant(text) => text,
            BodyText::Made(text) => text.as_str(),
        }
    }
}

/// The body that says by which rule a caller may not.
#[tactic(auto, unfolding(json::specs::Print::escape_byte))]
pub(crate) fn denied_text(rule: Rule) -> &'static str
    ensures { result.now ≡ answer_text (answers.Denied rule) }
{
    match rule {
        Rule::KnownCaller => "{\"answer\":\"denied\",\"rule\":\"A1\"}",
        Rule::OfficeOnly => "{\"answer\":\"denied\",\"rule\":\"A2\"}",
        Rule::OwnerToPublish => "{\"answer\":\"denied\",\"rule\":\"A3\"}",
        Rule::OwnerToVerify => "{\"answer\":\"denied\",\"rule\":\"A4\"}",
        Rule::OwnerOrOfficeToRead => "{\"answer\":\"denied\",\"rule\":\"A5\"}",
        Rule::OwnerOrOfficeToAsk => "{\"answer\":\"denied\",\"rule\":\"A6\"}",
        Rule::OwnerWithGrant => "{\"answer\":\"denied\",\"rule\":\"A7\"}",
        Rule::KnownCallerToList => "{\"answer\":\"denied\",\"rule\":\"A8\"}",
    }
}

/// The body that says what is unknown.
#[tactic(auto, unfolding(json::specs::Print::escape_byte))]
pub(crate) fn unknown_text(what: Missing) -> &'static str
    ensures { result.now ≡ answer_text (answers.Unknown what) }
{
    match what {
        Missing::Team => "{\"answer\":\"unknown\",\"what\":\"team\"}",
        Missing::Pacticipant => "{\"answer\":\"unknown\",\"what\":\"pacticipant\"}",
        Missing::Environment => "{\"answer\":\"unknown\",\"what\":\"environment\"}",
        Missing::Version => "{\"answer\":\"unknown\",\"what\":\"version\"}",
        Missing::Contract => "{\"answer\":\"unknown\",\"what\":\"contract\"}",
        Missing::Grant => "{\"answer\":\"unknown\",\"what\":\"grant\"}",
        Missing::Deployed => "{\"answer\":\"unknown\",\"what\":\"deployed\"}",
        Missing::Released => "{\"answer\":\"unknown\",\"what\":\"released\"}",
    }
}

/// The body that says what is taken.
#[tactic(auto, unfolding(json::specs::Print::escape_byte))]
pub(crate) fn taken_text(what: Clash) -> &'static str
    ensures { result.now ≡ answer_text (answers.Taken what) }
{
    match what {
        Clash::Name => "{\"answer\":\"taken\",\"what\":\"name\"}",
        Clash::Token => "{\"answer\":\"taken\",\"what\":\"token\"}",
        Clash::OtherContent => "{\"answer\":\"taken\",\"what\":\"other content\"}",
        Clash::Run => "{\"answer\":\"taken\",\"what\":\"run\"}",
    }
}

/// The body of an answer that is no step.
pub(crate) fn fixed_text(answer: &Answer) -> &'static str
    requires { is_step answer.now ≡ false }
    ensures { result.now ≡ answer_text answer.now }
{
    match answer {
        Answer::Pattern => "{\"answer\":\"pattern\"}",
        Answer::Memory => "{\"answer\":\"memory\"}",
        Answer::Store => "{\"answer\":\"store\"}",
        _ => "{\"answer\":\"stopped\"}",
    }
}
