//! What is read of a pact file.

ghost use Rattle.std.specs.Prelude.{◌≡◌, Some, None, map, IfOk, string_bytes, option_map};
ghost use Rattle.serde_json.specs.View.{view};
ghost use Rattle.pact_file.specs.Headers.{HasHeaders};
ghost use Rattle.pact_file.specs.Pact.{normal_text, states_data, interaction_data};
ghost use Rattle.pact_file.specs.Parts.{status_in, body_in};
ghost use Rattle.pact_file.specs.Rules.{IsRulesOf};
ghost use Rattle.pact_file.specs.Sound.{IsSound};
ghost use Rattle.serde_json.specs.Written.{compact_text};

use crate::state::State;
use crate::texts::text_of_pact;
use pact_rules::RuleTable;
use serde_json::Value;
use std::alloc::AllocError;
use std::marker::Model;

/// A header that a response must have.
#[derive(Drop)]
pub struct Header {
    pub(crate) name: String,
    pub(crate) value: String,
}

impl Model for Header {
    ghost use Rattle.std.specs.Prelude.{string_bytes};
    ghost use Rattle.pact_file.specs.Pact.{Header as HeaderModel, header_code};

    ghost Value = { HeaderModel };

    ghost coded = { header_code };

    ghost view = { λ a. record { name = string_bytes a.name; value = string_bytes a.value } };
}

impl Header {
    /// The name in lower case.
    pub fn name(&self) -> &str
        ensures { result.now ≡ self.now.name }
    {
        self.name.as_str()
    }

    /// The value; of a list of texts, these joined by `, `.
    pub fn value(&self) -> &str
        ensures { result.now ≡ self.now.value }
    {
        self.value.as_str()
    }
}

/// An interaction: a request and the response that it must get. Both are only in its text.
#[derive(Drop)]
pub struct Interaction {
    pub(crate) description: String,
    pub(crate) states: Vec<State>,
    pub(crate) status: u16,
    pub(crate) headers: Vec<Header>,
    pub(crate) body: Option<Value>,
    pub(crate) rules: RuleTable,
    pub(crate) states_text: String,
    pub(crate) text: String,
}

impl Model for Interaction {
    ghost use Rattle.std.specs.Prelude.{string_bytes, option_map};
    ghost use Rattle.serde_json.specs.View.{view as seen};
    ghost use Rattle.pact_file.specs.Pact.{Interaction as InteractionModel, interaction_code};
    ghost use Rattle.pact_file.specs.Texts.{interaction_of_text};
    ghost use Rattle.pact_file.specs.Filled.{IsFilled};

    ghost Value = { InteractionModel };

    ghost coded = { interaction_code };

    ghost view = { λ a. interaction_of_text
        (string_bytes a.description) a.states.items (string_bytes a.text) };

    ghost invariant = { λ a. IsFilled (interaction_of_text
        (string_bytes a.description) a.states.items (string_bytes a.text))
        a.status a.headers.items (option_map seen a.body) a.rules
        (string_bytes a.states_text) (string_bytes a.text) };
}

impl Interaction {
    /// The description.
    pub fn description(&self) -> &str
        ensures { result.now ≡ self.now.description }
    {
        self.description.as_str()
    }

    /// The provider states.
    pub fn states(&self) -> &[State]
        ensures { result.now ≡ self.now.states }
    {
        self.states.as_slice()
    }

    /// The compact JSON text of the provider states. Those of two interactions are equal if their texts are.
    pub fn states_text(&self) -> &str
        ensures text { result.now ≡ compact_text (states_data self.now.states) }
        ensures sound { IsSound 97 (states_data self.now.states) }
    {
        self.states_text.as_str()
    }

    /// The status, from 100 to 999.
    pub fn status(&self) -> u16
        ensures { status_in self.now.response ≡ Some result }
    {
        self.status
    }

    /// The headers in the order of their names in lower case.
    pub fn headers(&self) -> &[Header]
        ensures { HasHeaders self.now.response result.now }
    {
        self.headers.as_slice()
    }

    /// The body, if there is one.
    pub fn body(&self) -> Option<&Value>
        ensures { option_map (λ v. view v.now) result ≡ body_in self.now.response }
    {
        self.body.as_ref()
    }

    /// The compact text of its normal form.
    pub(crate) fn text(&self) -> &str
        ensures { result.now ≡ compact_text (interaction_data self.now) }
    {
        self.text.as_str()
    }

    /// The matching rules.
    pub fn rules(&self) -> &RuleTable
        ensures { IsRulesOf self.now.response result.now }
    {
        &self.rules
    }
}

/// The contract of a consumer with a provider, in its normal form.
#[derive(Drop)]
pub struct Pact {
    pub(crate) consumer: String,
    pub(crate) provider: String,
    pub(crate) interactions: Vec<Interaction>,
}

impl Model for Pact {
    ghost use Rattle.std.specs.Prelude.{string_bytes};
    ghost use Rattle.pact_file.specs.Pact.{Pact as PactModel, pact_code, pact_with};

    ghost Value = { PactModel };

    ghost coded = { pact_code };

    ghost view = { λ a. pact_with
        (string_bytes a.consumer) (string_bytes a.provider) a.interactions.items };
}

impl Pact {
    /// The consumer's name.
    pub fn consumer(&self) -> &str
        ensures { result.now ≡ self.now.consumer }
    {
        self.consumer.as_str()
    }

    /// The provider's name.
    pub fn provider(&self) -> &str
        ensures { result.now ≡ self.now.provider }
    {
        self.provider.as_str()
    }

    /// The interactions, in the order of their descriptions, then of the compact texts of their states.
    pub fn interactions(&self) -> &[Interaction]
        ensures { result.now ≡ self.now.interactions }
    {
        self.interactions.as_slice()
    }

    /// The normal text, made of the texts of the interactions at each call.
    pub fn normal_text(&self) -> Result<String, AllocError>
        ensures { IfOk result (λ s. string_bytes s ≡ normal_text self.now) }
    {
        text_of_pact(self)
    }
}
