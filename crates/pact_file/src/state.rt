//! Provider states.

ghost use Rattle.std.specs.Prelude.{◌≡◌, option_map};
ghost use Rattle.serde_json.specs.View.{view};

use serde_json::Value;
use std::marker::Model;

/// A state that the provider is in.
#[derive(Drop)]
pub struct State {
    pub(crate) name: String,
    pub(crate) params: Option<Value>,
}

impl Model for State {
    ghost use Rattle.std.specs.Prelude.{string_bytes, option_map};
    ghost use Rattle.serde_json.specs.View.{view as seen};
    ghost use Rattle.pact_file.specs.Pact.{State as StateModel, state_code};

    ghost Value = { StateModel };

    ghost coded = { state_code };

    ghost view = { λ a. record { name = string_bytes a.name; params = option_map seen a.params } };
}

impl State {
    /// The name.
    pub fn name(&self) -> &str
        ensures { result.now ≡ self.now.name }
    {
        self.name.as_str()
    }

    /// The parameters, if they are given.
    pub fn params(&self) -> Option<&Value>
        ensures { option_map (λ v. view v.now) result ≡ self.now.params }
    {
        self.params.as_ref()
    }
}
