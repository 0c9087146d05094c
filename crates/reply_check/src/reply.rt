//! A recorded reply.

ghost use Rattle.std.specs.Prelude.{◌≡◌, ◌&&◌, Some, bytes_eq, option_map};
ghost use Rattle.serde_json.specs.Written.{compact_text};
ghost use Rattle.serde_json.specs.View.{view};
ghost use Rattle.pact_file.specs.Headers.{HasHeaders};
ghost use Rattle.pact_file.specs.Pact.{states_data};
ghost use Rattle.pact_file.specs.Parts.{body_in};
ghost use Rattle.pact_file.specs.Sound.{IsSound};
ghost use Rattle.reply_check.specs.Recorded.{status_sent};

use pact_file::{Header, State};
use serde_json::Value;
use std::marker::Model;

/// What a provider answered for the interaction of a description and provider states.
#[derive(Drop)]
pub struct Reply {
    pub(crate) description: String,
    pub(crate) states: Vec<State>,
    pub(crate) response: Value,
    pub(crate) status: u16,
    pub(crate) headers: Vec<Header>,
    pub(crate) states_text: String,
}

impl Model for Reply {
    ghost use Rattle.std.specs.Prelude.{string_bytes};
    ghost use Rattle.serde_json.specs.View.{view as seen};
    ghost use Rattle.reply_check.specs.Recorded.{Reply as ReplyModel, reply_code, reply_with};
    ghost use Rattle.reply_check.specs.Filled.{IsFilled};

    ghost Value = { ReplyModel };

    ghost coded = { reply_code };

    ghost view = { λ a. reply_with
        (string_bytes a.description) a.states.items (seen a.response) };

    ghost invariant = { λ a. IsFilled
        (reply_with (string_bytes a.description) a.states.items (seen a.response))
        a.status a.headers.items (string_bytes a.states_text) };
}

impl Reply {
    /// The description of the interaction that the reply is for.
    pub fn description(&self) -> &str
        ensures { result.now ≡ self.now.description }
    {
        self.description.as_str()
    }

    /// The compact JSON text of the provider states.
    pub fn states_text(&self) -> &str
        ensures text { result.now ≡ compact_text (states_data self.now.states) }
        ensures sound { IsSound 97 (states_data self.now.states) }
    {
        self.states_text.as_str()
    }

    /// Whether the reply is for the interaction of this description and of provider states with this text.
    pub(crate) fn is_for(&self, description: &str, states_text: &str) -> bool
        ensures same { result ≡ (bytes_eq self.now.description description.now
            && bytes_eq (compact_text (states_data self.now.states)) states_text.now) }
        ensures sound { IsSound 97 (states_data self.now.states) }
    {
        self.description.as_str() == description && self.states_text.as_str() == states_text
    }

    /// The status, from 100 to 999.
    pub fn status(&self) -> u16
        ensures { status_sent self.now.response ≡ Some result }
    {
        self.status
    }

    /// The headers in the order of their names in lower case.
    pub fn headers(&self) -> &[Header]
        ensures { HasHeaders self.now.response result.now }
    {
        self.headers.as_slice()
    }

    /// The body, if there is one.
    pub fn body(&self) -> Option<&Value>
        ensures { option_map (λ v. view v.now) result ≡ body_in self.now.response }
    {
        self.response.get("body")
    }
}

/// The replies of a file, in its order, at most one for an interaction.
#[derive(Drop)]
pub struct Replies {
    pub(crate) replies: Vec<Reply>,
}

impl Model for Replies {
    ghost use Rattle.std.specs.Prelude.{List};
    ghost use Rattle.std.specs.Coded.{coded_list};
    ghost use Rattle.reply_check.specs.Recorded.{Reply as ReplyModel, reply_code};
    ghost use Rattle.reply_check.specs.Replies.{HasRivals};

    ghost Value = { List ReplyModel };

    ghost coded = { coded_list reply_code };

    ghost view = { λ a. a.replies.items };

    ghost invariant = { λ a. ¬ HasRivals a.replies.items };
}

impl Replies {
    /// The replies.
    pub fn as_slice(&self) -> &[Reply]
        ensures { result.now ≡ self.now }
    {
        self.replies.as_slice()
    }
}
