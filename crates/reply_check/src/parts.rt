//! The parts of a reply, in the order of their tests.

ghost use Rattle.std.specs.Prelude.{◌≡◌, Some, IfOk};
ghost use Rattle.std.specs.Option.{ok_or};
ghost use Rattle.serde_json.specs.View.{view};
ghost use Rattle.pact_file.specs.Headers.{HasHeaders};
ghost use Rattle.pact_rules.specs.Outcome.{Gives, GivesAlways};
ghost use Rattle.pact_file.specs.Parts.{text_at, object_at, states_in as states_at};
ghost use Rattle.pact_file.specs.Pact.{states_data};
ghost use Rattle.pact_file.specs.Sound.{IsSound};
ghost use Rattle.reply_check.specs.declared.fault.RepliesFault.TheVariants.{Memory, Shape};
ghost use Rattle.pact_rules.specs.Reading.{GivesOne};
ghost use Rattle.reply_check.specs.Recorded.{status_sent};
ghost use Rattle.reply_check.specs.Replies.{ReplyRead};
ghost use Rattle.reply_check.specs.ReplyParts.{parts_at};
ghost use Rattle.reply_check.specs.PartsView.{parts_view};

use crate::fault::{Place, RepliesFault};
use crate::reply::Reply;
use pact_file::{
    Header, Part, State, read_headers, read_states, read_status, states_text, take_object,
    text_member,
};
use serde_json::Value;
use std::alloc::{AllocError, Global};

/// What is read of a reply before its headers.
#[derive(Drop)]
struct Parts {
    description: String,
    states: Vec<State>,
    response: Value,
    status: u16,
}

fn text_in<'a>(value: &'a Value, key: &str, place: Place) -> Result<&'a str, RepliesFault>
    ensures { GivesAlways (λ s. s.now) result
        (ok_or (text_at key.now (view value.now)) (Shape place)) }
{
    text_member(value, key).ok_or(RepliesFault::Shape(place))
}

/// A member that is an object, moved out of the value.
fn object_in(value: Value, key: &str, place: Place) -> Result<Value, RepliesFault>
    ensures { GivesAlways view result
        (ok_or (object_at key.now (view value)) (Shape place)) }
{
    take_object(value, key).ok_or(RepliesFault::Shape(place))
}

fn states_in(alloc: Global, value: &Value, place: Place) -> Result<Vec<State>, RepliesFault>
    ensures { Gives Memory (λ v. v.items) result
        (ok_or (states_at (view value.now)) (Shape place)) }
{
    read_states(alloc, value)?.ok_or(RepliesFault::Shape(place))
}

#[tactic(auto, unfolding(crate::specs::Recorded::status_sent))]
fn status_of(response: &Value) -> Option<u16>
    ensures { result ≡ status_sent (view response.now) }
{
    read_status(response.get("status")?)
}

fn status_in(response: &Value, place: Place) -> Result<u16, RepliesFault>
    ensures { GivesAlways (λ n. n) result
        (ok_or (status_sent (view response.now)) (Shape place)) }
{
    status_of(response).ok_or(RepliesFault::Shape(place))
}

#[tactic(auto, unfolding(crate::specs::ReplyParts::parts_at))]
fn read_parts(alloc: Global, index: usize, value: Value) -> Result<Parts, RepliesFault>
    ensures parts { Gives Memory parts_view result (parts_at index (view value)) }
    ensures status { IfOk result (λ p. status_sent (view p.response) ≡ Some p.status) }
{
    if !value.is_object() {
        return Err(RepliesFault::Shape(Place::Reply(index, Part::Whole)));
    }
    let description = text_in(
        &value,
        "description",
        Place::Reply(index, Part::Description),
    )?;
    let states = states_in(alloc, &value, Place::Reply(index, Part::States))?;
    let description = String::from_str(alloc, description)?;
    let response = object_in(value, "response", Place::Reply(index, Part::Response))?;
    let status = status_in(&response, Place::Reply(index, Part::Status))?;
    Ok(Parts {
        description,
        states,
        response,
        status,
    })
}

fn reply_of(alloc: Global, parts: Parts, headers: Vec<Header>) -> Result<Reply, AllocError>
    requires states { IsSound 97 (states_data parts.states.items) }
    requires status { status_sent (view parts.response) ≡ Some parts.status }
    requires headers { HasHeaders (view parts.response) headers.items }
    ensures { IfOk result (λ r. r ≡ parts_view parts) }
{
    let states_text = states_text(alloc, parts.states.as_slice())?;
    Ok(Reply {
        description: parts.description,
        states: parts.states,
        response: parts.response,
        status: parts.status,
        headers,
        states_text,
    })
}

/// The reply at this index, or its first fault.
pub(crate) fn read_reply(alloc: Global, index: usize, value: Value) -> Result<Reply, RepliesFault>
    requires { IsSound 98 (view value) }
    ensures { GivesOne Memory (λ r. r) result (ReplyRead index (view value)) }
{
    let parts = read_parts(alloc, index, value)?;
    match read_headers(alloc, &parts.response)? {
        None => Err(RepliesFault::Shape(Place::Reply(index, Part::Headers))),
        Some(headers) => Ok(reply_of(alloc, parts, headers)?),
    }
}
