//! Reading a file of recorded replies.

ghost use Rattle.std.specs.Prelude.{◌≡◌, ◌↔◌, map, Err, IfOk, IsTrue};
ghost use Rattle.serde_json.specs.View.{view, items_view};
ghost use Rattle.pact_rules.specs.Outcome.{Gives, GivesAlways};
ghost use Rattle.pact_file.specs.Objects.{IsSomeText};
ghost use Rattle.pact_file.specs.Sound.{IsSound, AreSound};
ghost use Rattle.reply_check.specs.declared.fault.RepliesFault.{RepliesFault as RepliesFaultModel};
ghost use Rattle.reply_check.specs.declared.fault.RepliesFault.TheVariants.{Memory};
ghost use Rattle.pact_rules.specs.Reading.{EachRead, GivesOne};
ghost use Rattle.reply_check.specs.ReplyParts.{as_file_fault, file_of, items_of};
ghost use Rattle.reply_check.specs.Replies.{ReplyRead, HasRivals, FileRead, RepliesRead};

use crate::fault::{Place, RepliesFault};
use crate::parts::read_reply;
use crate::reply::{Replies, Reply};
use pact_file::{FileFault, read_object, take_list};
use serde_json::Value;
use std::alloc::{AllocError, Global};
use std::collections::BTreeSet;

/// A fault of a file as that of a file of replies.
fn file_fault(fault: FileFault) -> RepliesFault
    ensures { result ≡ as_file_fault fault }
{
    match fault {
        FileFault::NotJson => RepliesFault::NotJson,
        FileFault::Tree(fault) => RepliesFault::Tree(fault),
        FileFault::NotObject => RepliesFault::Shape(Place::File),
        FileFault::Memory => RepliesFault::Memory,
    }
}

#[tactic(auto, using(pact_file::proofs::Objects::fault_as, crate::proofs::ReadLemmas::memory_as))]
fn read_file(alloc: Global, bytes: &[u8]) -> Result<Value, RepliesFault>
    ensures value { Gives Memory view result (file_of bytes.now) }
    ensures memory { result ≡ Err Memory → IsSomeText bytes.now }
{
    match read_object(alloc, bytes) {
        Ok(file) => Ok(file),
        Err(fault) => Err(file_fault(fault)),
    }
}

/// The values that are written as replies, moved out of the file.
#[tactic(auto, using(pact_file::proofs::Lists::listed_view), unfolding(crate::specs::ReplyParts::items_of))]
fn items_in(file: Value) -> Result<Vec<Value>, RepliesFault>
    ensures { GivesAlways (λ v. map view v.items) result (items_of (view file)) }
{
    take_list(file, "replies").ok_or(RepliesFault::Shape(Place::Replies))
}

fn read_list(alloc: Global, items: Vec<Value>) -> Result<Vec<Reply>, RepliesFault>
    requires { AreSound 98 (items_view items.items) }
    ensures { GivesOne Memory (λ v. v.items) result (EachRead ReplyRead 0 (map view items.items)) }
{
    let mut found = Vec::new(alloc);
    for item in items {
        let index = found.len();
        found.push(read_reply(alloc, index, item)?)?;
    }
    Ok(found)
}

/// Whether two replies are for one interaction. An error means out of memory.
#[tactic(auto, using(crate::proofs::RivalLemmas::none_seen))]
fn have_rivals(alloc: Global, replies: &[Reply]) -> Result<bool, AllocError>
    ensures { IfOk result (λ b. IsTrue b ↔ HasRivals replies.now) }
{
    let mut seen = BTreeSet::new(alloc);
    for reply in replies {
        if !seen.insert((reply.description(), reply.states_text()))? {
            return Ok(true);
        }
    }
    Ok(false)
}

/// Reads recorded replies: an object whose `replies` is a list, each with a text `description`, provider states as in
/// a pact file, and an object `response` with a `status` from 100 to 999, headers as in a pact file and an optional
/// `body`. No two have one description and one list of states. The bytes are any. Each fault is the first one in the
/// order of `RepliesFault`'s documentation. Memory may run out instead, but only if the bytes are UTF-8 and not empty.
/// (This project's own choice.)
pub fn read_replies(alloc: Global, bytes: &[u8]) -> Result<Replies, RepliesFault>
    ensures reading { GivesOne Memory (λ r. r) result (RepliesRead bytes.now) }
    ensures memory { result ≡ Err Memory → IsSomeText bytes.now }
{
    let file = read_file(alloc, bytes)?;
    replies_of(alloc, file)
}

/// The replies of a file that was read as JSON. That it has no list of them is found before memory is taken.
fn replies_of(alloc: Global, file: Value) -> Result<Replies, RepliesFault>
    requires { IsSound 100 (view file) }
    ensures reading { GivesOne Memory (λ r. r) result (FileRead (view file)) }
    ensures items { (e : RepliesFaultModel) → items_of (view file) ≡ Err e → result ≡ Err e }
{
    let items = items_in(file)?;
    let found = read_list(alloc, items)?;
    if have_rivals(alloc, found.as_slice())? {
        return Err(RepliesFault::SameReplyTwice);
    }
    Ok(Replies { replies: found })
}
