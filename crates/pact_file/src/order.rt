//! Interactions in order, each once.

ghost use Rattle.std.specs.Prelude.{◌≡◌, [], IfOk, IfErr, MatchOption, Some, None};
ghost use Rattle.std.specs.Option.{ok_or};
ghost use Rattle.pact_file.specs.declared.fault.PactFault.TheVariants.{Memory, SameInteraction};
ghost use Rattle.pact_rules.specs.Outcome.{Gives};
ghost use Rattle.pact_file.specs.Pact.{key_cmp};
ghost use Rattle.pact_file.specs.Sets.{IsRising};
ghost use Rattle.pact_file.specs.Sorting.{insert_all_sorted, same_text, with_interaction, IsInsertedAt};

use crate::fault::PactFault;
use crate::pact::Interaction;
use std::alloc::Global;
use std::cmp::Ordering;

fn key_order(left: &Interaction, right: &Interaction) -> Ordering
    ensures { result ≡ key_cmp left.now right.now }
{
    left.description
        .cmp(&right.description)
        .then(left.states_text.cmp(&right.states_text))
}

fn is_same(left: &Interaction, right: &Interaction) -> bool
    ensures { result ≡ same_text left.now right.now }
{
    left.text.as_str() == right.text.as_str()
}

/// Where the interaction goes, or None if it is there.
fn index_of(list: &[Interaction], new: &Interaction) -> Result<Option<usize>, PactFault>
    requires { IsRising key_cmp list.now }
    ensures ok { IfOk result (λ o. MatchOption o
        (with_interaction new.now list.now ≡ Some list.now)
        (IsInsertedAt new.now list.now (with_interaction new.now list.now))) }
    ensures err { IfErr result (λ e.
        (e ≡ SameInteraction) × (with_interaction new.now list.now ≡ None)) }
{
    match list.binary_search_by(|other| key_order(other, new)) {
        Ok(place) => {
            if is_same(new, &list[place]) {
                return Ok(None);
            }
            Err(PactFault::SameInteraction)
        }
        Err(at) => Ok(Some(at)),
    }
}

/// Inserts the interaction, unless it is there.
fn insert_interaction(list: &mut Vec<Interaction>, new: Interaction) -> Result<(), PactFault>
    requires { IsRising key_cmp list.old.items }
    ensures { Gives Memory (λ _. list.new.items) result
        (ok_or (with_interaction new list.old.items) SameInteraction) }
{
    match index_of(list, &new) {
        Ok(Some(at)) => list.insert(at, new)?,
        Ok(None) => drop(new),
        Err(fault) => {
            drop(new);
            return Err(fault);
        }
    }
    Ok(())
}

/// Inserts them all, in the order of the file.
pub(crate) fn in_key_order(
    alloc: Global,
    found: Vec<Interaction>,
) -> Result<Vec<Interaction>, PactFault>
    ensures { Gives Memory (λ v. v.items) result
        (ok_or (insert_all_sorted key_cmp same_text [] found.items) SameInteraction) }
{
    let mut list = Vec::with_capacity(alloc, found.len())?;
    for new in found {
        insert_interaction(&mut list, new)?;
    }
    Ok(list)
}
