//! Names in a path.
ghost use Rattle.std.specs.Prelude.{◌≡◌, ◌<◌, ◌++◌, length, IfOk, IfErr, MatchOption};
ghost use Rattle.percent_encoding.specs.Percent.{percent_decode};
ghost use Rattle.broker_names.specs.Name.{IsName};
ghost use Rattle.broker_names.specs.declared.name.TheConstants.{LONGEST_NAME};
ghost use Rattle.http_requests.specs.Names.{IsNamed, IsPathName, HasPathName};

use arrayvec::ArrayVec;
use broker_core::command::FormFault;
use broker_names::name::{LONGEST_NAME, Name, NameFault};
use http_routes::segment;
use percent_encoding::percent_decode;
use std::alloc::{AllocError, Global};

/// A part of a command, or its fault. An `Err` means out of memory.
pub(crate) type Parsed<T> = Result<Result<T, FormFault>, AllocError>;

/// The name that a text is, if it is one. Memory is taken only for a name.
pub(crate) fn name_of(alloc: Global, text: &str) -> Result<Option<Name>, AllocError>
    ensures named { IfOk result (IsNamed text.now) }
    ensures memory { IfErr result (λ _. IsName text.now) }
{
    match Name::new(alloc, text) {
        Ok(name) => Ok(Some(name)),
        Err(NameFault::BadName) => Ok(None),
        Err(NameFault::Memory) => Err(AllocError),
    }
}

/// The bytes that a segment of a path means, if they are no more than the longest name has.
fn decoded(segment: &[u8]) -> Option<ArrayVec<u8, LONGEST_NAME>>
    ensures { MatchOption result (LONGEST_NAME < length (percent_decode segment.now))
        (λ bytes. bytes.items ≡ percent_decode segment.now) }
{
    let mut bytes = ArrayVec::new();
    for byte in percent_decode(segment) {
        if bytes.is_full() {
            return None;
        }
        bytes.push(byte);
    }
    Some(bytes)
}

/// The name that a segment of a path means, if it means one. Memory is taken only for a name.
#[tactic(auto, unfolding(broker_names::specs::Name::is_name))]
fn decode_name(alloc: Global, segment: &[u8]) -> Result<Option<Name>, AllocError>
    ensures named { IfOk result (IsNamed (percent_decode segment.now)) }
    ensures memory { IfErr result (λ _. IsName (percent_decode segment.now)) }
{
    let Some(bytes) = decoded(segment) else {
        return Ok(None);
    };
    match str::from_utf8(bytes.as_slice()) {
        Ok(text) => name_of(alloc, text),
        Err(_) => Ok(None),
    }
}

/// The name at an index of a path, counted from 0 by its slashes. Memory is taken only for a name.
pub(crate) fn path_name(alloc: Global, path: &[u8], index: usize) -> Parsed<Name>
    ensures named { IfOk result (IsPathName index path.now) }
    ensures memory { IfErr result (λ _. HasPathName index path.now) }
{
    match decode_name(alloc, segment(path, index))? {
        Some(name) => Ok(Ok(name)),
        None => Ok(Err(FormFault::Name)),
    }
}
