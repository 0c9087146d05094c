//! The forms of tokens and names among the options.
ghost use Rattle.std.specs.Prelude.{◌≡◌, ◌↔◌, IfErr, IfOk, IsErrOf};
ghost use Rattle.broker_names.specs.Name.{IsName, IsToken};
ghost use Rattle.program_io.specs.Reported.{IsNoName, IsTokenFault};

use crate::fault::RunFault;
use broker_names::name::{Name, NameFault, Token, TokenFault};
use std::alloc::Global;

/// A token, by its text.
pub fn token_of(alloc: Global, text: &str) -> Result<Token, RunFault>
    ensures ok { IfOk result (λ token. (token ≡ text.now) × IsToken text.now) }
    ensures bad { IsErrOf result RunFault.Token ↔ (¬ (IsToken text.now)) }
    ensures err { IfErr result (IsTokenFault text.now) }
{
    match Token::new(alloc, text) {
        Ok(token) => Ok(token),
        Err(TokenFault::BadToken) => Err(RunFault::Token),
        Err(TokenFault::Memory) => Err(RunFault::Memory),
    }
}

/// A name, by its text.
pub fn name_of(alloc: Global, text: &str) -> Result<Name, RunFault>
    ensures ok { IfOk result (λ name. (name ≡ text.now) × IsName text.now) }
    ensures bad { IsErrOf result RunFault.Name ↔ (¬ (IsName text.now)) }
    ensures err { IfErr result (IsNoName text.now) }
{
    match Name::new(alloc, text) {
        Ok(name) => Ok(name),
        Err(NameFault::BadName) => Err(RunFault::Name),
        Err(NameFault::Memory) => Err(RunFault::Memory),
    }
}
