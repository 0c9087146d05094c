//! The broker's language: commands, answers, the policy and the gate's judgement.
#![tactic(auto)]

pub mod answer;
pub mod command;
pub mod gate;
pub mod laws;
pub mod limit;
pub mod need;
pub mod policy;

pub use crate::answer::Answer;
pub use crate::command::{Command, FormFault};
pub use crate::gate::decide;
pub use crate::limit::room;
pub use crate::need::{Kind, Latest, Need, PairFault};
pub use crate::policy::{Ask, Caller, Rule, allowed};
pub use broker_names::name::{Name, NameFault, Token, TokenFault};
