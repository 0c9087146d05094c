//! The two sides of a contract, the contract itself, and its text, as the commands on contracts read them.
ghost use Rattle.std.specs.Prelude.{◌≡◌, ◌∷◌, [], Some, None};
ghost use Rattle.broker_core.specs.Text.{version as version_named};
ghost use Rattle.broker_core.specs.Change.{text_of};
ghost use Rattle.broker_core.specs.Request.{asks, refused};
ghost use Rattle.broker_core.specs.declared.policy.Rule.TheVariants.{OwnerToPublish, OwnerToVerify, OwnerOrOfficeToRead};
ghost use Rattle.broker_core.specs.declared.command.Command.{Command as CommandModel};
ghost use Rattle.broker_tables.specs.Holds.{Queries};
ghost use Rattle.broker_tables.specs.Failures.{LooksUp, LooksUpInPlace, FailsByStoreFrom};
ghost use Rattle.contract_commands.specs.Pacts.{AreSidesRead, HasContent, IsContractRead, missing_side, missing_part, Admits, Reaches};

use broker_core::answer::{Answer, Missing};
use broker_core::command::PactPath;
use broker_core::policy::{Caller, Rule};
use broker_names::name::{Name, Text};
use caller_facts::rules::{has_pacticipant, read_owner};
use content_store::get;
use contract_tables::contract_of;
use registry_tables::version_of;
use sqlite::{Alter, Connection};
use table_access::StoreFault;

/// What the tables say of the two sides of a contract, and what the rule of a command says of its caller.
#[derive(Clone, Copy)]
pub(crate) struct Sides {
    /// Whether the provider is there.
    pub(crate) has_provider: bool,
    /// Whether the consumer is there.
    pub(crate) has_consumer: bool,
    /// Whether the rule allows the caller, as the owner of a side that counts for it.
    pub(crate) is_allowed: bool,
}

/// The numbers by which the tables know a contract.
#[derive(Clone, Copy)]
pub(crate) struct ContractNumbers {
    /// The number of the consumer's version, if it is there.
    pub(crate) version: Option<u32>,
    /// The number of the content, if the version has a contract with the provider.
    pub(crate) content: Option<u32>,
}

/// What the tables say of a contract and of its two sides.
#[derive(Clone, Copy)]
pub(crate) struct ContractPlace {
    pub(crate) sides: Sides,
    pub(crate) contract: ContractNumbers,
}

/// Whether the two sides of a contract are there, and whether the caller may publish it: the consumer's owner may.
pub(crate) fn read_sides_to_publish<S: Alter>(
    conn: &mut Connection<S>,
    caller: &Caller,
    provider: &Name,
    consumer: &Name,
) -> Result<Sides, StoreFault>
    ensures { LooksUp S.Store conn.old conn.new result
        (λ sides s. AreSidesRead s caller.now OwnerToPublish (consumer.now ∷ []) provider.now consumer.now sides) }
{
    let has_provider = done!(has_pacticipant(conn, provider));
    let consumer = done!(read_owner(conn, caller, Rule::OwnerToPublish, consumer, false));
    Ok(Sides {
        has_provider,
        has_consumer: consumer.has_pacticipant,
        is_allowed: consumer.is_allowed,
    })
}

/// Whether the two sides of a contract are there, and whether the caller may report how its verification went: the
/// provider's owner may.
fn read_sides_to_verify<S: Alter>(
    conn: &mut Connection<S>,
    caller: &Caller,
    provider: &Name,
    consumer: &Name,
) -> Result<Sides, StoreFault>
    ensures { LooksUp S.Store conn.old conn.new result
        (λ sides s. AreSidesRead s caller.now OwnerToVerify (provider.now ∷ []) provider.now consumer.now sides) }
{
    let provider = done!(read_owner(conn, caller, Rule::OwnerToVerify, provider, false));
    let has_consumer = done!(has_pacticipant(conn, consumer));
    Ok(Sides {
        has_provider: provider.has_pacticipant,
        has_consumer,
        is_allowed: provider.is_allowed,
    })
}

/// Whether the two sides of a contract are there, and whether the caller may see it: the owner of either side may, and
/// the office.
pub(crate) fn read_sides_to_show<S: Alter>(
    conn: &mut Connection<S>,
    caller: &Caller,
    provider: &Name,
    consumer: &Name,
) -> Result<Sides, StoreFault>
    ensures { LooksUp S.Store conn.old conn.new result
        (λ sides s. AreSidesRead s caller.now OwnerOrOfficeToRead (provider.now ∷ consumer.now ∷ []) provider.now consumer.now sides) }
{
    let provider = done!(read_owner(conn, caller, Rule::OwnerOrOfficeToRead, provider, false));
    let consumer = done!(read_owner(conn, caller, Rule::OwnerOrOfficeToRead, consumer, false));
    Ok(Sides {
        has_provider: provider.has_pacticipant,
        has_consumer: consumer.has_pacticipant,
        is_allowed: provider.is_allowed || consumer.is_allowed,
    })
}

/// The number of a consumer's version, if it is there, and of the content of its contract with the provider, if it has
/// one.
pub(crate) fn read_contract<S: Alter>(
    conn: &mut Connection<S>,
    provider: &Name,
    consumer: &Name,
    version: &Name,
) -> Result<ContractNumbers, StoreFault>
    ensures { LooksUpInPlace S.Store conn.old conn.new result
        (λ found s. IsContractRead s (version_named consumer.now version.now) provider.now
        found.version found.content) }
{
    match done!(version_of(conn, consumer.as_str(), version.as_str())) {
        Some(number) => Ok(ContractNumbers {
            version: Some(number),
            content: done!(contract_of(conn, number, provider.as_str())),
        }),
        None => Ok(ContractNumbers {
            version: None,
            content: None,
        }),
    }
}

/// The text of a content.
pub(crate) fn read_text<S: Alter>(
    conn: &mut Connection<S>,
    content: u32,
) -> Result<Text, StoreFault>
    ensures answers { Queries S.Store conn.old conn.new result (λ text s. text_of s content ≡ Some text) }
    ensures failure { FailsByStoreFrom S.Store conn.old conn.new result (λ s. HasContent s content) }
{
    match done!(get(conn, content as u64)) {
        Some(text) => Ok(Text::new(text)),
        None => Err(StoreFault::Store),
    }
}

/// The refusal of a command on the two sides of a contract, if there is one.
pub(crate) fn refuse_sides(rule: Rule, sides: Sides) -> Option<Answer>
    ensures { (command : CommandModel) → (asks command).rule ≡ rule
        → result ≡ refused command (missing_side sides None) sides.is_allowed }
{
    if !sides.has_provider || !sides.has_consumer {
        return Some(Answer::Unknown(Missing::Pacticipant));
    }
    if !sides.is_allowed {
        return Some(Answer::Denied(rule));
    }
    None
}

/// The content of a contract that is asked for, or the refusal: which of its two sides, its version and the contract
/// is missing first, or the rule that doesn't let the caller.
fn admit_contract(rule: Rule, place: ContractPlace) -> Result<u32, Answer>
    ensures { Admits rule place.contract.content (missing_part place) place.sides.is_allowed result }
{
    if !place.sides.has_provider || !place.sides.has_consumer {
        return Err(Answer::Unknown(Missing::Pacticipant));
    }
    if place.contract.version.is_none() {
        return Err(Answer::Unknown(Missing::Version));
    }
    let Some(content) = place.contract.content else {
        return Err(Answer::Unknown(Missing::Contract));
    };
    if !place.sides.is_allowed {
        return Err(Answer::Denied(rule));
    }
    Ok(content)
}

/// The content of a contract that the caller may see, or the refusal.
pub(crate) fn read_contract_to_show<S: Alter>(
    conn: &mut Connection<S>,
    caller: &Caller,
    path: &PactPath,
) -> Result<Result<u32, Answer>, StoreFault>
    ensures { LooksUp S.Store conn.old conn.new result
        (λ found s. Reaches s caller.now path.now OwnerOrOfficeToRead (path.now.provider ∷ path.now.consumer ∷ []) found) }
{
    let sides = done!(read_sides_to_show(conn, caller, &path.provider, &path.consumer));
    let contract = done!(read_contract(conn, &path.provider, &path.consumer, &path.version));
    Ok(admit_contract(Rule::OwnerOrOfficeToRead, ContractPlace { sides, contract }))
}

/// The content of a contract of which the caller may report how its verification went, or the refusal.
pub(crate) fn read_contract_to_verify<S: Alter>(
    conn: &mut Connection<S>,
    caller: &Caller,
    path: &PactPath,
) -> Result<Result<u32, Answer>, StoreFault>
    ensures { LooksUp S.Store conn.old conn.new result
        (λ found s. Reaches s caller.now path.now OwnerToVerify (path.now.provider ∷ []) found) }
{
    let sides = done!(read_sides_to_verify(conn, caller, &path.provider, &path.consumer));
    let contract = done!(read_contract(conn, &path.provider, &path.consumer, &path.version));
    Ok(admit_contract(Rule::OwnerToVerify, ContractPlace { sides, contract }))
}
