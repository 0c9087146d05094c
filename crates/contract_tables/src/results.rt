//! A result comes in: its row, the mark that the broker checked it, and that it is the latest one for its content and
//! its version.
ghost use Rattle.std.specs.Prelude.{◌≡◌, IfSome, unwrap_or};
ghost use Rattle.sqlite.specs.Held.{state};
ghost use Rattle.table_access.specs.Calls.{CallsStore};
ghost use Rattle.broker_tables.specs.Holds.{IsBroker, Changes, ChangesAndAnswers};
ghost use Rattle.broker_tables.specs.ChangeRefusals.{FailsByStoreStoring};
ghost use Rattle.broker_tables.specs.Rows.{no_run};
ghost use Rattle.broker_names.specs.Name.{IsName};
ghost use Rattle.contract_tables.specs.Verified.{RecordsResult, texts_of, AllowsResult, AllowsNextResult, CanAddResult, PutsRow, result_row, Marks, Points, FailsByStoreOn, AllowsMark, AllowsPoint};
ghost use Rattle.std.specs.Prelude.{pos, ◌∷◌, [], codes};
ghost use Rattle.sqlite.specs.declared.types.Value.TheVariants.{Int, Null};

use crate::lookups::result_count;
use arrayvec::ArrayString;
use broker_names::name::Name;
use broker_tables::next_number;
use itoa::Buffer;
use sqlite::{Alter, Connection, params};
use table_access::{StoreFault, change};

/// How many bytes the text for no run has at most: a tab, and ten digits.
const NO_RUN_LIMIT: usize = 11;

/// The text for no run in the row of this number: a tab, which no name has, and the number. No memory is taken.
fn no_run(number: u32) -> ArrayString<NO_RUN_LIMIT>
    ensures { result.bytes ≡ no_run (pos number) }
{
    let mut digits = Buffer::new();
    let mut text = ArrayString::new();
    text.push('\t');
    text.push_str(digits.format(number));
    text
}

/// The text of a run, or this one if there is none.
fn run_text<'a>(run: &'a Option<Name>, none: &'a ArrayString<NO_RUN_LIMIT>) -> &'a str
    ensures text { result.now ≡ unwrap_or run.now none.now.bytes }
    ensures name { IfSome run.now IsName }
{
    match run {
        Some(run) => {
            run.is_name();
            run.as_str()
        },
        None => none.as_str(),
    }
}

/// Puts in the row of a result: of a run, or of none.
#[tactic(auto, unfolding(sqlite_tied::specs::Compute::everything))]
fn put_result<'a, S: Alter>(
    conn: &mut Connection<S>,
    number: u32,
    content: u32,
    provider: &'a str,
    version_number: u32,
    pass: bool,
    run: &'a Option<Name>,
) -> Result<(), StoreFault>
    ensures puts { CallsStore S.Store conn.old conn.new result
        (λ _ old new. IsBroker old.now →
        PutsRow 17 (result_row number content provider.now version_number pass run.now) old new) }
    ensures failure { FailsByStoreStoring S.Store conn.old conn.new result [] (texts_of provider.now run.now)
        (AllowsResult number content provider.now version_number run.now) }
    ensures name { IfSome run.now IsName }
{
    let none = no_run(number);
    change(
        conn,
        "INSERT INTO results (number, content, provider, provider_version, pass, run) VALUES (?1, ?2, ?3, ?4, ?5, ?6)",
        params![
            number,
            content,
            provider,
            version_number,
            pass,
            run_text(run, &none)
        ],
    )
}

/// Marks a result as checked.
#[tactic(auto, unfolding(sqlite_tied::specs::Compute::everything))]
fn mark_checked<S: Alter>(conn: &mut Connection<S>, number: u32) -> Result<(), StoreFault>
    ensures puts { CallsStore S.Store conn.old conn.new result
        (λ _ old new. IsBroker old.now →
        PutsRow 25 (Int (pos number) ∷ Null ∷ []) old new) }
    ensures failure { FailsByStoreOn (state S.Store conn.old) (state S.Store conn.new) result (AllowsMark number) }
{
    change(
        conn,
        "INSERT INTO checked_results (result) VALUES (?1)",
        params![number],
    )
}

/// Marks a result as checked if it was.
fn mark<S: Alter>(conn: &mut Connection<S>, number: u32, checked: bool) -> Result<(), StoreFault>
    ensures marks { CallsStore S.Store conn.old conn.new result
        (λ _ old new. IsBroker old.now →
        Marks checked number old new) }
    ensures failure { FailsByStoreOn (state S.Store conn.old) (state S.Store conn.new) result (AllowsMark number) }
{
    if checked {
        mark_checked(conn, number)
    } else {
        Ok(())
    }
}

/// Makes a result the latest one for its content and its version.
#[tactic(auto, unfolding(sqlite_tied::specs::Compute::everything))]
fn point_latest<S: Alter>(
    conn: &mut Connection<S>,
    content: u32,
    version_number: u32,
    number: u32,
) -> Result<(), StoreFault>
    ensures points { CallsStore S.Store conn.old conn.new result
        (λ _ old new. IsBroker old.now →
        Points content version_number number old new) }
    ensures failure { FailsByStoreOn (state S.Store conn.old) (state S.Store conn.new) result
        (AllowsPoint content version_number number) }
{
    change(
        conn,
        "INSERT INTO latest (content, provider_version, result) VALUES (?1, ?2, ?3) ON CONFLICT (content, provider_version) DO UPDATE SET result = excluded.result",
        params![content, version_number, number],
    )
}

/// Records the result of verifying a content with a version of its provider, under the next number: it is the latest
/// one for them.
///
/// # Errors
/// `StoreFault::Memory` if the database is out of memory; `StoreFault::Store` if it refused a row.
pub fn record_result<S: Alter>(
    conn: &mut Connection<S>,
    number: u32,
    content: u32,
    provider: &str,
    version_number: u32,
    pass: bool,
    checked: bool,
    run: &Option<Name>,
) -> Result<(), StoreFault>
    ensures changes { Changes S.Store conn.old conn.new result
        (RecordsResult number content provider.now version_number pass checked run.now) }
    ensures failure { FailsByStoreStoring S.Store conn.old conn.new result (codes "latest" ∷ [])
        (texts_of provider.now run.now) (AllowsResult number content provider.now version_number run.now) }
{
    done!(put_result(conn, number, content, provider, version_number, pass, run));
    done!(mark(conn, number, checked));
    point_latest(conn, content, version_number, number)
}

/// Adds the result of verifying a content with a version of its provider, and answers its number, which is the next one:
/// it is the latest one for them.
///
/// # Errors
/// `StoreFault::Memory` if the database is out of memory; `StoreFault::Store` if it refused the query or a row, or has
/// no number left.
pub fn add_result<S: Alter>(
    conn: &mut Connection<S>,
    content: u32,
    provider: &str,
    version_number: u32,
    pass: bool,
    checked: bool,
    run: &Option<Name>,
) -> Result<u32, StoreFault>
    ensures changes { ChangesAndAnswers S.Store conn.old conn.new result
        (AllowsNextResult content provider.now version_number run.now)
        (λ number. RecordsResult number content provider.now version_number pass checked run.now) }
    ensures failure { FailsByStoreStoring S.Store conn.old conn.new result (codes "latest" ∷ [])
        (texts_of provider.now run.now) (CanAddResult content provider.now version_number run.now) }
{
    let count = done!(result_count(conn));
    let Some(number) = next_number(count) else {
        return Err(StoreFault::Store);
    };
    done!(record_result(
        conn,
        number,
        content,
        provider,
        version_number,
        pass,
        checked,
        run
    ));
    Ok(number)
}
