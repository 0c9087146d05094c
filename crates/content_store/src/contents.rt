//! The normal texts of pacts, each once under its number, beside its digest.
ghost use Rattle.std.specs.Prelude.{◌≡◌, [], ◌∷◌, true, false, None, pos, List, ℕ, IfOk, IfErr, length, option_map, string_bytes};
ghost use Rattle.std.specs.List.{find as first};
ghost use Rattle.sqlite.specs.Order.{column};
ghost use Rattle.sqlite.specs.declared.types.Value.TheVariants.{Int};
ghost use Rattle.hex.specs.Hex.{encode_lower};
ghost use Rattle.table_access.specs.Calls.{CallsTables, CallsStore};
ghost use Rattle.table_access.specs.Columns.{text};
ghost use Rattle.table_access.specs.Reading.{IsTextAt};
ghost use Rattle.broker_core.specs.Limit.{has_room};
ghost use Rattle.broker_core.specs.Text.{Text, same_text};
ghost use Rattle.broker_tables.specs.Failures.{FailsByStore, FailsByStoreInPlace, TakesNoMemoryIf};
ghost use Rattle.broker_tables.specs.Readable.{IsReadable};
ghost use Rattle.broker_tables.specs.ChangeRefusals.{FailsByStoreStoring};
ghost use Rattle.content_store.specs.Contents.{StaysBroker, IsNextContent, hex_of, is_among, found_in, text_in, IsTextOf, ReportsUnreadable, IsReadBy, IsReadByAny, IsPutBy, IsPutUnder, IsNewBy, IsNewAfter, IsNewIfRoom, IsPutIfRoom, CanBeAdded, FailsToAdd};

use crate::digester::{Digester, digest_digits};
use broker_core::limit::room;
use broker_tables::next_number;
use sqlite::types::{ToSql, ValueRef};
use sqlite::{Alter, Connection, Row, params};
use table_access::{StoreFault, change, find_number, find_text, number_in, select, text_at};

/// The text with this number, or `None` if there is none. No row has a number above 2^63 - 1.
///
/// # Errors
/// `StoreFault::Memory` if the database is out of memory, or there is none for the answer; `StoreFault::Store` if it
/// refused the query.
pub fn get<S: Alter>(conn: &mut Connection<S>, number: u64) -> Result<Option<String>, StoreFault>
    ensures call { CallsTables S.Store conn.old conn.new result
        (λ found old new. IsReadByAny old new (λ found texts. IsTextOf texts number (option_map string_bytes found)) found) }
    ensures failure { FailsByStore S.Store conn.old conn.new result }
    ensures missing { TakesNoMemoryIf S.Store conn.old conn.new result (λ s. text_in s.contents number ≡ None) }
{
    match i64::try_from(number) {
        Ok(number) => find_text(
            conn,
            "SELECT body FROM contents WHERE number = ?1",
            params![number],
        ),
        Err(_) => Ok(None),
    }
}

/// How many texts there are: the number of the newest, or 0.
///
/// # Errors
/// `StoreFault::Memory` if the database is out of memory; `StoreFault::Store` if it refused the query or holds no
/// number there.
pub fn content_count<S: Alter>(conn: &mut Connection<S>) -> Result<u64, StoreFault>
    ensures call { CallsStore S.Store conn.old conn.new result
        (λ count old new. IsReadByAny old new (λ count texts. count ≡ length texts) count) }
    ensures failure { FailsByStoreInPlace S.Store conn.old conn.new result }
{
    let newest = done!(find_number(
        conn,
        "SELECT number FROM contents ORDER BY number DESC LIMIT 1",
        &[],
    ));
    Ok(newest.unwrap_or(0) as u64)
}

/// Whether this is the row's text. `StoreFault::Store` if the row has none.
fn has_text(row: &Row, body: &str) -> Result<bool, StoreFault>
    ensures ok { IfOk result (λ has. has ≡ same_text body.now (text 1 row.now)) }
    ensures cause { IfErr result (λ f. (f ≡ StoreFault.Store) × (¬ IsTextAt 1 row.now)) }
{
    match text_at(row, 1) {
        Some(found) => Ok(body == found),
        None => Err(StoreFault::Store),
    }
}

/// The number in the first row that has this text, if one has it. `StoreFault::Store` if a row has no text, or no
/// number.
fn number_among(rows: &[Row], body: &str) -> Result<Option<u32>, StoreFault>
    ensures ok { IfOk result
        (λ found. option_map (λ n. Int (pos n)) found ≡ option_map (λ row. column row 0)
        (first (λ row. same_text body.now (text 1 row)) rows.now)) }
    ensures cause { IfErr result (ReportsUnreadable rows.now) }
{
    for row in rows {
        if done!(has_text(row, body)) {
            return Ok(Some(done!(number_in(row))));
        }
    }
    Ok(None)
}

/// The number of a text, whose digest this is. The digest finds the candidates, and their texts are compared with this
/// one.
fn find_beside<S: Alter>(
    conn: &mut Connection<S>,
    digest: &[u8],
    body: &str,
) -> Result<Option<u32>, StoreFault>
    ensures call { CallsStore S.Store conn.old conn.new result
        (λ found old new. (StaysBroker old new) × ((by : Text → Text) → by body.now ≡ digest.now →
        IsReadBy by old new
        (λ found texts. found ≡ found_in texts body.now) found)) }
    ensures failure { FailsByStoreInPlace S.Store conn.old conn.new result }
{
    let rows = done!(select(
        conn,
        "SELECT number, body FROM contents WHERE digest = ?1 ORDER BY number",
        &[ValueRef::Text(digest)],
    ));
    number_among(&rows, body)
}

/// The number of the text, or `None` if it isn't stored.
///
/// # Errors
/// `StoreFault::Memory` if the database is out of memory; `StoreFault::Store` if it refused the query, or if a row has
/// no number below 2^32.
pub fn find<S: Alter, D: Digester>(
    conn: &mut Connection<S>,
    digester: &D,
    body: &str,
) -> Result<Option<u64>, StoreFault>
    ensures call { CallsStore S.Store conn.old conn.new result
        (λ found old new. IsReadBy (hex_of D.digest_of) old new (λ found texts. found ≡ found_in texts body.now) found) }
    ensures failure { FailsByStoreInPlace S.Store conn.old conn.new result }
{
    let digest = digest_digits(digester, body.as_bytes());
    match done!(find_beside(conn, &digest, body)) {
        Some(number) => Ok(Some(u64::from(number))),
        None => Ok(None),
    }
}

/// Puts in a text under a number, with this digest.
#[tactic(auto, unfolding(sqlite_tied::specs::Compute::everything))]
fn put_under<'a, S: Alter>(
    conn: &mut Connection<S>,
    number: u32,
    digest: &'a [u8],
    body: &'a str,
) -> Result<(), StoreFault>
    ensures call { CallsStore S.Store conn.old conn.new result
        (λ _ old new. (by : Text → Text) → by body.now ≡ digest.now →
        IsPutUnder by body.now old new number) }
    ensures failure { FailsByStoreStoring S.Store conn.old conn.new result [] (digest.now ∷ body.now ∷ []) (IsNextContent number) }
{
    change(
        conn,
        "INSERT INTO contents (number, digest, body) VALUES (?1, ?2, ?3)",
        &[number.to_sql(), ValueRef::Text(digest), body.to_sql()],
    )
}

/// Adds a text that isn't there, with this digest, after so many, and answers its number.
fn add_after<S: Alter>(
    conn: &mut Connection<S>,
    count: u64,
    digest: &[u8],
    body: &str,
) -> Result<u32, StoreFault>
    ensures call { CallsStore S.Store conn.old conn.new result
        (λ number old new. (by : Text → Text) → by body.now ≡ digest.now →
        IsNewAfter by body.now count old new number) }
    ensures failure { FailsByStoreStoring S.Store conn.old conn.new result [] (digest.now ∷ body.now ∷ [])
        (λ s. (count ≡ length s.contents) × (has_room s.contents ≡ true)) }
{
    let Some(number) = next_number(count) else {
        return Err(StoreFault::Store);
    };
    done!(put_under(conn, number, digest, body));
    Ok(number)
}

/// Adds a text that isn't there, with this digest, and answers its number, which is the next one.
fn add<S: Alter>(conn: &mut Connection<S>, digest: &[u8], body: &str) -> Result<u32, StoreFault>
    ensures call { CallsStore S.Store conn.old conn.new result
        (λ number old new. (by : Text → Text) → by body.now ≡ digest.now →
        IsNewBy by body.now old new number) }
    ensures failure { FailsByStoreStoring S.Store conn.old conn.new result [] (digest.now ∷ body.now ∷ [])
        (λ s. IsReadable s × (has_room s.contents ≡ true)) }
{
    let count = done!(content_count(conn));
    add_after(conn, count, digest, body)
}

/// Adds a text that isn't there, with this digest, if there is room for one more, and answers its number.
fn add_if_room<S: Alter>(
    conn: &mut Connection<S>,
    digest: &[u8],
    body: &str,
) -> Result<Option<u32>, StoreFault>
    ensures call { CallsStore S.Store conn.old conn.new result
        (λ found old new. (by : Text → Text) → by body.now ≡ digest.now →
        IsNewIfRoom by body.now old new found) }
    ensures failure { FailsByStoreStoring S.Store conn.old conn.new result [] (digest.now ∷ body.now ∷ []) IsReadable }
    ensures rowless { (by : Text → Text) → FailsToAdd S.Store conn.old conn.new by result
        (λ texts. has_room texts ≡ true) }
{
    let count = done!(content_count(conn));
    if room(count) {
        Ok(Some(done!(add_after(conn, count, digest, body))))
    } else {
        Ok(None)
    }
}

/// The number of the text, which is stored under the next one if it isn't stored yet. Each text that is there was
/// stored by this digester.
///
/// # Errors
/// `StoreFault::Memory` if the database is out of memory; `StoreFault::Store` if it refused a statement, or if the
/// numbers are used up. While the store works, only a text that has to be stored may be refused.
pub fn put<S: Alter, D: Digester>(
    conn: &mut Connection<S>,
    digester: &D,
    body: &str,
) -> Result<u64, StoreFault>
    ensures call { CallsStore S.Store conn.old conn.new result
        (λ number old new. IsPutBy (hex_of D.digest_of) body.now old new number) }
    ensures failure { FailsByStoreStoring S.Store conn.old conn.new result [] (body.now ∷ [])
        (λ s. IsReadable s × (has_room s.contents ≡ true)) }
    ensures rowless { FailsToAdd S.Store conn.old conn.new (hex_of D.digest_of) result
        (λ texts. is_among texts body.now ≡ false) }
{
    let digest = digest_digits(digester, body.as_bytes());
    match done!(find_beside(conn, &digest, body)) {
        Some(number) => Ok(u64::from(number)),
        None => Ok(u64::from(done!(add(conn, &digest, body)))),
    }
}

/// The number of the text, which is stored under the next one if it isn't stored yet and there is room for one more;
/// `None` if there is no room, and then nothing changes. Each text that is there was stored by this digester. The text
/// is hashed once and looked for once, and the newest number is asked for only if it isn't stored.
///
/// # Errors
/// `StoreFault::Memory` if the database is out of memory; `StoreFault::Store` if it refused a statement, or a row has
/// no number below 2^32. While the store works, only a text that has to be
/// stored may be refused.
pub fn put_if_room<S: Alter, D: Digester>(
    conn: &mut Connection<S>,
    digester: &D,
    body: &str,
) -> Result<Option<u32>, StoreFault>
    ensures call { CallsStore S.Store conn.old conn.new result
        (λ found old new. IsPutIfRoom (hex_of D.digest_of) body.now old new found) }
    ensures failure { FailsByStoreStoring S.Store conn.old conn.new result [] (body.now ∷ []) IsReadable }
    ensures rowless { FailsToAdd S.Store conn.old conn.new (hex_of D.digest_of) result (CanBeAdded body.now) }
{
    let digest = digest_digits(digester, body.as_bytes());
    match done!(find_beside(conn, &digest, body)) {
        Some(number) => Ok(Some(number)),
        None => add_if_room(conn, &digest, body),
    }
}
