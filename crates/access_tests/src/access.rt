//! Statements, transactions and rows, over a table of the tests' own.
use sqlite::{Alter, Connection, MemStore, Row, params};
use std::alloc::Global;
use std::test::Fail;
use table_access::{
    ReadRow, StoreFault, begin, change, commit, find_number, find_text, has_row, list_of, rollback,
};

fn fail_of(fault: StoreFault) -> Fail {
    match fault {
        StoreFault::Memory => Fail::from("memory"),
        StoreFault::Store => Fail::from("store"),
    }
}

/// Whether exactly this was found.
fn is_text(found: Result<Option<String>, StoreFault>, wanted: Option<&str>) -> bool {
    match found {
        Ok(found) => found.as_deref() == wanted,
        Err(_) => false,
    }
}

fn make<S: Alter>(conn: &mut Connection<S>) -> Result<(), StoreFault> {
    change(
        conn,
        "CREATE TABLE word (number INTEGER PRIMARY KEY, text TEXT NOT NULL UNIQUE) STRICT",
        &[],
    )
}

fn put<S: Alter>(conn: &mut Connection<S>, number: u32, text: &str) -> Result<(), StoreFault> {
    change(
        conn,
        "INSERT INTO word (number, text) VALUES (?1, ?2)",
        params![number, text],
    )
}

struct Word;

impl ReadRow for Word {
    type Item = (u32, String);

    ghost reads_as = { λ row word. Unit {0} };

    ghost fails_as = { λ row fault. Unit {0} };

    fn read(_: Global, row: &Row) -> Result<(u32, String), StoreFault> {
        let number = row.get(0)?;
        let text = row.get(1)?;
        Ok((number, text))
    }
}

fn texts<S: Alter>(alloc: Global, conn: &mut Connection<S>) -> Result<String, Fail> {
    let words = list_of::<Word, S>(
        alloc,
        conn,
        "SELECT number, text FROM word ORDER BY text DESC",
        &[],
    )
    .map_err(fail_of)?;
    let mut all = String::new(alloc);
    for (_, text) in words {
        all.push_str(&text)?;
        all.push_str(" ")?;
    }
    Ok(all)
}

/// The text of the word of this number.
fn text_by(conn: &mut Connection<MemStore>, number: u32) -> Result<Option<String>, StoreFault> {
    find_text(
        conn,
        "SELECT text FROM word WHERE number = ?1",
        params![number],
    )
}

/// The number of the word of this text.
fn number_by(conn: &mut Connection<MemStore>, text: &str) -> Result<Option<u32>, StoreFault> {
    find_number(
        conn,
        "SELECT number FROM word WHERE text = ?1",
        params![text],
    )
}

/// Whether there is a word of this number.
fn is_there(conn: &mut Connection<MemStore>, number: u32) -> Result<bool, StoreFault> {
    has_row(
        conn,
        "SELECT text FROM word WHERE number = ?1",
        params![number],
    )
}

/// What a transaction writes is read in it, one that is left and one that is committed.
#[test]
fn reads_and_writes(rt: HostRuntime) -> Result<(), Fail> {
    let alloc = rt.alloc();
    let mut conn = Connection::open_in_memory(alloc)?;
    begin(&mut conn).map_err(fail_of)?;
    make(&mut conn).map_err(fail_of)?;
    put(&mut conn, 4294967295, "it's \"x\" é").map_err(fail_of)?;
    put(&mut conn, 1, "").map_err(fail_of)?;
    assert!(rt; is_text(text_by(&mut conn, 4294967295), Some("it's \"x\" é")));
    assert!(rt; number_by(&mut conn, "it's \"x\" é") == Ok(Some(4294967295)));
    assert!(rt;
        find_number(
            &mut conn,
            "SELECT number FROM word WHERE text = 'none'",
            &[]
        ) == Ok(None)
    );
    assert!(rt; is_there(&mut conn, 1) == Ok(true));
    assert!(rt; is_there(&mut conn, 2) == Ok(false));
    assert!(rt; commit(&mut conn).is_ok());
    assert!(rt; commit(&mut conn).is_err());
    begin(&mut conn).map_err(fail_of)?;
    put(&mut conn, 2, "b").map_err(fail_of)?;
    assert!(rt; texts(alloc, &mut conn)?.as_str() == "it's \"x\" é b  ");
    assert!(rt; rollback(&mut conn) == Ok(()));
    assert!(rt; rollback(&mut conn) == Ok(()));
    assert!(rt; texts(alloc, &mut conn)?.as_str() == "it's \"x\" é  ");
    Ok(())
}

/// What the database refuses is reported as Store, and the transaction goes on; so is a row that doesn't read.
#[test]
fn reports_store(rt: HostRuntime) -> Result<(), Fail> {
    let alloc = rt.alloc();
    let mut conn = Connection::open_in_memory(alloc)?;
    assert!(rt; put(&mut conn, 1, "a") == Err(StoreFault::Store));
    begin(&mut conn).map_err(fail_of)?;
    assert!(rt; begin(&mut conn) == Err(StoreFault::Store));
    make(&mut conn).map_err(fail_of)?;
    assert!(rt; make(&mut conn) == Err(StoreFault::Store));
    put(&mut conn, 1, "a").map_err(fail_of)?;
    assert!(rt; put(&mut conn, 2, "a") == Err(StoreFault::Store));
    assert!(rt; put(&mut conn, 1, "b") == Err(StoreFault::Store));
    assert!(rt; find_number(&mut conn, "SELECT text FROM word", &[]) == Err(StoreFault::Store));
    assert!(rt;
        find_number(&mut conn, "SELECT number - 2 FROM word", &[]) == Err(StoreFault::Store)
    );
    assert!(rt; find_number(&mut conn, "SELECT 4294967296", &[]) == Err(StoreFault::Store));
    assert!(rt;
        find_text(&mut conn, "SELECT number FROM word", &[]).map(|_| ()) == Err(StoreFault::Store)
    );
    assert!(rt; has_row(&mut conn, "SELECT number FROM words", &[]) == Err(StoreFault::Store));
    assert!(rt; !conn.is_autocommit());
    assert!(rt; commit(&mut conn).is_ok());
    assert!(rt; texts(alloc, &mut conn)?.as_str() == "a ");
    Ok(())
}
