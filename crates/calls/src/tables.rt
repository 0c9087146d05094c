//! The calls on a broker's tables that no command makes, in a transaction that the test has opened.
use crate::streams::{OFFICE, RED, Request, SHOP_1, TEAM, world};
use broker_core::command::Version;
use broker_core::need::{Latest, Need};
use broker_names::name::Name;
use content_store::{Digester, Sha256Digester, digest_text, find, put};
use contract_tables::{add_result, latest_of};
use deploy_tables::{needs, standing};
use registry_tables::{add_version, branch_numbers, strict_of, version_of};
use sqlite::{Alter, Connection};
use std::alloc::Global;
use std::process::Abort;
use std::test::Fail;
use table_access::{StoreFault, begin, commit};

/// What the broker has: shop's versions are 1 and 2 and stock's is 3, shop 1 has content 1 as its contract with stock,
/// and all three are in live.
const WORLD: [Request; 14] = [
    (OFFICE, "PUT /teams/red", TEAM),
    (OFFICE, "PUT /pacticipants/shop", "{\"team\":\"red\"}"),
    (OFFICE, "PUT /pacticipants/stock", "{\"team\":\"red\"}"),
    (OFFICE, "PUT /environments/live", "{\"gated\":false}"),
    (
        OFFICE,
        "PUT /environments/prod",
        "{\"gated\":true,\"strict\":true}",
    ),
    (OFFICE, "PUT /grants/team/red/environment/live", ""),
    (RED, "PUT /pacticipants/shop/versions/1", MAIN),
    (RED, "PUT /pacticipants/shop/versions/2", MAIN),
    (RED, "PUT /pacticipants/stock/versions/1", MAIN),
    (
        RED,
        "PUT /pacts/provider/stock/consumer/shop/version/1",
        "{\"consumer\":{\"name\":\"shop\"},\"provider\":{\"name\":\"stock\"},\"interactions\":[]}",
    ),
    (RED, "POST /environments/live/deployments", SHOP_1),
    (
        RED,
        "POST /environments/live/releases",
        "{\"pacticipant\":\"shop\",\"version\":\"2\"}",
    ),
    (RED, "POST /environments/live/releases", SHOP_1),
    (
        RED,
        "POST /environments/live/deployments",
        "{\"pacticipant\":\"stock\",\"version\":\"1\"}",
    ),
];

const MAIN: &str = "{\"branch\":\"main\"}";

/// A digester by which all texts look alike.
struct Zeros;

impl Digester for Zeros {
    ghost use Rattle.std.specs.Prelude.{replicate};

    ghost digest_of = { λ _. replicate 32 0 };

    fn digest(&self, _bytes: &[u8]) -> [u8; 32] {
        [0; 32]
    }
}

/// Texts are shared by themselves and not by their digests, which only find candidates.
fn shares_texts<S: Alter>(rt: &impl Abort, conn: &mut Connection<S>) {
    for (text, number) in [("x", 2), ("y", 3), ("x", 2)] {
        assert!(rt; put(conn, &Zeros, text) == Ok(number), "{text}");
    }
}

fn finds_texts<S: Alter>(rt: &impl Abort, conn: &mut Connection<S>) {
    for (text, number) in [("x", Some(2)), ("y", Some(3)), ("z", None)] {
        assert!(rt; find(conn, &Zeros, text) == Ok(number), "{text}");
    }
}

/// The versions of a branch, the newest first: not those of another pacticipant.
fn has_branches<S: Alter>(
    rt: &impl Abort,
    alloc: Global,
    conn: &mut Connection<S>,
) -> Result<(), StoreFault> {
    let numbers = branch_numbers(alloc, conn, "shop", "main")?;
    assert!(rt; numbers.as_slice() == [2, 1].as_slice());
    Ok(())
}

fn has_marks<S: Alter>(rt: &impl Abort, conn: &mut Connection<S>) {
    for (environment, strict) in [("live", Some(false)), ("prod", Some(true)), ("test", None)] {
        assert!(rt; strict_of(conn, environment) == Ok(strict), "{environment}");
    }
}

/// Stock's second version has the next number.
fn adds_version<S: Alter>(rt: &impl Abort, conn: &mut Connection<S>) {
    assert!(rt; add_version(conn, "stock", "2") == Ok(4));
    assert!(rt; version_of(conn, "stock", "2") == Ok(Some(4)));
}

const CLAIMED_PASS: Latest = Latest {
    pass: true,
    checked: false,
};

const CHECKED_FAIL: Latest = Latest {
    pass: false,
    checked: true,
};

/// Results of shop 1's content with stock 1: the newest counts.
fn adds_results<S: Alter>(rt: &impl Abort, conn: &mut Connection<S>, run: &Option<Name>) {
    for (number, latest, run) in [(1, CLAIMED_PASS, run), (2, CHECKED_FAIL, &None)] {
        let added = add_result(conn, 1, "stock", 3, latest.pass, latest.checked, run);
        assert!(rt; added == Ok(number), "{number}");
        assert!(rt; latest_of(conn, 1, 3) == Ok(Some(latest)), "{number}");
    }
}

/// Whether this is the version.
fn is_version(version: &Version, pacticipant: &str, name: &str) -> bool {
    version.pacticipant.as_str() == pacticipant && version.name.as_str() == name
}

/// What is there by a deployment or a release, once each.
fn has_present<S: Alter>(
    rt: &impl Abort,
    alloc: Global,
    conn: &mut Connection<S>,
) -> Result<(), StoreFault> {
    let there = standing(alloc, conn, "live")?;
    let [one, two, three] = there.as_slice() else {
        return Err(StoreFault::Store);
    };
    assert!(rt; is_version(one, "shop", "1"));
    assert!(rt; is_version(two, "shop", "2"));
    assert!(rt; is_version(three, "stock", "1"));
    Ok(())
}

/// Whether this is the need of shop 1 for stock: of this version of it, or of none.
fn is_need(need: &Need, provider_version: Option<&str>, latest: Option<Latest>) -> bool {
    let version = match &need.provider_version {
        Some(version) => Some(version.as_str()),
        None => None,
    };
    need.consumer.as_str() == "shop"
        && need.consumer_version.as_str() == "1"
        && need.provider.as_str() == "stock"
        && version == provider_version
        && need.latest == latest
}

/// A version by its number, an environment, and the one need of the version there, if it has one: the version of the
/// provider that is there, and what its latest result says.
const NEEDS: [(u32, &str, Option<(Option<&str>, Option<Latest>)>); 4] = [
    (1, "prod", Some((None, None))),
    (1, "live", Some((Some("1"), Some(CHECKED_FAIL)))),
    (3, "live", Some((Some("1"), Some(CHECKED_FAIL)))),
    (3, "prod", None),
];

/// What shop 1 needs of its provider, and stock 1 of its consumers.
fn has_needs<S: Alter>(
    rt: &impl Abort,
    alloc: Global,
    conn: &mut Connection<S>,
) -> Result<(), StoreFault> {
    for (number, environment, wanted) in NEEDS {
        let found = needs(alloc, conn, number, environment)?;
        let same = match (found.as_slice(), wanted) {
            ([need], Some((version, latest))) => is_need(need, version, latest),
            ([], None) => true,
            _ => false,
        };
        assert!(rt; same, "{number} {environment}");
    }
    Ok(())
}

/// All of it in one transaction.
fn tries<S: Alter>(
    rt: &impl Abort,
    alloc: Global,
    conn: &mut Connection<S>,
    run: &Option<Name>,
) -> Result<(), StoreFault> {
    begin(conn)?;
    shares_texts(rt, conn);
    finds_texts(rt, conn);
    has_branches(rt, alloc, conn)?;
    has_marks(rt, conn);
    adds_version(rt, conn);
    adds_results(rt, conn, run);
    has_present(rt, alloc, conn)?;
    has_needs(rt, alloc, conn)
}

#[test]
fn calls_on_tables(rt: HostRuntime) -> Result<(), Fail> {
    let alloc = rt.alloc();
    let run = Some(Name::new(alloc, "ci-7")?);
    let mut conn = world(alloc, &WORLD)?.close();
    tries(&rt, alloc, &mut conn, &run)?;
    assert!(rt; commit(&mut conn).is_ok());
    Ok(())
}

/// The example of FIPS 180-4.
#[test]
fn digests(rt: HostRuntime) -> Result<(), Fail> {
    let digest = digest_text(rt.alloc(), &Sha256Digester, b"abc")?;
    assert_eq!(rt;
        digest.as_str(),
        "ba7816bf8f01cfea414140de5dae2223b00361a396177a9cb410ff61f20015ad"
    );
    Ok(())
}
