//! Trees of values, weights, the rule that is chosen, and what matchers hold of.
ghost use Rattle.std.specs.Prelude.{IfOk};
ghost use Rattle.pact_rules.specs.Walks.{WasStarted};

use pact_rules::{Alive, Path, PathFault, RuleFault, RuleTable, Step, holds, weight};
use pact_trees::{Tree, TreeFault, tree_of};
use serde_json::Value;
use std::alloc::Global;
use std::collections::BTreeMap;
use std::test::Fail;

/// A location by the words of its steps: a number is an index, any other word a key.
fn location(alloc: Global, words: &[&str]) -> Result<Vec<Step>, Fail> {
    let mut steps = Vec::new(alloc);
    for word in words {
        let step = match word.parse::<u64>() {
            Ok(index) => Step::Index(index),
            Err(_) => Step::Key(String::from_str(alloc, word)?),
        };
        steps.push(step)?;
    }
    Ok(steps)
}

fn table(alloc: Global, rules: &str) -> Result<RuleTable, Fail> {
    let tree = tree_in(alloc, rules)??;
    Ok(RuleTable::read(alloc, &tree)?)
}

/// The tree of a JSON text's value, or the first fault.
fn tree_in(alloc: Global, text: &str) -> Result<Result<Tree, TreeFault>, Fail> {
    let value = Value::from_str(alloc, text)?;
    Ok(tree_of(alloc, &value))
}

/// How many lists there are, one in another, what is in the innermost, and why no tree is made of it.
const DEPTHS: [(usize, &str, Option<TreeFault>); 5] = [
    (100, "", None),
    (101, "", Some(TreeFault::TooDeep)),
    (101, "1.5", Some(TreeFault::TooDeep)),
    (100, "1.5", Some(TreeFault::NotWhole)),
    (100, "0", None),
];

#[test]
fn depths(rt: HostRuntime) -> Result<(), Fail> {
    for (depth, innermost, wanted) in DEPTHS {
        let alloc = rt.alloc();
        let (begin, end) = ("[".repeat(alloc, depth)?, "]".repeat(alloc, depth)?);
        let text = format!(in alloc; "{begin}{innermost}{end}")?;
        let tree = tree_in(alloc, text.as_str())?;
        assert_eq!(rt;
            tree.err(),
            wanted,
            "{depth} lists, and in them {innermost}"
        );
    }
    Ok(())
}

/// Texts of numbers, and which whole number each is.
const NUMBERS: [(&str, Option<i128>); 9] = [
    ("0", Some(0)),
    ("-1", Some(-1)),
    ("18446744073709551615", Some(18446744073709551615)),
    ("18446744073709551616", None),
    ("-9223372036854775808", Some(-9223372036854775808)),
    ("-9223372036854775809", None),
    ("1.5", None),
    ("1.0", None),
    ("1e2", None),
];

#[test]
fn numbers(rt: HostRuntime) -> Result<(), Fail> {
    for (text, number) in NUMBERS {
        let tree = tree_in(rt.alloc(), text)?;
        let wanted = number.map(Tree::Whole).ok_or(TreeFault::NotWhole);
        assert!(rt; tree == wanted, "{text}");
    }
    Ok(())
}

const EACH_KIND: &str = "{\"b\":{},\"a\":[null,true,-3,\"x\"]}";

/// The tree of `EACH_KIND`, put together.
fn each_kind(alloc: Global) -> Result<Tree, Fail> {
    let text = Tree::Text(String::from_str(alloc, "x")?);
    let items = vec![in alloc; Tree::Null, Tree::Truth(true), Tree::Whole(-3), text]?;
    let mut members = BTreeMap::new(alloc);
    drop(members.insert(String::from_str(alloc, "a")?, Tree::List(items))?);
    let inner = Tree::Object(BTreeMap::new(alloc));
    drop(members.insert(String::from_str(alloc, "b")?, inner)?);
    Ok(Tree::Object(members))
}

#[test]
fn kinds(rt: HostRuntime) -> Result<(), Fail> {
    let tree = tree_in(rt.alloc(), EACH_KIND)??;
    assert!(rt; tree == each_kind(rt.alloc())?);
    Ok(())
}

/// Texts of paths; for each the text of what is read, and why nothing is.
const PATHS: [(&str, &str, Option<PathFault>); 7] = [
    ("$['it em'][007]", "$.it em[7]", None),
    ("$['a.b'].*", "$['a.b'][*]", None),
    ("$", "$", None),
    ("item", "", Some(PathFault::NoRoot)),
    ("$.a..b", "", Some(PathFault::BadToken(3))),
    ("$.", "", Some(PathFault::BadToken(1))),
    ("$[1234567890]", "", Some(PathFault::BadToken(1))),
];

#[test]
fn paths(rt: HostRuntime) -> Result<(), Fail> {
    for (text, wanted, why) in PATHS {
        match Path::read(rt.alloc(), text) {
            Ok(path) => {
                let plain = path.text(rt.alloc())?;
                assert_eq!(rt; plain.as_str(), wanted, "{text}");
                assert_eq!(rt; why, None, "{text}");
            },
            Err(fault) => assert_eq!(rt; Some(fault), why, "{text}"),
        }
    }
    Ok(())
}

/// How often `.a` follows the root, and what that path weighs at as many keys; 0 if it has too many tokens.
const LONG_PATHS: [(usize, u64); 4] = [(0, 2), (59, 1 << 60), (60, 2305843009213693952), (61, 0)];

#[test]
fn long_paths(rt: HostRuntime) -> Result<(), Fail> {
    for (count, wanted) in LONG_PATHS {
        let alloc = rt.alloc();
        let tokens = ".a".repeat(alloc, count)?;
        let text = format!(in alloc; "${tokens}")?;
        let keys = vec![in alloc; "a"; count]?;
        let steps = location(alloc, &keys)?;
        let weighs = match Path::read(alloc, text.as_str()) {
            Ok(path) => weight(&path, &steps),
            Err(PathFault::TooManyTokens) => 0,
            Err(_) => 1,
        };
        assert_eq!(rt; weighs, wanted, "{count} tokens");
    }
    Ok(())
}

/// What each path weighs at `$.item1.level[1].id`.
const WEIGHTS: [(&str, u64); 11] = [
    ("$", 2),
    ("$.item1", 4),
    ("$.item1.level", 8),
    ("$.item1.level[1]", 16),
    ("$.item1.level[1].id", 32),
    ("$.item1.level[*]", 8),
    ("$.item1.level[*].id", 16),
    ("$.*.level[*].id", 8),
    ("$.item2", 0),
    ("$.item1.level['1'].id", 0),
    ("$.item1.level[1].id.x", 0),
];

#[test]
fn weights(rt: HostRuntime) -> Result<(), Fail> {
    let alloc = rt.alloc();
    let steps = location(alloc, &["item1", "level", "1", "id"])?;
    for (text, wanted) in WEIGHTS {
        let path = Path::read(alloc, text)?;
        assert_eq!(rt; weight(&path, &steps), wanted, "{text}");
    }
    Ok(())
}

/// The path that is chosen at a location, or the empty text if none is.
fn path_chosen(alloc: Global, rules: &str, words: &[&str]) -> Result<String, Fail> {
    let table = table(alloc, rules)?;
    let steps = location(alloc, words)?;
    match table.choose(&steps) {
        Some(index) => Ok(table.path(index).text(alloc)?),
        None => Ok(String::new(alloc)),
    }
}

/// Of the paths that weigh most the one with more tokens is chosen, then the one with the lesser text.
const CHOICES: [(&str, &[&str], &str); 4] = [
    (
        "{\"body\":{\"$.item1.level\":{\"matchers\":[{\"match\":\"type\"}]},\"$.item1.level[*]\":{\"matchers\":[{\"match\":\"type\"}]},\"$.*.level[*].id\":{\"matchers\":[{\"match\":\"type\"}]}}}",
        &["item1", "level", "1", "id"],
        "$[*].level[*].id",
    ),
    (
        "{\"body\":{\"$.item1.level\":{\"matchers\":[{\"match\":\"type\"}]},\"$.*.level[*].id\":{\"matchers\":[{\"match\":\"type\"}]},\"$.item1.level[1]\":{\"matchers\":[{\"match\":\"type\"}]}}}",
        &["item1", "level", "1", "id"],
        "$.item1.level[1]",
    ),
    (
        "{\"body\":{\"$.*.b\":{\"matchers\":[{\"match\":\"type\"}]},\"$.a.*\":{\"matchers\":[{\"match\":\"type\"}]}}}",
        &["a", "b"],
        "$.a[*]",
    ),
    (
        "{\"body\":{\"$.item2\":{\"matchers\":[{\"match\":\"type\"}]}}}",
        &["item1"],
        "",
    ),
];

#[test]
fn choices(rt: HostRuntime) -> Result<(), Fail> {
    for (rules, words, wanted) in CHOICES {
        let text = path_chosen(rt.alloc(), rules, words)?;
        assert_eq!(rt; text.as_str(), wanted);
    }
    Ok(())
}

const ALONG: &str =
    "{\"body\":{\"$.item1.level\":{\"matchers\":[{\"match\":\"type\"}]},\"$.item1.level[*]\":{\"matchers\":[{\"match\":\"type\"}]},\"$.*.level[*].id\":{\"matchers\":[{\"match\":\"type\"}]}}}";

/// The walk after the step of this word.
fn stepped(alloc: Global, table: &RuleTable, alive: &Alive, word: &str) -> Result<Alive, Fail>
    requires { WasStarted table.now alive.now }
    ensures { IfOk result (WasStarted table.now) }
{
    let step = match word.parse::<u64>() {
        Ok(index) => Step::Index(index),
        Err(_) => Step::Key(String::from_str(alloc, word)?),
    };
    Ok(alive.step(alloc, table, &step)?)
}

/// What the walk chooses after these steps: the path, and true if it ends here.
fn seen(alloc: Global, table: &RuleTable, alive: &Alive) -> Result<String, Fail>
    requires { WasStarted table.now alive.now }
{
    let own = alive.own_place(table);
    match alive.chosen(table) {
        Some(index) => {
            let path = table.path(index).text(alloc)?;
            Ok(format!(in alloc; "{path} {own}")?)
        },
        None => Ok(format!(in alloc; "none {own}")?),
    }
}

/// The rule that a walk chooses is that of `choose` at the steps taken.
#[test]
fn walk(rt: HostRuntime) -> Result<(), Fail> {
    let alloc = rt.alloc();
    let table = table(alloc, ALONG)?;
    let root = table.start(alloc)?;
    assert_eq!(rt; seen(alloc, &table, &root)?.as_str(), "none false");
    let item = stepped(alloc, &table, &root, "item1")?;
    assert_eq!(rt; seen(alloc, &table, &item)?.as_str(), "none false");
    let level = stepped(alloc, &table, &item, "level")?;
    assert_eq!(rt; seen(alloc, &table, &level)?.as_str(), "$.item1.level true");
    let first = stepped(alloc, &table, &level, "1")?;
    assert_eq!(rt;
        seen(alloc, &table, &first)?.as_str(),
        "$.item1.level[*] true"
    );
    let id = stepped(alloc, &table, &first, "id")?;
    assert_eq!(rt; seen(alloc, &table, &id)?.as_str(), "$[*].level[*].id true");
    let below = stepped(alloc, &table, &id, "x")?;
    assert_eq!(rt;
        seen(alloc, &table, &below)?.as_str(),
        "$[*].level[*].id false"
    );
    let other = stepped(alloc, &table, &root, "item2")?;
    assert_eq!(rt; seen(alloc, &table, &other)?.as_str(), "none false");
    Ok(())
}

/// The tree of a JSON text. A whole number may be beyond those that a JSON value of `serde_json` has.
fn tree_or_number(alloc: Global, text: &str) -> Result<Tree, Fail> {
    match text.parse::<i128>() {
        Ok(number) => Ok(Tree::Whole(number)),
        Err(_) => Ok(tree_in(alloc, text)??),
    }
}

/// Whether the matcher of the whole value in these rules holds; `None` if there is none.
fn is_held(
    alloc: Global,
    rules: &str,
    expected: &str,
    actual: &str,
    own_place: bool,
) -> Result<Option<bool>, Fail> {
    let table = table(alloc, rules)?;
    let Some(index) = table.choose(&[]) else {
        return Ok(None);
    };
    let Some(matcher) = table.entry(index).matchers.first() else {
        return Ok(None);
    };
    let example = tree_or_number(alloc, expected)?;
    let sent = tree_or_number(alloc, actual)?;
    Ok(Some(holds(alloc, matcher, &example, &sent, own_place)?))
}

const EQUALITY: &str = "{\"body\":{\"$\":{\"matchers\":[{\"match\":\"equality\"}]}}}";

const BOUNDED: &str =
    "{\"body\":{\"$\":{\"matchers\":[{\"match\":\"type\",\"min\":1,\"max\":2}]}}}";

const DIGITS: &str =
    "{\"body\":{\"$\":{\"matchers\":[{\"match\":\"regex\",\"regex\":\"^[0-9]+$\"}]}}}";

const PART: &str = "{\"body\":{\"$\":{\"matchers\":[{\"match\":\"include\",\"value\":\"ru\"}]}}}";

const DIGIT_PART: &str =
    "{\"body\":{\"$\":{\"matchers\":[{\"match\":\"include\",\"value\":\"9551616\"}]}}}";

const INTEGER: &str = "{\"body\":{\"$\":{\"matchers\":[{\"match\":\"integer\"}]}}}";

const IS_NULL: &str = "{\"body\":{\"$\":{\"matchers\":[{\"match\":\"null\"}]}}}";

/// The rules, the expected and the actual value, whether the place is the matcher's own, and whether it holds.
const MATCHERS: [(&str, &str, &str, bool, bool); 31] = [
    (EQUALITY, "1", "1", true, true),
    (EQUALITY, "1", "2", true, false),
    (EQUALITY, "[1]", "[2]", true, true),
    (EQUALITY, "[1]", "[]", true, false),
    (EQUALITY, "{\"a\":1}", "{\"b\":1}", true, false),
    (BOUNDED, "[1]", "[]", true, false),
    (BOUNDED, "[1]", "[]", false, true),
    (BOUNDED, "[1]", "[1,2,3]", true, false),
    (BOUNDED, "[1]", "[1,2]", true, true),
    (BOUNDED, "1", "\"a\"", true, false),
    (DIGITS, "1", "12", true, true),
    (DIGITS, "1", "\"12\"", true, true),
    (DIGITS, "1", "null", true, false),
    (DIGITS, "1", "\"1a\"", true, false),
    (PART, "1", "true", true, true),
    (PART, "1", "false", true, false),
    (PART, "1", "[\"ru\"]", true, false),
    (INTEGER, "1", "7", true, true),
    (INTEGER, "1", "\"7\"", true, false),
    (IS_NULL, "1", "null", true, true),
    (IS_NULL, "1", "0", true, false),
    (
        EQUALITY,
        "18446744073709551616",
        "18446744073709551616",
        true,
        true,
    ),
    (
        EQUALITY,
        "18446744073709551616",
        "18446744073709551617",
        true,
        false,
    ),
    (BOUNDED, "1", "18446744073709551616", true, true),
    (BOUNDED, "[1]", "18446744073709551616", true, false),
    (DIGITS, "1", "18446744073709551616", true, true),
    (DIGITS, "1", "-18446744073709551616", true, false),
    (DIGIT_PART, "1", "18446744073709551616", true, true),
    (DIGIT_PART, "18446744073709551616", "1", true, false),
    (INTEGER, "1", "-18446744073709551616", true, true),
    (IS_NULL, "1", "18446744073709551616", true, false),
];

#[test]
fn matchers(rt: HostRuntime) -> Result<(), Fail> {
    for (rules, expected, actual, own_place, wanted) in MATCHERS {
        let held = is_held(rt.alloc(), rules, expected, actual, own_place)?;
        assert!(rt; held == Some(wanted), "{expected} {actual}");
    }
    Ok(())
}

/// The keys from a least length out to the table, without a key if it is a list.
const LEAST: [&str; 5] = ["min", "", "matchers", "$", "body"];

/// The rules that have a number within these keys, the innermost first.
fn rules_around(alloc: Global, number: i128, keys: &[&str]) -> Result<Tree, Fail> {
    let mut rules = Tree::Whole(number);
    for key in keys {
        if key.is_empty() {
            rules = Tree::List(vec![in alloc; rules]?);
        } else {
            let mut members = BTreeMap::new(alloc);
            drop(members.insert(String::from_str(alloc, key)?, rules)?);
            rules = Tree::Object(members);
        }
    }
    Ok(rules)
}

/// Numbers, the keys around them, and why there is no table: a bound is from 0 to 2^64 - 1, and where none is asked
/// for a number of any size is no matter.
const BOUNDS: [(i128, &[&str], &str); 7] = [
    (0, &LEAST, ""),
    (18446744073709551615, &LEAST, ""),
    (18446744073709551616, &LEAST, "bound"),
    (36893488147419103232, &LEAST, "bound"),
    (-9223372036854775809, &LEAST, "bound"),
    (18446744073709551616, &["query"], ""),
    (18446744073709551616, &["body"], "form"),
];

#[test]
fn bounds(rt: HostRuntime) -> Result<(), Fail> {
    for (number, keys, wanted) in BOUNDS {
        let rules = rules_around(rt.alloc(), number, keys)?;
        let fault = match RuleTable::read(rt.alloc(), &rules) {
            Ok(_) => "",
            Err(RuleFault::BadBound) => "bound",
            Err(RuleFault::Form) => "form",
            Err(_) => "another",
        };
        assert_eq!(rt; fault, wanted, "{number}");
    }
    Ok(())
}
