//! The weight of a pattern: about how many steps a search for it may take at each byte of a text.

ghost use Rattle.std.specs.Prelude.{◌≡◌};
ghost use Rattle.std.specs.List.{fold};
ghost use Rattle.pact_patterns.specs.Weights.{may_be_long as may_be_long_of, times as times_of};
ghost use Rattle.pact_patterns.specs.Weights.{names_class as names_class_of, counted as counted_of};
ghost use Rattle.pact_patterns.specs.Weights.{closed as closed_of, weighed as weighed_of, at_first, found, weight as weight_of};

/// Nothing is counted beyond this.
const MOST: u64 = 1_000_000_000;

/// What a search counts by itself.
const AT_FIRST: u64 = 8;

/// How many times as much a pattern counts that names a large class.
const TIMES_WIDE: u64 = 4;

/// How far the text of a pattern was weighed.
#[derive(Clone, Copy)]
pub(crate) struct Weighing {
    total: u64,
    /// The numbers in the braces that the text is in, but for the last one.
    sum: u64,
    number: u64,
    before: u8,
    is_inside: bool,
    is_long: bool,
    is_wide: bool,
}

/// The weight of a pattern, computed from its text: no less than how many places the pattern has with its
/// repetitions written out, up to a billion. (This project's own choice.)
pub fn weight(source: &str) -> u64
    ensures { result ≡ weight_of source.now }
{
    found_of(weighed_whole(source.as_bytes()))
}

fn found_of(weighing: Weighing) -> u64
    ensures { result ≡ found weighing }
{
    if weighing.is_wide {
        weighing.total.saturating_mul(TIMES_WIDE).min(MOST)
    } else {
        weighing.total
    }
}

fn weighed_whole(source: &[u8]) -> Weighing
    ensures { result ≡ fold weighed_of at_first source.now }
{
    let mut weighing = first();
    for byte in source {
        weighing = weighed(weighing, *byte);
    }
    weighing
}

fn first() -> Weighing
    ensures { result ≡ at_first }
{
    Weighing {
        total: AT_FIRST,
        sum: 0,
        number: 0,
        before: 0,
        is_inside: false,
        is_long: false,
        is_wide: false,
    }
}

/// One byte more.
fn weighed(weighing: Weighing, byte: u8) -> Weighing
    ensures { result ≡ weighed_of weighing byte }
{
    let is_wide = weighing.is_wide || names_class(weighing.before, byte);
    let counted = counted(weighing, byte);
    Weighing {
        is_wide,
        before: byte,
        ..counted
    }
}

fn counted(weighing: Weighing, byte: u8) -> Weighing
    ensures { result ≡ counted_of weighing byte }
{
    let total = weighing.total.saturating_add(1).min(MOST);
    if byte == b'{' {
        return opened(weighing);
    }
    if byte >= b'0' && byte <= b'9' {
        let digit = (byte - b'0') as u64;
        let number = weighing
            .number
            .saturating_mul(10)
            .saturating_add(digit)
            .min(MOST);
        return Weighing {
            total,
            number,
            ..weighing
        };
    }
    if byte == b'}' && weighing.is_inside {
        return closed(weighing);
    }
    let sum = weighing.sum.saturating_add(weighing.number).min(MOST);
    Weighing {
        total,
        sum,
        number: 0,
        ..weighing
    }
}

/// At an opening brace.
fn opened(weighing: Weighing) -> Weighing
    ensures { result ≡ counted_of weighing 123 }
{
    let sum = if weighing.is_inside {
        weighing.sum.saturating_add(weighing.number).min(MOST)
    } else {
        0
    };
    let is_long = weighing.is_long || may_be_long(weighing.before);
    Weighing {
        total: weighing.total.saturating_add(1).min(MOST),
        sum,
        number: 0,
        is_inside: true,
        is_long,
        ..weighing
    }
}

/// At a closing brace.
fn closed(weighing: Weighing) -> Weighing
    ensures { result ≡ closed_of weighing }
{
    let times = times(weighing);
    let total = if weighing.is_long {
        weighing.total.saturating_mul(times)
    } else {
        weighing.total.saturating_add(times)
    };
    Weighing {
        total: total.min(MOST),
        sum: 0,
        number: 0,
        is_inside: false,
        is_long: false,
        ..weighing
    }
}

fn times(weighing: Weighing) -> u64
    ensures { result ≡ times_of weighing }
{
    weighing
        .sum
        .saturating_add(weighing.number)
        .saturating_add(1)
        .min(MOST)
}

fn may_be_long(byte: u8) -> bool
    ensures { result ≡ may_be_long_of byte }
{
    byte <= b' ' || byte == b')' || byte == b'}' || byte == b'*' || byte == b'+' || byte == b'?'
}

fn names_class(before: u8, byte: u8) -> bool
    ensures { result ≡ names_class_of before byte }
{
    before == b'\\' && (byte == b'p' || byte == b'P')
}
