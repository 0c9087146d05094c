//! The head text at the front of a stream.
ghost use Rattle.std.specs.Prelude.{◌≡◌, ◌+◌, ◌<◌, ◌≤◌, List, [], ◌∷◌, length, take, drop, IfSome, IfNone, Some, None};
ghost use Rattle.http_messages.specs.Lines.{lines_of, is_empty_line, head_text, from_first};

const LINE_FEED: u8 = b'\n';

const CARRIAGE_RETURN: u8 = b'\r';

/// Whether nothing, or only a carriage return, is before the line feed.
fn is_empty_line(line: &[u8]) -> bool
    ensures { result ≡ is_empty_line line.now }
{
    match line {
        [a] => *a == LINE_FEED,
        [a, b] => *a == CARRIAGE_RETURN && *b == LINE_FEED,
        _ => false,
    }
}

/// The length of the first line, with its line feed.
fn line_len(bytes: &[u8]) -> Option<usize>
    ensures within { IfSome result (λ n. (0 < n) × (n ≤ length bytes.now)) }
    ensures found { IfSome result (λ n. lines_of bytes.now ≡ take n bytes.now ∷ lines_of (drop n bytes.now)) }
    ensures none { IfNone result (lines_of bytes.now ≡ []) }
{
    for (i, b) in bytes.iter().enumerate() {
        if *b == LINE_FEED {
            return Some(i + 1);
        }
    }
    None
}

/// The length of the head text at the front.
pub(crate) fn head_len(bytes: &[u8]) -> Option<usize>
    ensures within { IfSome result (λ n. n ≤ length bytes.now) }
    ensures found { IfSome result (λ n. head_text bytes.now ≡ Some (take n bytes.now)) }
    ensures none { IfNone result (head_text bytes.now ≡ None) }
{
    let mut end = 0;
    let mut started = false;
    while let Some(len) = line_len(&bytes[end..]) {
        let line_start = end;
        end += len;
        if !is_empty_line(&bytes[line_start..end]) {
            started = true;
        } else if started {
            return Some(end);
        }
    }
    None
}

/// How many lines there are from the first that isn't empty.
pub(crate) fn line_count(bytes: &[u8]) -> usize
    ensures { result ≡ length (from_first (lines_of bytes.now)) }
{
    let mut end = 0;
    let mut count = 0;
    while let Some(len) = line_len(&bytes[end..]) {
        let line_start = end;
        end += len;
        if count > 0 || !is_empty_line(&bytes[line_start..end]) {
            count += 1;
        }
    }
    count
}
