//! The characters of a line in UTF-8: how many bytes they have, and how many columns.
ghost use Rattle.std.specs.Prelude.{◌≡◌, ◌≤◌, length};
ghost use Rattle.std.specs.List.{prefix_len, suffix_len};
ghost use Rattle.console_terminal.specs.Editing.{begins_inner, columns, first_size, is_inner, last_size};

// Whether a byte is one of a character that is not its first.
fn is_inner(byte: u8) -> bool
    ensures { result ≡ is_inner byte }
{
    byte / 64 == 2
}

/// Whether some bytes begin amid a character.
pub(crate) fn begins_inner(bytes: &[u8]) -> bool
    ensures { result ≡ begins_inner bytes.now }
{
    match bytes {
        [byte, ..] => is_inner(*byte),
        [] => false,
    }
}

/// How many bytes the first character has; 0 if there is none.
pub(crate) fn first_size(bytes: &[u8]) -> usize
    ensures size { result ≡ first_size bytes.now }
    ensures within { result ≤ length bytes.now }
{
    match bytes {
        [_, rest @ ..] => inner_before(rest) + 1,
        [] => 0,
    }
}

/// How many bytes the last character has; 0 if there is none.
pub(crate) fn last_size(bytes: &[u8]) -> usize
    ensures size { result ≡ last_size bytes.now }
    ensures within { result ≤ length bytes.now }
{
    (inner_after(bytes) + 1).min(bytes.len())
}

// With how many inner bytes they begin.
fn inner_before(bytes: &[u8]) -> usize
    ensures within { result ≤ length bytes.now }
    ensures exact { result ≡ prefix_len is_inner bytes.now }
{
    bytes.iter().take_while(|byte| **byte / 64 == 2).count()
}

// With how many inner bytes they end.
fn inner_after(bytes: &[u8]) -> usize
    ensures within { result ≤ length bytes.now }
    ensures exact { result ≡ suffix_len is_inner bytes.now }
{
    bytes
        .iter()
        .rev()
        .take_while(|byte| **byte / 64 == 2)
        .count()
}

/// How many columns they have on a screen.
pub(crate) fn columns(bytes: &[u8]) -> usize
    ensures exact { result ≡ columns bytes.now }
    ensures within { result ≤ length bytes.now }
{
    let mut count = 0;
    let mut rest = bytes;
    'columns: while let [byte, after @ ..] = rest {
        if !is_inner(*byte) {
            count += 1;
        }
        rest = after;
    }
    count
}
