ghost use Rattle.std.specs.Prelude.{◌≡◌, true};
ghost use Rattle.script.specs.Shapes.{plain, all_of, word, number, quoted, value};

// Whether each byte may stand between two quotes: 0x20 to 0x7E but for the quote.
fn are_plain(bytes: &[u8]) -> bool
    ensures { result ≡ all_of plain bytes.now }
{
    bytes
        .iter()
        .all(|byte| matches!(*byte, b' '..=b'~') && *byte != b'"')
}

// Whether a token is a word: 1 to 8 lowercase letters.
pub(crate) fn is_word(token: &[u8]) -> bool
    ensures { result ≡ word token.now }
{
    (1..=8).contains(&token.len()) && token.iter().all(|byte| byte.is_ascii_lowercase())
}

// Whether a token is a number: 1 to 10 digits. Two functions, since a shared one would take both the range and the test
// of a line.
pub(crate) fn is_number(token: &[u8]) -> bool
    ensures { result ≡ number token.now }
{
    (1..=10).contains(&token.len()) && token.iter().all(|byte| byte.is_ascii_digit())
}

// Whether a token is a quoted text: 1 to 256 plain bytes between two quotes.
pub(crate) fn is_quoted(token: &[u8]) -> bool
    ensures { result ≡ quoted token.now }
{
    match token {
        [b'"', inner @ .., b'"'] => (1..=256).contains(&inner.len()) && are_plain(inner),
        _ => false,
    }
}

// The number that a token of digits writes. A loop, since the closure of a `fold` cannot show that the sum has a bound.
pub(crate) fn number_value(token: &[u8]) -> usize
    requires { number token.now ≡ true }
    ensures { result ≡ value 0 token.now }
{
    let mut written = 0;
    for byte in token {
        written = written * 10 + (*byte - b'0') as usize;
    }
    written
}
