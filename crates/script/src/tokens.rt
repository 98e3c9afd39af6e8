ghost use Rattle.std.specs.Prelude.{◌≡◌, ◌≤◌, not, length, IfSome};
ghost use Rattle.std.specs.List.{position_or_len};
ghost use Rattle.script.specs.Firsts.{begun};
ghost use Rattle.script.specs.Stretches.{Inside};
ghost use Rattle.script.specs.Tokens.{is_space, ends, turned, tokens_from};

use super::stretch::Stretch;

// Whether a token ends before the byte.
fn ends_token(quoted: bool, byte: u8) -> bool
    ensures { result ≡ ends quoted byte }
{
    byte == b' ' && !quoted
}

// Whether a quote is open behind the byte.
fn turn(quoted: bool, byte: u8) -> bool
    ensures { result ≡ turned quoted byte }
{
    if byte == b'"' { !quoted } else { quoted }
}

// How many spaces stand before the first other byte.
fn len_of_blanks(rest: &[u8]) -> usize
    ensures place { result ≡ position_or_len (λ byte. not (is_space byte)) rest.now }
    ensures bound { result ≤ length rest.now }
{
    rest.iter()
        .position(|byte| *byte != b' ')
        .unwrap_or(rest.len())
}

// The first token of `text` from the place `from` on.
pub(crate) fn token_at(text: &[u8], from: usize) -> Option<Stretch>
    ensures first { tokens_from from text.now ≡ begun result (λ token. tokens_from token.end text.now) }
    ensures inside { IfSome result (λ token. Inside token text.now) }
{
    let start = from + len_of_blanks(text.get(from..)?);
    if start == text.len() {
        return None;
    }
    let rest = &text[start..];
    // A loop, since whether a quote is open is carried from byte to byte.
    let mut quoted = false;
    for (i, byte) in rest.iter().enumerate() {
        if ends_token(quoted, *byte) {
            return Some(Stretch {
                start,
                end: start + i,
            });
        }
        quoted = turn(quoted, *byte);
    }
    Some(Stretch {
        start,
        end: text.len(),
    })
}
