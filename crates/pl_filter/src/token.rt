//! The tokens of the text of a filter: parentheses and words, which spaces part.
ghost use Rattle.std.specs.Prelude.{◌≡◌, ◌≢◌, ◌+◌, ◌≤◌, ◌<◌, ◌∷◌, [], IfNone, IfSome};
ghost use Rattle.std.specs.Prelude.{drop, length, slice_index};
ghost use Rattle.pl_filter.specs.Lexemes.{seen};
ghost use Rattle.pl_filter.specs.Reading.{run_length, tokens_at};
ghost use Rattle.pl_filter.specs.Reading as spec;
ghost use Rattle.pl_filter.specs.Tokens.{placed};

/// A token. A word is a longest run of bytes that are neither a space nor a parenthesis.
#[derive(Clone, Copy)]
pub(crate) enum Token<'a> {
    Open,
    Close,
    Word(&'a [u8]),
}

/// A token in its text.
#[derive(Clone, Copy)]
pub(crate) struct Found<'a> {
    pub(crate) token: Token<'a>,
    /// The place of its first byte.
    pub(crate) at: usize,
    /// The place behind its last byte.
    pub(crate) end: usize,
}

/// The next token of the text from this place on, or None where none is left.
pub(crate) fn next_token(text: &[u8], from: usize) -> Option<Found<'_>>
    requires { from ≤ length text.now }
    ensures none { IfNone result (tokens_at text.now from ≡ []) }
    ensures some { IfSome result (λ x.
        tokens_at text.now from ≡ placed x.at (seen x.token) ∷ tokens_at text.now x.end) }
    ensures within { IfSome result (λ x. x.end ≤ length text.now) }
{
    let at = spaces_end(text, from);
    if at == text.len() {
        return None;
    }
    Some(token_at(text, at))
}

/// The place of the first byte from this one on that is no space.
fn spaces_end(text: &[u8], from: usize) -> usize
    requires { from ≤ length text.now }
    ensures tokens { tokens_at text.now result ≡ tokens_at text.now from }
    ensures within { result ≤ length text.now }
    ensures stop { result < length text.now → slice_index text.now result ≢ 32 }
{
    let mut at = from;
    while at < text.len() && text[at] == b' ' {
        at += 1;
    }
    at
}

/// The token that begins at this byte, which is no space.
fn token_at(text: &[u8], at: usize) -> Found<'_>
    requires within { at < length text.now }
    requires no_space { slice_index text.now at ≢ 32 }
    ensures token { tokens_at text.now at
        ≡ placed result.at (seen result.token) ∷ tokens_at text.now result.end }
    ensures within { result.end ≤ length text.now }
{
    match text[at] {
        b'(' => Found {
            token: Token::Open,
            at,
            end: at + 1,
        },
        b')' => Found {
            token: Token::Close,
            at,
            end: at + 1,
        },
        _ => {
            let end = word_end(text, at + 1);
            Found {
                token: Token::Word(&text[at..end]),
                at,
                end,
            }
        }
    }
}

/// The place behind the word that goes on at this place.
fn word_end(text: &[u8], from: usize) -> usize
    requires { from ≤ length text.now }
    ensures run { result ≡ from + run_length (drop from text.now) }
    ensures within { result ≤ length text.now }
{
    let mut end = from;
    while end < text.len() && is_word_byte(text[end]) {
        end += 1;
    }
    end
}

fn is_word_byte(byte: u8) -> bool
    ensures { result ≡ spec.is_word_byte byte }
{
    !(byte == b' ' || byte == b'(' || byte == b')')
}
