//! The names in a path.
ghost use Rattle.std.specs.Prelude.{◌≡◌, get_or, [], ◌∷◌, option_map};
ghost use Rattle.pl_web.specs.Names.{is_name as is_name_text, is_name_byte as is_byte_of_name};
ghost use Rattle.pl_web.specs.Paths.{segments_behind, segments_of};

/// The most bytes of a name.
const LONGEST_NAME: usize = 64;

/// `a` to `z`, `0` to `9`, `_` and `-`.
fn is_name_byte(byte: u8) -> bool
    ensures { result ≡ is_byte_of_name byte }
{
    matches!(byte, b'a'..=b'z' | b'0'..=b'9' | b'_' | b'-')
}

/// Whether a bench, a profile or a capture may be called so: 1 to 64 of the characters `a` to `z`,
/// `0` to `9`, `_` and `-`.
pub fn is_name(text: &str) -> bool
    ensures { result ≡ is_name_text text.now }
{
    if text.is_empty() || text.len() > LONGEST_NAME {
        return false;
    }
    for byte in text.as_bytes() {
        if !is_name_byte(*byte) {
            return false;
        }
    }
    true
}

/// The text up to its first slash, and what follows the slash, if there is one.
#[tactic(auto, using(crate::proofs::Cuts::cuts))]
fn cut(text: &str) -> (&str, Option<&str>)
    ensures { segments_of text.now
        ≡ result.0.now ∷ segments_behind (option_map (λ rest. rest.now) result.1) }
{
    match text.split_once('/') {
        Some((first, rest)) => (first, Some(rest)),
        None => (text, None),
    }
}

/// The segment of a path at a place, counted from 0, or nothing behind the last. Before the slash
/// that a path begins with stands segment 0, which has no byte.
pub fn segment(path: &str, place: usize) -> &str
    ensures { result.now ≡ get_or (segments_of path.now) place [] }
{
    let mut text = path;
    let mut left = place;
    while left > 0 {
        match cut(text).1 {
            Some(rest) => text = rest,
            None => return "",
        }
        left -= 1;
    }
    cut(text).0
}
