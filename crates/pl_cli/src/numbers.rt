//! Numbers among the words of a command line.
ghost use Rattle.pl_cli.specs.Numbers.{IsCountOf, IsNumberOf};

use itoa::Buffer;

/// The most rounds of a generated capture.
const MOST_ROUNDS: u64 = 1_000_000;

/// The number up to 2^64 - 1 that a word spells: decimal digits without a sign or a leading zero.
/// None for other words.
pub(crate) fn number(word: &str) -> Option<u64>
    ensures { IsNumberOf word.now result }
{
    match word.parse::<u64>() {
        Ok(number) => {
            if Buffer::new().format(number) == word {
                Some(number)
            } else {
                None
            }
        }
        Err(_) => None,
    }
}

/// The count of rounds that a word spells, 1 to 1,000,000. None for other words.
pub(crate) fn count(word: &str) -> Option<u32>
    ensures { IsCountOf word.now result }
{
    match number(word) {
        Some(count) => {
            if 1 <= count && count <= MOST_ROUNDS {
                Some(count as u32)
            } else {
                None
            }
        }
        None => None,
    }
}
