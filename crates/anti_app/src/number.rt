ghost use Rattle.std.specs.Prelude.{◌≡◌};
ghost use Rattle.anti_app.specs.Chosen.{number_of};

use anti_ids::{MOST_COUNTED, read_decimal};

/// The number that a word is, of those that count from 1 in a choice.
#[tactic(auto, unfolding(crate::specs::Chosen::number_of))]
pub fn number_of(word: &[u8]) -> Option<u32>
    ensures { result ≡ number_of word.now }
{
    let number = read_decimal(word, 1, MOST_COUNTED as u64)?;
    Some(number as u32)
}
