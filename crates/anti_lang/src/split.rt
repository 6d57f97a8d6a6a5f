ghost use Rattle.std.specs.Prelude.{◌≡◌, IfOk, map};
ghost use Rattle.anti_lang.specs.Words.{words};
ghost use Rattle.anti_lang.specs.Printing.{spaced};

use anti_ids::{Bytes, NoMemory};
use std::alloc::Global;

/// The words of a text: what stands between spaces, of which there may be any number, also before the first word and behind the last.
/// No other byte is a space.
pub fn words(alloc: Global, text: &[u8]) -> Result<Vec<&[u8]>, NoMemory>
    ensures { IfOk result (λ found. map (λ word. word.now) found.items ≡ words text.now) }
{
    let found = text
        .split(|b| *b == b' ')
        .filter(|word| !word.is_empty())
        .collect(alloc)?;
    Ok(found)
}

/// The words with one space between.
pub(crate) fn spaced(alloc: Global, words: &[&[u8]]) -> Result<Bytes, NoMemory>
    ensures { IfOk result (λ text. text.items ≡ spaced (map (λ word. word.now) words.now)) }
{
    let mut text = Bytes::new(alloc);
    let mut rest = words;
    while let [word, later @ ..] = rest {
        text.append(word)?;
        if !later.is_empty() {
            text.append(b" ")?;
        }
        rest = later;
    }
    Ok(text)
}
