ghost use Rattle.std.specs.Prelude.{◌≡◌, ℕ, ◌+◌, ◌∷◌, [], ◌++◌, length, IfOk, OnOk, IsTrue, List as Items};
ghost use Rattle.serde_json.specs.Written.{compact_text};
ghost use Rattle.anti_text.specs.Json.{text};
ghost use Rattle.anti_text.specs.inner.Quoting.{AreClear, IsClear};

use crate::output::Output;
use anti_ids::NoMemory;
use serde_json::Value;
use std::alloc::Global;

// Whether a byte stands in a JSON string as it is: printable ASCII but `"` and `\` (RFC 8259, section 7). It is told without a branch,
// so that many bytes are asked at once.
#[inline(always)]
fn is_clear(byte: u8) -> bool
    ensures { IsTrue result → IsClear byte }
{
    (byte >= b' ') & (byte < 127) & (byte != b'"') & (byte != b'\\')
}

// Whether all bytes do. It does not stop at the first that does not.
fn are_clear(bytes: &[u8]) -> bool
    ensures { IsTrue result → AreClear bytes.now }
{
    let mut clear = true;
    for byte in bytes {
        clear &= is_clear(*byte);
    }
    clear
}

// Text as a JSON string of its own.
#[tactic(auto, unfolding(crate::specs::Json::text))]
fn quoted(alloc: Global, said: &[u8]) -> Result<String, NoMemory>
    ensures { IfOk result (λ string. string.bytes.items ≡ compact_text (text said.now)) }
{
    let value = Value::from(String::from_utf8_lossy(alloc, said)?);
    Ok(value.to_string(alloc)?)
}

/// Adds some text, and other text as a JSON string behind it.
pub fn put_string(
    out: &mut Output,
    alloc: Global,
    before: &[u8],
    said: &[u8],
) -> Result<(), NoMemory>
    ensures { OnOk result (out.new ≡ out.old ++ before.now ++ compact_text (text said.now)) }
{
    if are_clear(said) {
        return out.put_all(&[before, b"\"", said, b"\""]);
    }
    let quoted = quoted(alloc, said)?;
    out.put_all(&[before, quoted.as_bytes()])
}

/// Adds some text and opens a JSON string behind it: what is then written is the string's text, until it is closed. Tells where that
/// begins.
pub fn open_string(out: &mut Output, before: &[u8]) -> Result<usize, NoMemory>
    ensures { IfOk result (λ begun. (out.new ≡ (out.old ++ before.now) ++ 34 ∷ [])
        × (begun ≡ length (out.old ++ before.now) + 1)) }
{
    out.put(before)?;
    out.put(b"\"")?;
    Ok(out.len())
}

/// Closes a JSON string of which the text begins at an index.
pub fn close_string(out: &mut Output, alloc: Global, begun: usize) -> Result<(), NoMemory>
    ensures { OnOk result ((front said : Items ℕ) → out.old ≡ (front ++ 34 ∷ []) ++ said → begun ≡ length front + 1
        → out.new ≡ front ++ compact_text (text said)) }
{
    let Some(said) = out.bytes().get(begun..) else {
        return Ok(());
    };
    if are_clear(said) {
        return out.put(b"\"");
    }
    let quoted = quoted(alloc, said)?;
    out.cut(begun.saturating_sub(1));
    out.put(quoted.as_bytes())
}
