ghost use Rattle.std.specs.Prelude.{◌≡◌, ◌≤◌, ℕ, length, take, OnOk, OnErr, IsOk, IsTrue};
ghost use Rattle.std.specs.Str.{bytes_eq};
ghost use Rattle.anti_ids.specs.ListCalls.{extended};
ghost use Rattle.anti_baggage.specs.Escapes.{is_unreserved, escaped_byte, escaped};

use anti_ids::{List, NoMemory};
use percent_encoding::percent_encode_byte;
use std::slice;

// Whether a byte is an ASCII letter, a digit, `-`, `.`, `_` or `~`.
fn is_unreserved(byte: u8) -> bool
    ensures { result ≡ is_unreserved byte }
{
    byte.is_ascii_alphanumeric() || matches!(byte, b'-' | b'.' | b'_' | b'~')
}

// Whether each byte is unreserved, as those of most names are.
fn is_plain(bytes: &[u8]) -> bool
    ensures { IsTrue result → escaped bytes.now ≡ bytes.now }
{
    for byte in bytes {
        if !is_unreserved(*byte) {
            return false;
        }
    }
    true
}

// A byte as it is printed: itself, or escaped where it is not unreserved.
fn escaped_byte(byte: &u8) -> &[u8]
    ensures { result.now ≡ escaped_byte byte.now }
{
    if is_unreserved(*byte) {
        slice::from_ref(byte)
    } else {
        percent_encode_byte(*byte).as_bytes()
    }
}

/// Adds bytes at the end, each that is not unreserved escaped (RFC 3986, section 2). Where memory runs out, a front of the
/// bytes is added.
pub fn escape(out: &mut List<u8>, bytes: &[u8]) -> Result<(), NoMemory>
    ensures ok { OnOk result (out.new ≡ extended out.old (escaped bytes.now) (length (escaped bytes.now))) }
    ensures err { OnErr result ((count : ℕ) × (out.new ≡ extended out.old (escaped (take count bytes.now)) (length (escaped (take count bytes.now))))) }
    ensures spare { out.new.spare ≤ out.old.spare }
    ensures room { length (escaped bytes.now) ≤ out.old.spare → IsOk result }
{
    if is_plain(bytes) {
        return out.append(bytes);
    }
    for byte in bytes {
        out.append(escaped_byte(byte))?;
    }
    Ok(())
}

/// Whether a text is the escaped form of bytes. It takes no memory.
pub fn is_escaped(bytes: &[u8], text: &[u8]) -> bool
    ensures { result ≡ bytes_eq (escaped bytes.now) text.now }
{
    if is_plain(bytes) {
        return bytes == text;
    }
    let mut rest = text;
    for byte in bytes {
        match rest.strip_prefix(escaped_byte(byte)) {
            Some(behind) => rest = behind,
            None => return false,
        }
    }
    rest.is_empty()
}
