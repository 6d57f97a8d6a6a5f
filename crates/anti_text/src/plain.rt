ghost use Rattle.std.specs.Prelude.{◌≡◌, IsTrue};
ghost use Rattle.anti_baggage.specs.Escapes.{escaped, is_unreserved};

// Whether a byte is an ASCII letter, a digit, `-`, `.`, `_` or `~`.
fn is_unreserved(byte: u8) -> bool
    ensures { result ≡ is_unreserved byte }
{
    byte.is_ascii_alphanumeric() || matches!(byte, b'-' | b'.' | b'_' | b'~')
}

/// Whether bytes are their own escaped form, as those of most names are.
pub fn is_plain(bytes: &[u8]) -> bool
    ensures { IsTrue result → escaped bytes.now ≡ bytes.now }
{
    for byte in bytes {
        if !is_unreserved(*byte) {
            return false;
        }
    }
    true
}
