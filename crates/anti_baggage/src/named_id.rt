ghost use Rattle.std.specs.Prelude.{◌≡◌, ◌==◌, position};
ghost use Rattle.std.specs.Bool.{then_some};
ghost use Rattle.std.specs.List.{before_first, after_first};
ghost use Rattle.std.specs.Option.{option_map};
ghost use Rattle.percent_encoding.specs.Percent.{percent_decode};
ghost use Rattle.anti_ids.specs.Names.{is_name};
ghost use Rattle.anti_baggage.specs.Reading.{keyed_in, name_in, named_in, version_in};
ghost use Rattle.anti_baggage.specs.Steps.{as_named};

use crate::escapes::is_escaped;
use anti_ids::{GREATEST_VERSION, LONGEST_NAME, Name, read_decimal};
use percent_encoding::percent_decode;

/// What a text says that is an id: a store by its name, a key and a version.
#[derive(Clone, Copy)]
pub struct Named {
    pub store: Name,
    pub key: Name,
    pub version: u64,
}

// The name that a text is once its escapes are replaced.
fn decoded(text: &[u8]) -> Option<Name>
    ensures { let name = percent_decode text.now in result ≡ then_some (is_name name) name }
{
    let mut bytes = [0; LONGEST_NAME];
    let mut len = 0;
    for byte in percent_decode(text) {
        if len == LONGEST_NAME {
            return None;
        }
        bytes[len] = byte;
        len += 1;
    }
    Name::new(&bytes[..len]).ok()
}

// The name of which a text is the escaped form.
fn name_in(text: &[u8]) -> Option<Name>
    ensures { result ≡ name_in text.now }
{
    let name = decoded(text)?;
    if is_escaped(name.bytes(), text) {
        Some(name)
    } else {
        None
    }
}

// The version that a text is.
fn version_in(text: &[u8]) -> Option<u64>
    ensures { result ≡ version_in text.now }
{
    read_decimal(text, 1, GREATEST_VERSION)
}

// Where a mark stands first.
fn place_of(text: &[u8], mark: u8) -> Option<usize>
    ensures { result ≡ position (λ b. b == mark) text.now }
{
    text.iter().position(|b| *b == mark)
}

// What stands before the first mark, and what stands behind it: the whole text and nothing, where there is none.
fn cut(text: &[u8], mark: u8) -> (&[u8], &[u8])
    ensures before { result.0.now ≡ before_first (λ b. b == mark) text.now }
    ensures behind { result.1.now ≡ after_first (λ b. b == mark) text.now }
{
    match place_of(text, mark) {
        Some(at) => (&text[..at], &text[at + 1..]),
        None => (text, &[]),
    }
}

/// Reads a key, `@` and a version.
pub fn keyed_in(text: &[u8]) -> Option<(Name, u64)>
    ensures { result ≡ keyed_in text.now }
{
    let (key, version) = cut(text, b'@');
    let Some(key) = name_in(key) else {
        return None;
    };
    let Some(version) = version_in(version) else {
        return None;
    };
    Some((key, version))
}

/// Reads a store, a slash, a key, `@` and a version.
pub fn named_in(text: &[u8]) -> Option<Named>
    ensures { option_map as_named result ≡ named_in text.now }
{
    let (store, rest) = cut(text, b'/');
    let Some(store) = name_in(store) else {
        return None;
    };
    let Some((key, version)) = keyed_in(rest) else {
        return None;
    };
    Some(Named {
        store,
        key,
        version,
    })
}
