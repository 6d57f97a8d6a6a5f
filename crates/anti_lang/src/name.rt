ghost use Rattle.std.specs.Prelude.{◌≡◌};
ghost use Rattle.std.specs.Bool.{then_some};
ghost use Rattle.anti_ids.specs.Names.{is_name};
ghost use Rattle.anti_lang.specs.Texts.{plain_name};

use anti_ids::Name;

/// The name that a text is: 1 to 32 ASCII letters, digits, `_`, `-` and `#`.
pub fn any_name(text: &[u8]) -> Option<Name>
    ensures { result ≡ then_some (is_name text.now) text.now }
{
    match Name::new(text) {
        Ok(name) => Some(name),
        Err(_) => None,
    }
}

/// The name that a text is, where it is plain: 1 to 24 ASCII letters, digits, `_` and `-`.
pub fn plain_name(text: &[u8]) -> Option<Name>
    ensures { result ≡ plain_name text.now }
{
    match Name::new(text) {
        Ok(name) => name.plain().then_some(name),
        Err(_) => None,
    }
}
