ghost use Rattle.std.specs.Prelude.{◌≡◌, IsTrue};
ghost use Rattle.anti_ids.specs.Names.{is_plain};

use anti_ids::Name;
use anti_lang::plain_name;

/// The name that a text is.
pub fn name_of(text: &str) -> Name
    requires { IsTrue (is_plain text.now) }
    ensures { result ≡ text.now }
{
    match plain_name(text.as_bytes()) {
        Some(name) => name,
        // the text is plain
        None => unreachable!(),
    }
}
