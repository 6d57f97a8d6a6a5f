ghost use Rattle.std.specs.Prelude.{◌≡◌, ◌-◌, ◌^◌, ◌≤◌, IfSome};
ghost use Rattle.std.specs.Char.{is_ascii_digit};
ghost use Rattle.std.specs.List.{list_all};
ghost use Rattle.anti_ids.specs.Decimals.{decimal_in};
ghost use Rattle.anti_ids.specs.inner.Numerals.{is_numeral};

// Whether each byte is a digit.
fn all_digits(text: &[u8]) -> bool
    ensures { result ≡ list_all is_ascii_digit text.now }
{
    text.iter().all(|b| b.is_ascii_digit())
}

// Whether a text is digits, the first of which is no zero unless it stands alone.
fn is_numeral(text: &[u8]) -> bool
    ensures { result ≡ is_numeral text.now }
{
    match text {
        [] => false,
        [digit] => digit.is_ascii_digit(),
        [b'0', ..] => false,
        _ => all_digits(text),
    }
}

// The number that a text is in decimal.
fn number_of(text: &[u8]) -> Option<u64>
    ensures { result ≡ decimal_in 0 (2 ^ 64 - 1) text.now }
{
    if !is_numeral(text) {
        return None;
    }
    match std::str::from_utf8(text) {
        Ok(digits) => digits.parse().ok(),
        Err(_) => None,
    }
}

/// The number from `least` to `most` that a text is in decimal, without a sign and without a zero that it does not need.
pub fn read_decimal(text: &[u8], least: u64, most: u64) -> Option<u64>
    ensures number { result ≡ decimal_in least most text.now }
    ensures range { IfSome result (λ number. (least ≤ number) × (number ≤ most)) }
{
    let number = number_of(text)?;
    if least <= number && number <= most {
        Some(number)
    } else {
        None
    }
}
