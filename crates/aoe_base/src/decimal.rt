//! Decimal numbers.
ghost use Rattle.std.specs.Prelude.{◌≡◌, ◌≤◌, length, Some, None, if◌then◌else◌};
ghost use Rattle.std.specs.List.{list_all};
ghost use Rattle.std.specs.Char.{is_ascii_digit};
ghost use Rattle.aoe_base.specs.Decimal.{decimal_value, number_of};

/// The most digits that are read: enough for every `u64`.
const MOST_DIGITS: usize = 20;

/// The value of the digits, where all of the bytes are digits.
fn value_of(text: &[u8]) -> Option<u128>
    requires { length text.now ≤ 20 }
    ensures { result ≡ (if list_all is_ascii_digit text.now then Some
        (decimal_value text.now) else None) }
{
    let mut value = 0u128;
    for digit in text {
        if !digit.is_ascii_digit() {
            return None;
        }
        value = value * 10 + u128::from(*digit - b'0');
    }
    Some(value)
}

/// The number that 1 to 20 decimal digits spell, where it is at most `max`. Leading zeros are
/// digits like the others; a sign or a space is none.
pub fn read_number(text: &[u8], max: u64) -> Option<u64>
    ensures { result ≡ number_of text.now max }
{
    if text.is_empty() || text.len() > MOST_DIGITS {
        return None;
    }
    let value = value_of(text)?;
    if value > u128::from(max) {
        return None;
    }
    Some(value as u64)
}
