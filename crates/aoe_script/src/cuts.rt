//! Places in a text, and what stands behind them.
ghost use Rattle.std.specs.Prelude.{◌≡◌, ◌==◌, ◌≤◌, drop, length, not, position};
ghost use Rattle.std.specs.List.{position_or_len};

/// Where the byte stands first.
fn place_of(text: &[u8], byte: u8) -> Option<usize>
    ensures { result ≡ position (λ c. c == byte) text.now }
{
    text.iter().position(|other| *other == byte)
}

/// Where another byte stands first.
fn place_of_other(text: &[u8], byte: u8) -> Option<usize>
    ensures { result ≡ position (λ c. not (c == byte)) text.now }
{
    text.iter().position(|other| *other != byte)
}

/// How many bytes stand before the first of this value; all of them where there is none.
pub(crate) fn until(text: &[u8], byte: u8) -> usize
    ensures place { result ≡ position_or_len (λ c. c == byte) text.now }
    ensures within { result ≤ length text.now }
{
    place_of(text, byte).unwrap_or(text.len())
}

/// How many bytes of this value stand at the front.
pub fn run(text: &[u8], byte: u8) -> usize
    ensures place { result ≡ position_or_len (λ c. not (c == byte)) text.now }
    ensures within { result ≤ length text.now }
{
    place_of_other(text, byte).unwrap_or(text.len())
}

/// What stands from a place on.
pub fn from(text: &[u8], at: usize) -> &[u8]
    requires { at ≤ length text.now }
    ensures { result.now ≡ drop at text.now }
{
    &text[at..]
}
