// Short numbers.
ghost use Rattle.std.specs.Prelude.{◌≡◌, ◌≤◌, ◌<◌};
ghost use Rattle.app_words.specs.Numbers.{number_of};

/// The number that a text of at most `most` digits and nothing else writes.
pub(crate) fn number(text: &str, most: usize) -> Option<u32>
    requires { most ≤ 4 }
    ensures { result ≡ number_of most text.now }
{
    let digits = text.as_bytes();
    if digits.is_empty() || most < digits.len() {
        return None;
    }
    let mut value: u32 = 0;
    for digit in digits {
        if !digit.is_ascii_digit() {
            return None;
        }
        value = value * 10 + (*digit - b'0') as u32;
    }
    Some(value)
}
