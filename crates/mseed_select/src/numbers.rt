//! Numbers of a fixed number of digits, read from text.
ghost use Rattle.std.specs.Prelude.{◌≡◌, ◌≤◌, ◌<◌, ◌*◌, ◌-◌, ◌^◌, IsTrue, IfSome, length};
ghost use Rattle.mseed_select.specs.Word.{are_digits, fraction_of, number_in, number_of};

/// Returns whether all bytes are digits.
fn are_digits(text: &[u8]) -> bool
    ensures { result ≡ are_digits text.now }
{
    text.iter().all(|byte| byte.is_ascii_digit())
}

/// Returns the number that at most six digits spell.
fn number_of(digits: &[u8]) -> u32
    requires few { length digits.now ≤ 6 }
    requires digits { IsTrue (are_digits digits.now) }
    ensures value { result ≡ number_of digits.now }
    ensures bound { result < 10 ^ length digits.now }
{
    let mut number = 0;
    for digit in digits {
        number = 10 * number + u32::from(*digit - b'0');
    }
    number
}

/// Returns the number that a text of exactly `count` digits spells, where it lies from `low` to `high`; else `None`.
pub(crate) fn number_in(text: &[u8], count: usize, low: u32, high: u32) -> Option<u32>
    requires { count ≤ 6 }
    ensures value { result ≡ number_in count low high text.now }
    ensures high { IfSome result (λ n. n ≤ high) }
    ensures low { IfSome result (λ n. low ≤ n) }
{
    if text.len() != count || !are_digits(text) {
        return None;
    }
    let number = number_of(text);
    if number < low || number > high {
        return None;
    }
    Some(number)
}

/// Returns the microseconds that one to six digits after a point spell; `None` where the text is none of those.
pub(crate) fn fraction_of(text: &[u8]) -> Option<u32>
    ensures value { result ≡ fraction_of text.now }
    ensures bound { IfSome result (λ n. n < 1_000_000) }
{
    if text.is_empty() || text.len() > 6 || !are_digits(text) {
        return None;
    }
    Some(number_of(text) * scale_of(text.len()))
}

/// Returns how many microseconds a one is in the last of `digits` digits after a point, which are 1 to 6.
fn scale_of(digits: usize) -> u32
    requires low { 1 ≤ digits }
    requires high { digits ≤ 6 }
    ensures value { result ≡ 10 ^ (6 - digits) }
    ensures whole { result * 10 ^ digits ≡ 1_000_000 }
{
    match digits {
        1 => 100_000,
        2 => 10_000,
        3 => 1000,
        4 => 100,
        5 => 10,
        _ => 1,
    }
}
