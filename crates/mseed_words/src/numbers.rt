//! Numbers as the arguments of the command line spell them.
ghost use Rattle.std.specs.Prelude.{◌≡◌, ◌≤◌, ◌<◌, ◌^◌, IfSome};
ghost use Rattle.std.specs.List.{list_all};
ghost use Rattle.std.specs.Char.{is_ascii_hexdigit};
ghost use Rattle.mseed_words.specs.Numbers.{counted_in, hexadecimal_in, is_digit, number_in, number_within};

/// The number that one to seven decimal digits say.
pub(crate) fn number_in(text: &str) -> Option<u32>
    ensures { result ≡ number_in text.now }
{
    number_within(7, text)
}

/// The number that decimal digits say, one to `most` of them.
pub(crate) fn number_within(most: usize, text: &str) -> Option<u32>
    requires { most ≤ 9 }
    ensures { result ≡ number_within most text.now }
{
    let digits = text.as_bytes();
    if digits.is_empty() || digits.len() > most {
        return None;
    }
    let mut number = 0;
    for digit in digits {
        if !is_digit(*digit) {
            return None;
        }
        number = number * 10 + u32::from(*digit - b'0');
    }
    Some(number)
}

/// Whether a byte is a decimal digit.
fn is_digit(byte: u8) -> bool
    ensures { result ≡ is_digit byte }
{
    byte.is_ascii_digit()
}

/// The number that one to six hexadecimal digits say, in either case.
pub(crate) fn hexadecimal_in(text: &str) -> Option<u32>
    ensures value { result ≡ hexadecimal_in text.now }
    ensures range { IfSome result (λ n. n < 2 ^ 24) }
{
    if text.is_empty() || text.len() > 6 || !are_hexadecimal(text.as_bytes()) {
        return None;
    }
    u32::from_str_radix(text, 16).ok()
}

/// Whether all bytes are hexadecimal digits.
fn are_hexadecimal(bytes: &[u8]) -> bool
    ensures { result ≡ list_all is_ascii_hexdigit bytes.now }
{
    bytes.iter().all(|byte| byte.is_ascii_hexdigit())
}

/// The number from 1 to `most` that a text says to `clap`.
pub(crate) fn counted_in(most: u32, text: &str) -> Option<u32>
    ensures value { result ≡ counted_in most text.now }
    ensures range { IfSome result (λ n. (1 ≤ n) × (n ≤ most)) }
{
    match text.parse::<u32>() {
        Ok(number) if 1 <= number && number <= most => Some(number),
        _ => None,
    }
}
