//! Numbers in hexadecimal digits.
ghost use Rattle.std.specs.Prelude.{◌≡◌, ◌≢◌, ℕ, ◌++◌, codes, ◌^◌, ◌<◌, ◌≤◌, IfSome, IfNone, length};
ghost use Rattle.std.specs.Char.{to_ascii_uppercase};
ghost use Rattle.slink_wire.specs.Hexadecimal.{SpellsNumber, digit_byte, hexadecimal};

/// The byte that writes a digit.
fn digit_byte(digit: u8) -> u8
    requires { digit < 16 }
    ensures { result ≡ digit_byte digit }
{
    if digit < 10 {
        b'0' + digit
    } else {
        b'A' - 10 + digit
    }
}

/// Returns the six hexadecimal digits of a number, modulo 2^24, in capitals.
#[tactic(auto, using(crate::proofs::Digits::last_six))]
pub fn six_digits(number: u32) -> [u8; 6]
    ensures { result ≡ hexadecimal 6 number }
{
    [
        digit_byte(((number >> 20) % 16) as u8),
        digit_byte(((number >> 16) % 16) as u8),
        digit_byte(((number >> 12) % 16) as u8),
        digit_byte(((number >> 8) % 16) as u8),
        digit_byte(((number >> 4) % 16) as u8),
        digit_byte((number % 16) as u8),
    ]
}

/// What stands before the record in a packet: `SL` and the six digits of its number.
pub(crate) fn header(number: u32) -> [u8; 8]
    requires { number < 2 ^ 24 }
    ensures { result ≡ codes "SL" ++ hexadecimal 6 number }
{
    let [a, b, c, d, e, f] = six_digits(number);
    [b'S', b'L', a, b, c, d, e, f]
}

/// The digit that a byte writes, in either case.
fn digit_of(byte: u8) -> Option<u32>
    ensures small { IfSome result (λ d. d < 16) }
    ensures value { IfSome result (λ d. to_ascii_uppercase byte ≡ digit_byte d) }
    ensures none { IfNone result ((d : ℕ) → d < 16 → to_ascii_uppercase byte ≢ digit_byte d) }
{
    match byte {
        b'0'..=b'9' => Some(u32::from(byte - b'0')),
        b'A'..=b'F' => Some(u32::from(byte - b'A' + 10)),
        b'a'..=b'f' => Some(u32::from(byte - b'a' + 10)),
        _ => None,
    }
}

/// The number that digits say, in either case.
pub(crate) fn number_of(digits: &[u8]) -> Option<u32>
    requires { length digits.now ≤ 6 }
    ensures written { IfSome result (SpellsNumber digits.now) }
    ensures none { IfNone result ((n : ℕ) → ¬ (SpellsNumber digits.now n)) }
{
    let mut number = 0;
    for byte in digits {
        match digit_of(*byte) {
            Some(digit) => number = number * 16 + digit,
            None => return None,
        }
    }
    Some(number)
}
