//! Where bytes are cut.
ghost use Rattle.std.specs.Prelude.{◌≡◌, ◌==◌, ◌∷◌, ◌++◌, ◌≤◌, MatchOption, IsTrue, length, not, position};
ghost use Rattle.std.specs.List.{list_all, position_or_len};

/// The position of the first such byte.
fn place_of(bytes: &[u8], byte: u8) -> Option<usize>
    ensures { result ≡ position (λ b. b == byte) bytes.now }
{
    bytes.iter().position(|b| *b == byte)
}

/// How many bytes stand before the first such byte: all of them, where there is none.
#[tactic(auto, using(crate::proofs::Cuts::place_or_all))]
pub(crate) fn first(bytes: &[u8], byte: u8) -> usize
    ensures value { result ≡ position_or_len (λ b. b == byte) bytes.now }
    ensures bound { result ≤ length bytes.now }
{
    place_of(bytes, byte).unwrap_or(bytes.len())
}

/// The position of the first other byte.
fn place_of_other(bytes: &[u8], byte: u8) -> Option<usize>
    ensures { result ≡ position (λ b. not (b == byte)) bytes.now }
{
    bytes.iter().position(|b| *b != byte)
}

/// How many such bytes stand before it.
#[tactic(auto, using(crate::proofs::Cuts::place_or_all))]
pub(crate) fn first_other(bytes: &[u8], byte: u8) -> usize
    ensures value { result ≡ position_or_len (λ b. not (b == byte)) bytes.now }
    ensures bound { result ≤ length bytes.now }
{
    place_of_other(bytes, byte).unwrap_or(bytes.len())
}

/// What stands before and after the first such byte.
pub(crate) fn parts(bytes: &[u8], byte: u8) -> Option<(&[u8], &[u8])>
    ensures { MatchOption result
        (IsTrue (list_all (λ b. not (b == byte)) bytes.now))
        (λ p. (bytes.now ≡ p.0.now ++ byte ∷ p.1.now) × IsTrue (list_all (λ b. not (b == byte)) p.0.now)) }
{
    let end = first(bytes, byte);
    if end == bytes.len() {
        return None;
    }
    Some((&bytes[..end], &bytes[end + 1..]))
}
