//! Bytes that are widened, of each length up to four vectors.

ghost use Rattle.std.specs.Prelude.{◌≤◌};

use mseed_steim::widen_bytes;

/// Bytes, and what they are widened to.
static CASES: [(u8, i32); 4] = [(0x00, 0), (0x7F, 127), (0x80, -128), (0xFF, -1)];

/// Whether so many bytes are widened to so many numbers, and no place after them is written.
fn is_widened(bytes: &[u8; 64], wanted: &[i32; 64], length: usize) -> bool
    requires { length ≤ 64 }
{
    let mut values = [9; 64];
    widen_bytes(&bytes[..length], &mut values[..length]);
    values[..length] == wanted[..length] && values[length..] == [9; 64][length..]
}

#[test]
fn widens_each_length(rt: HostRuntime) {
    let mut bytes = [0; 64];
    let mut wanted = [0; 64];
    for i in 0..64 {
        (bytes[i], wanted[i]) = CASES[i % 4];
    }
    for length in 0..65 {
        assert!(rt; is_widened(&bytes, &wanted, length), "{length} bytes");
    }
}
