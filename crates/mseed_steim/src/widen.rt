//! Bytes that are widened to whole numbers, sixteen at a time.

ghost use Rattle.std.specs.Prelude.{◌≡◌, map, length};
ghost use Rattle.byteorder.specs.Endian.{twos_complement};

use std::simd::prelude::*;

/// Bytes of a vector.
const LANES: usize = 16;

/// Puts what each byte stands for in two's complement into its place. There are as many places as bytes.
pub fn widen_bytes(bytes: &[u8], out: &mut [i32])
    requires { length out.old ≡ length bytes.now }
    ensures { out.new ≡ map (λ byte. twos_complement 1 byte) bytes.now }
{
    let vectors = bytes.len() / LANES;
    for i in 0..vectors {
        let lanes = u8x16::from_slice(&bytes[LANES * i..]).cast::<i32>();
        let is_negative = lanes.simd_gt(i32x16::splat(127));
        let values = is_negative.select(lanes - i32x16::splat(256), lanes);
        values.copy_to_slice(&mut out[LANES * i..]);
    }
    for i in LANES * vectors..bytes.len() {
        out[i] = i32::from(bytes[i].cast_signed());
    }
}
