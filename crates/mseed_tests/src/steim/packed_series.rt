//! Made series, packed into frames of four sizes. The hashes that are expected are those of
//! `tests/models/packed_series.py`, a plain Python program that tries the rows of the manual's tables in turn.

ghost use Rattle.std.specs.Prelude.{◌≡◌, ◌<◌, ◌%◌, length};

use mseed_steim::Scheme;
use mseed_steim_pack::pack_words;

/// The number of differences that are made: more than the largest frames hold.
const LONGEST: usize = 7056;

/// The lengths of series that are packed, each from the first of the differences that are made.
static LENGTHS: [usize; 24] = [
    0, 1, 2, 7, 8, 56, 57, 58, 63, 64, 65, 71, 111, 112, 113, 120, 121, 122, 127, 128, 783, 784,
    785, LONGEST,
];

/// The widths of Steim-2, and none.
const EACH: [u32; 8] = [0, 4, 5, 6, 8, 10, 15, 30];

/// Those of its words of the most differences.
const NARROW: [u32; 8] = [4, 4, 4, 5, 5, 5, 6, 8];

/// Those of its words of few differences, and the narrowest.
const WIDE: [u32; 8] = [8, 8, 10, 10, 10, 15, 15, 4];

/// The widths of Steim-1.
const LARGE: [u32; 8] = [8, 8, 8, 8, 16, 16, 8, 32];

/// One bit less and one more than some of these, and none.
const LIMITS: [u32; 8] = [7, 8, 9, 15, 16, 17, 0, 32];

/// 16 bits, at which differences are cut off before they are joined, and widths about that.
const HALVES: [u32; 8] = [16, 15, 17, 15, 16, 10, 15, 29];

/// A scheme, the widths of differences in bits, of which each is as likely, a mask under which a random number is 0
/// where the width may change, and the hash of all that is packed.
type Series = (Scheme, [u32; 8], u64, u64);

static SERIES: [Series; 25] = [
    (Scheme::Two, [0; 8], 0, 0x40DD_4497_E2B0_1F02),
    (Scheme::Two, [4; 8], 0, 0xC316_0D04_4F3B_A1F7),
    (Scheme::Two, [5; 8], 0, 0xBBBF_0D92_C6B3_6438),
    (Scheme::Two, [6; 8], 0, 0xFB93_7616_0E04_D3F3),
    (Scheme::Two, [8; 8], 0, 0x05B8_3034_164D_F7DC),
    (Scheme::Two, [10; 8], 0, 0xD9E3_30F7_04DB_8384),
    (Scheme::Two, [15; 8], 0, 0x5AC7_ABE4_546E_9AA9),
    (Scheme::Two, [29; 8], 0, 0x2CA9_DAC6_B391_680B),
    (Scheme::Two, [30; 8], 0, 0xE189_F9B5_5C5D_D18B),
    (Scheme::Two, EACH, 0, 0x33E2_1974_91A0_F940),
    (Scheme::Two, EACH, 3, 0xD426_9E61_AE0E_927F),
    (Scheme::Two, EACH, 15, 0x3629_9F26_CEFE_D49E),
    (Scheme::Two, EACH, 127, 0xB4F5_49A9_0337_5FFD),
    (Scheme::Two, NARROW, 0, 0x9744_EDC5_099F_843F),
    (Scheme::Two, NARROW, 7, 0x9BBF_1FF7_B41D_B564),
    (Scheme::Two, WIDE, 3, 0x102B_4904_64B0_8B58),
    (Scheme::One, [0; 8], 0, 0x54D7_4ACC_C31A_916D),
    (Scheme::One, [8; 8], 0, 0x5CB9_03FE_F7FF_DCFD),
    (Scheme::One, [16; 8], 0, 0xE513_837D_B328_6E32),
    (Scheme::One, [32; 8], 0, 0xAE69_60F1_05E9_5446),
    (Scheme::One, LARGE, 0, 0x9CB6_1F03_AD23_6B01),
    (Scheme::One, LIMITS, 3, 0xED3C_9451_64C2_CEE3),
    (Scheme::One, LIMITS, 31, 0x132B_23A0_A820_226B),
    (Scheme::Two, HALVES, 0, 0xC514_354C_4970_75E8),
    (Scheme::Two, HALVES, 7, 0x031E_32B6_AE08_144E),
];

/// The next random number (splitmix64).
fn random(state: &mut u64) -> u64 {
    *state = state.wrapping_add(0x9E37_79B9_7F4A_7C15);
    let mixed = *state;
    let mixed = (mixed ^ (mixed >> 30)).wrapping_mul(0xBF58_476D_1CE4_E5B9);
    let mixed = (mixed ^ (mixed >> 27)).wrapping_mul(0x94D0_49BB_1331_11EB);
    mixed ^ (mixed >> 31)
}

/// A difference of so many bits: often at a limit, and where 30 bits hold that, at times just beyond one.
fn difference(width: u32, random: u64) -> i32 {
    if width == 0 {
        return 0;
    }
    let half = 1u32.wrapping_shl(width.wrapping_sub(1));
    match random % 64 {
        0 if width < 30 => half.cast_signed(),
        1 if width < 30 => (!half).cast_signed(),
        0..=15 => half.wrapping_sub(1).cast_signed(),
        16..=29 => half.wrapping_neg().cast_signed(),
        _ => ((random >> 32) as u32)
            .cast_signed()
            .wrapping_shr(32u32.wrapping_sub(width)),
    }
}

/// The differences of a series.
fn differences(seed: u64, (_, widths, mask, _): &Series) -> [i32; LONGEST] {
    let mut diffs = [0; LONGEST];
    let mut state = seed;
    let mut width = widths[0];
    for index in 0..LONGEST {
        let chosen = random(&mut state);
        if chosen & mask == 0 {
            width = widths[(chosen / 1024 % 8) as usize];
        }
        diffs[index] = difference(width, random(&mut state));
    }
    diffs
}

/// The hash of some bytes after those of a hash (FNV-1a).
fn with_bytes(mut hash: u64, bytes: &[u8]) -> u64 {
    for byte in bytes {
        hash = (hash ^ u64::from(*byte)).wrapping_mul(0x100_0000_01B3);
    }
    hash
}

/// The hash of all frames that differences are packed into, until none is left, and of what each call answers.
fn with_packed(mut hash: u64, scheme: Scheme, diffs: &[i32], frames: &mut [u8]) -> Option<u64>
    requires some { 0 < length frames.old }
    requires whole { length frames.old % 64 ≡ 0 }
{
    let mut left = diffs;
    for _ in 0..LONGEST {
        let packed = pack_words(scheme, left, frames).ok()?;
        hash = with_bytes(hash, frames);
        hash = with_bytes(hash, &(packed.used as u64).to_be_bytes());
        hash = with_bytes(hash, &(packed.words as u64).to_be_bytes());
        left = left.get(packed.used..)?;
        if left.is_empty() {
            return Some(hash);
        }
    }
    None
}

/// The hash of a series, packed at each length into frames of each size; none where a difference is refused.
fn hash_of(seed: u64, series: &Series) -> Option<u64> {
    let diffs = differences(seed, series);
    let mut hash = 0xCBF2_9CE4_8422_2325;
    for length in &LENGTHS {
        let some = diffs.get(..*length)?;
        hash = with_packed(hash, series.0, some, &mut [255; 64])?;
        hash = with_packed(hash, series.0, some, &mut [255; 128])?;
        hash = with_packed(hash, series.0, some, &mut [255; 448])?;
        hash = with_packed(hash, series.0, some, &mut [255; 4032])?;
    }
    Some(hash)
}

#[test]
fn packs_made_series(rt: HostRuntime) {
    for (row, series) in SERIES.iter().enumerate() {
        assert!(rt; hash_of(row as u64, series) == Some(series.3), "row {row}");
    }
}
