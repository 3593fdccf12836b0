// FNV-1a of 64 bits.
ghost use Rattle.std.specs.Prelude.{◌≡◌};
ghost use Rattle.model_frame.specs.Bytes.{bytes_of};
ghost use Rattle.model_session.specs.Summary.{fnv_step, fnv};

// The hash of no bytes.
pub const START: u64 = 0xcbf2_9ce4_8422_2325;

const PRIME: u64 = 0x100_0000_01b3;

// The powers of the prime, modulo 2^64.
const POWERS: [u64; 9] = [
    1,
    PRIME,
    0x3_6600_0002_e329,
    0x8a9_7b00_04e7_feab,
    0x9ffa_ac08_5635_bc91,
    0xcae_e32a_7d4f_6a63,
    0xdc96_6432_edf1_c639,
    0xc552_7b8a_51d3_d2db,
    0x1efa_c709_0aef_4a21,
];

// The hash h carried over one byte.
pub fn step(hash: u64, x: u64) -> u64
    ensures { result ≡ fnv_step hash x }
{
    (hash ^ x).wrapping_mul(PRIME)
}

// The hash h carried over the bytes of s.
pub fn bytes(hash: u64, s: &[u8]) -> u64
    ensures { result ≡ fnv hash s.now }
{
    let mut carried = hash;
    for x in s {
        carried = step(carried, u64::from(*x));
    }
    carried
}

// The hash h carried over the eight bytes of x, the lowest first; those that are 0 at the end are one product.
// A loop over all eight takes 26 ns in place of 9 for a number of two bytes.
pub fn word(hash: u64, x: u64) -> u64
    ensures { result ≡ fnv hash (bytes_of 8 x) }
{
    let mut carried = hash;
    let mut rest = x;
    let mut left: usize = 8;
    while 0 < rest {
        carried = step(carried, rest & 0xff);
        rest >>= 8;
        left -= 1;
    }
    carried.wrapping_mul(POWERS[left])
}
