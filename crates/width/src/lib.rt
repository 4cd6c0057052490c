// Little-endian numbers of one to four bytes, and of eight (decoder.rs: OffsetSizeBytes; utils.rs: array_from_slice).
#![tactic(auto)]

ghost use Rattle.std.specs.Prelude.{◌+◌, ◌≤◌, length};
ghost use Rattle.width.specs.Promises.{WidePromise, UnpackPromise, Unpack64Promise, PackPromise};

// The largest number of 32 bits: sums are worked in 64 bits and held to it.
pub const U32_MAX: usize = 0xFFFF_FFFF;

// A byte as a number, with its bound.
pub fn wide(x: u8) -> usize
    ensures { WidePromise x result }
{
    x as usize
}

// The number that the `width` bytes at `at` spell, the lowest byte first. The sum so far is returned as soon as the width is reached:
// that is faster than a loop, and every step is the same law.
pub fn unpack_u32(s: &[u8], at: usize, width: usize) -> usize
    requires { (1 ≤ width) × (width ≤ 4) × (at + width ≤ length s.now) }
    ensures { UnpackPromise s.now at width result }
{
    let one = wide(s[at]);
    if width == 1 {
        return one;
    }
    let two = one + 0x100 * wide(s[at + 1]);
    if width == 2 {
        return two;
    }
    let three = two + 0x1_0000 * wide(s[at + 2]);
    if width == 3 {
        return three;
    }
    three + 0x100_0000 * wide(s[at + 3])
}

// The number that the eight bytes at `at` spell: two halves of four.
pub fn unpack_u64(s: &[u8], at: usize) -> usize
    requires { at + 8 ≤ length s.now }
    ensures { Unpack64Promise s.now at result }
{
    let low = unpack_u32(s, at, 4);
    let high = unpack_u32(s, at + 4, 4);
    low + 0x1_0000_0000 * high
}

// The low 32 bits of a number, into the four bytes at `at`, the lowest byte first.
pub fn pack_u32(out: &mut [u8], at: usize, n: usize)
    requires { at + 4 ≤ length out.old }
    ensures { PackPromise out.old at n out.new }
{
    let second = n / 256;
    let third = second / 256;
    let fourth = third / 256;
    out[at] = (n % 256) as u8;
    out[at + 1] = (second % 256) as u8;
    out[at + 2] = (third % 256) as u8;
    out[at + 3] = (fourth % 256) as u8;
}
