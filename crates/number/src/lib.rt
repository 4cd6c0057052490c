// Signed numbers of one, two, four and eight bytes, little-endian (decoder.rs: decode_int8 to decode_int64).
#![tactic(auto, using(crate::proofs::Sign::cast_is))]

ghost use Rattle.std.specs.Prelude.{◌+◌, ◌≤◌, length};
ghost use Rattle.number.specs.Promises.{SignedPromise};

// Each reads its bytes as a number without a sign, and takes the same bits as one with it; one law over the width shows all four.
pub fn read_i8(s: &[u8], at: usize) -> i8
    requires { at + 1 ≤ length s.now }
    ensures { SignedPromise 1 s.now at result }
{
    let n = width::unpack_u32(s, at, 1);
    (n as u8).cast_signed()
}

pub fn read_i16(s: &[u8], at: usize) -> i16
    requires { at + 2 ≤ length s.now }
    ensures { SignedPromise 2 s.now at result }
{
    let n = width::unpack_u32(s, at, 2);
    (n as u16).cast_signed()
}

pub fn read_i32(s: &[u8], at: usize) -> i32
    requires { at + 4 ≤ length s.now }
    ensures { SignedPromise 4 s.now at result }
{
    let n = width::unpack_u32(s, at, 4);
    (n as u32).cast_signed()
}

pub fn read_i64(s: &[u8], at: usize) -> i64
    requires { at + 8 ≤ length s.now }
    ensures { SignedPromise 8 s.now at result }
{
    let n = width::unpack_u64(s, at);
    (n as u64).cast_signed()
}
