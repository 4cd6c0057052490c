// Eight bytes at a time: as the number that they spell, or as the processor loads them.
#![tactic(auto)]

ghost use Rattle.std.specs.Prelude.{◌≡◌, ◌+◌, ◌≤◌, ◌<◌, length};
ghost use Rattle.eights.specs.Steps.{be, Raw, Alike, Decides};

// The number that the four bytes at `at` spell, the highest byte first: such numbers are in the order of their bytes.
fn half(s: &[u8], at: usize) -> usize
    requires { at + 4 ≤ length s.now }
    ensures { (result ≡ be s.now at 4) × (result < 4294967296) }
{
    let two = width::wide(s[at]) * 256 + width::wide(s[at + 1]);
    (two * 256 + width::wide(s[at + 2])) * 256 + width::wide(s[at + 3])
}

// The same of eight bytes.
pub fn word(s: &[u8], at: usize) -> usize
    requires { at + 8 ≤ length s.now }
    ensures { result ≡ be s.now at 8 }
{
    let high = half(s, at);
    let low = half(s, at + 4);
    high * 0x1_0000_0000 + low
}

// Eight bytes as the processor loads them, the lowest byte first: that tells whether they are the same, and spares turning them round.
pub fn raw(s: &[u8], at: usize) -> usize
    requires { at + 8 ≤ length s.now }
    ensures { Raw s.now at result }
{
    let low = width::unpack_u32(s, at, 4);
    let high = width::unpack_u32(s, at + 4, 4);
    low + 0x1_0000_0000 * high
}

// Where the eight bytes are that decide, of names whose first eight are the same. The last eight that both have may overlap those before.
pub fn alike(a: &[u8], b: &[u8], shared: usize) -> usize
    requires { Alike a.now b.now 8 × (8 ≤ shared) × (shared ≤ length a.now) × (shared ≤ length b.now) }
    ensures { Decides a.now b.now shared result }
{
    let last = shared - 8;
    let mut i = 8;
    while i < last {
        if raw(a, i) != raw(b, i) {
            return i;
        }
        i += 8;
    }
    last
}
