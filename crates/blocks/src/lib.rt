// Bytes judged with the three before them, many at once.
#![tactic(auto)]

ghost use Rattle.std.specs.Prelude.{◌≡◌, true, false, ◌+◌, ◌≤◌, length};
ghost use Rattle.plain.specs.Steps.{AtMost};
ghost use Rattle.blocks.specs.Steps.{wrong_of, Rights};

// Whether the byte `b` may not stand after the bytes `d`, `c` and `a`. There is no branch: all is asked of every byte.
fn wrong(d: u8, c: u8, a: u8, b: u8) -> bool
    ensures { result ≡ wrong_of d c a b }
{
    let continues = (0x80 <= b) & (b <= 0xBF);
    let asked = (0xC0 <= a) | (0xE0 <= c) | (0xF0 <= d);
    let never = (b == 0xC0) | (b == 0xC1) | (0xF5 <= b);
    let low = ((a == 0xE0) & (b < 0xA0)) | ((a == 0xF0) & (b < 0x90));
    let high = ((a == 0xED) & (0x9F < b)) | ((a == 0xF4) & (0x8F < b));
    (continues != asked) | never | low | high
}

// Whether one of the `count` bytes three behind `from` may not stand where it does. All are judged before the answer is looked at, so that
// the compiler can take many in one step.
fn wrongs(s: &[u8], from: usize, count: usize) -> bool
    requires { from + 3 + count ≤ length s.now }
    ensures { result ≡ false → Rights s.now (from + 3) (from + 3 + count) }
{
    let mut any = false;
    for k in 0..count {
        let at = from + k;
        any = any | wrong(s[at], s[at + 1], s[at + 2], s[at + 3]);
    }
    any
}

// Whether these bytes pass, where none of them and of the three before is above `most`: plain bytes pass unseen.
pub fn passes(s: &[u8], from: usize, count: usize, most: u8) -> bool
    requires { (from + 3 + count ≤ length s.now) × AtMost s.now from (from + 3 + count) most }
    ensures { result ≡ true → Rights s.now (from + 3) (from + 3 + count) }
{
    if most < 0x80 {
        return true;
    }
    !wrongs(s, from, count)
}

// The same of the first three bytes, which have fewer before them.
pub fn first_pass(s: &[u8], top: u8) -> bool
    requires { (3 ≤ length s.now) × AtMost s.now 0 3 top }
    ensures { result ≡ true → Rights s.now 0 3 }
{
    if top < 0x80 {
        return true;
    }
    let any = wrong(0, 0, 0, s[0]) | wrong(0, 0, s[0], s[1]) | wrong(0, s[0], s[1], s[2]);
    !any
}
