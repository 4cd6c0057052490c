// Bytes below 0x80, which are characters of their own: the largest of many tells whether all are, and they are passed in strides.
#![tactic(auto)]

ghost use Rattle.std.specs.Prelude.{◌+◌, ◌≤◌, length};
ghost use Rattle.plain.specs.Steps.{Reached, AtMost};

// A text that has no block is passed in strides of so many, as long as they are plain.
const STRIDE: usize = 8;

// The largest of the `count` bytes at `from`. All are read before one is judged, so that the compiler can take many in one step.
pub fn largest(s: &[u8], from: usize, count: usize) -> u8
    requires { from + count ≤ length s.now }
    ensures { AtMost s.now from (from + count) result }
{
    let mut most: u8 = 0;
    for k in 0..count {
        most = most.max(s[from + k]);
    }
    most
}

// Passes bytes below 0x80 in strides, as long as a whole stride has no other. What is left at the end, the text's last stride has.
pub fn strides(s: &[u8]) -> usize
    ensures { Reached s.now result }
{
    // No `for`: where the strides ended is the answer.
    let mut at = 0;
    while STRIDE <= s.len() - at {
        if 0x80 <= largest(s, at, STRIDE) {
            return at;
        }
        at += STRIDE;
    }
    if s.len() < STRIDE {
        return at;
    }
    if 0x80 <= largest(s, s.len() - STRIDE, STRIDE) {
        return at;
    }
    s.len()
}
