// Ranges, and the first byte of a part: see specs/Part.antt for what a part is.
#![tactic(auto)]

ghost use Rattle.std.specs.Prelude.{◌≡◌, ◌≤◌, length, get_or};
ghost use Rattle.part.specs.Part.{part};

// A range of a whole: where it starts and where it ends.
#[derive(Clone, Copy)]
pub struct Span {
    pub start: usize,
    pub end: usize,
}

// The first byte of the value from a to e; 0 where it has none.
pub fn first_byte(whole: &[u8], a: usize, e: usize) -> u8
    requires { (a ≤ e) × (e ≤ length whole.now) }
    ensures { result ≡ get_or (part whole.now a e) 0 0 }
{
    if a < e {
        return whole[a];
    }
    0
}
