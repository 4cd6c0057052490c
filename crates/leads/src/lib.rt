// The first byte of a character of UTF-8, by RFC 3629's table.
#![tactic(auto)]

ghost use Rattle.std.specs.Prelude.{◌≡◌};
ghost use Rattle.leads.specs.Table.{asks, lead_of};

// What a first byte asks: `rest` bytes after it, the first of those from `lo` to `hi`.
#[derive(Clone, Copy)]
pub struct Lead {
    pub lo: u8,
    pub hi: u8,
    pub rest: usize,
}

// A row of the RFC's table.
fn seq(lo: u8, hi: u8, rest: usize) -> Option<Lead>
    ensures { result ≡ asks lo hi rest }
{
    Some(Lead { lo, hi, rest })
}

// A decision on the first byte's range: what it asks, where it starts a character.
pub fn classify(a: u8) -> Option<Lead>
    ensures { result ≡ lead_of a }
{
    match a {
        0x00..=0x7F => seq(0x80, 0xBF, 0),
        0xC2..=0xDF => seq(0x80, 0xBF, 1),
        0xE0 => seq(0xA0, 0xBF, 2),
        0xE1..=0xEC => seq(0x80, 0xBF, 2),
        0xED => seq(0x80, 0x9F, 2),
        0xEE..=0xEF => seq(0x80, 0xBF, 2),
        0xF0 => seq(0x90, 0xBF, 3),
        0xF1..=0xF3 => seq(0x80, 0xBF, 3),
        0xF4 => seq(0x80, 0x8F, 3),
        _ => None,
    }
}
