// Flags for the entries of a dictionary that are to be checked row by row (metadata.rs: VariantMetadata).
#![tactic(auto)]

ghost use Rattle.std.specs.Prelude.{◌≡◌, false, ◌≤◌, ◌<◌, length};
ghost use Rattle.chars.specs.Rfc3629.{Text};
ghost use Rattle.rules.specs.Rules.{first, each, Fails};
ghost use Rattle.rules.specs.Rules.Found.{pass};
ghost use Rattle.dictionary.specs.Dictionary.{count as count_of, region as region_of, outside, entry_rules};
ghost use Rattle.dictionary.specs.Steps.{HeaderOf};

use dictionary::{Header, offset_at};

// The place whose byte tells whether `e` cuts a character: `e`, or the first where `e` lies on no byte. A text's first byte continues none.
fn looked_at(len: usize, e: usize) -> usize
    requires { 1 ≤ len }
    ensures { (result < len) × (e < len → result ≡ e) }
{
    if e < len { e } else { 0 }
}

// What tells an entry that is out of range, by no branch: where it says no, the entry is in range; where it says yes, the rows are to decide.
fn suspect(region: &[u8], a: usize, e: usize) -> bool
    requires { 1 ≤ length region.now }
    ensures { result ≡ false → Fails (outside region.now a e) }
{
    let len = region.len();
    let b = region[looked_at(len, e)];
    (e < a) | (len < e) | ((0x80 <= b) & (b <= 0xBF))
}

// Whether any entry is suspect. The loop goes over all of them and branches on none, so that a dictionary in which all is well is not held up;
// where the names need not be in order, all its rows pass.
fn any_suspect(dict: &[u8], region: &[u8], h: Header) -> bool
    requires { HeaderOf dict.now h × (region.now ≡ region_of dict.now) × Text (region_of dict.now) × (h.sorted ≡ false) × (1 ≤ length region.now) }
    ensures { result ≡ false → first (each (entry_rules dict.now) (count_of dict.now)) ≡ pass }
{
    let mut any = false;
    let mut from = 0;
    for i in 0..h.count {
        let to = offset_at(dict, h.width, i + 1);
        any |= suspect(region, from, to);
        from = to;
    }
    any
}

// Whether the rows are to be asked one by one: also where the names are to be in order, since comparing them hides the other tests, and where
// there is no byte to look at.
pub fn flagged(dict: &[u8], region: &[u8], h: Header) -> bool
    requires { HeaderOf dict.now h × (region.now ≡ region_of dict.now) × Text (region_of dict.now) }
    ensures { result ≡ false → first (each (entry_rules dict.now) (count_of dict.now)) ≡ pass }
{
    if h.sorted {
        return true;
    }
    if region.len() == 0 {
        return true;
    }
    any_suspect(dict, region, h)
}
