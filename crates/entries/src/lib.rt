// The region's text and the entries of a dictionary whose header passed: checks 16 to 19 (metadata.rs: VariantMetadata).
#![tactic(auto)]

ghost use Rattle.std.specs.Prelude.{◌≡◌, ◌≤◌, ◌<◌, length};
ghost use Rattle.part.specs.Part.{part};
ghost use Rattle.chars.specs.Rfc3629.{Text};
ghost use Rattle.names.specs.Order.{below};
ghost use Rattle.rules.specs.Rules.{first, each, Says};
ghost use Rattle.rules.specs.Rules.Test.{is, isn't, ◌<?◌, ◌and◌};
ghost use Rattle.dictionary.specs.Dictionary.{count as count_of, region as region_of, outside, entry_rules, checks};
ghost use Rattle.dictionary.specs.Steps.{HeaderOf};
ghost use Rattle.entries.specs.Steps.{Reached, EntryOf, found_of};

use dictionary::{Header, Refusal, offset_at};

// Whether the offsets `a` and `e` of an entry fall, pass the region, or the second cuts a character.
fn out_of_range(region: &[u8], a: usize, e: usize) -> bool
    ensures { Says result (outside region.now a e) }
{
    if e < a {
        return true;
    }
    if region.len() < e {
        return true;
    }
    if region.len() == e {
        return false;
    }
    let b = region[e];
    if b < 0x80 {
        return false;
    }
    if 0xBF < b {
        return false;
    }
    true
}

// Whether the names are to be in order, and the one from `a` to `e` is not above the one from `p` to `a`.
fn not_above(region: &[u8], sorted: bool, k: usize, p: usize, a: usize, e: usize) -> bool
    requires { (p ≤ a) × (a ≤ e) × (e ≤ length region.now) }
    ensures { Says result (is sorted and 0 <? k and isn't (below (part region.now p a) (part region.now a e))) }
{
    if !sorted {
        return false;
    }
    if k == 0 {
        return false;
    }
    if names::is_below(&region[p..a], &region[a..e]) {
        return false;
    }
    true
}

// Checks 17 and 18 of entry k, which starts at `a`; `p` is where the one before starts. That `a` cuts no character is known: it was the
// end of the entry before, or it is 0.
fn check_entry(
    dict: &[u8],
    region: &[u8],
    h: Header,
    k: usize,
    p: usize,
    a: usize,
) -> Result<usize, Refusal>
    requires { HeaderOf dict.now h × (region.now ≡ region_of dict.now) × (k < count_of dict.now) × Reached dict.now k p a }
    ensures { EntryOf dict.now k a result }
{
    let w = h.width;
    let e = offset_at(dict, w, k + 1);
    if out_of_range(region, a, e) {
        return Err(Refusal::Range(k));
    }
    if not_above(region, h.sorted, k, p, a, e) {
        return Err(Refusal::NotAbove(k));
    }
    Ok(e)
}

// Checks 17 and 18, entry by entry.
fn check_each(dict: &[u8], region: &[u8], h: Header) -> Result<(), Refusal>
    requires { HeaderOf dict.now h × (region.now ≡ region_of dict.now) × Text (region_of dict.now) }
    ensures { found_of result ≡ first (each (entry_rules dict.now) (count_of dict.now)) }
{
    let mut p = 0;
    let mut a = 0;
    for k in 0..h.count {
        let e = check_entry(dict, region, h, k, p, a)?;
        p = a;
        a = e;
    }
    Ok(())
}

// Checks 17 and 18, row by row only where something is flagged.
fn check_entries(dict: &[u8], region: &[u8], h: Header) -> Result<(), Refusal>
    requires { HeaderOf dict.now h × (region.now ≡ region_of dict.now) × Text (region_of dict.now) }
    ensures { found_of result ≡ first (each (entry_rules dict.now) (count_of dict.now)) }
{
    if flags::flagged(dict, region, h) {
        return check_each(dict, region, h);
    }
    Ok(())
}

// Checks 16 to 19, after those of the header.
pub fn check_region(dict: &[u8], h: Header) -> Result<(), Refusal>
    requires { HeaderOf dict.now h }
    ensures { found_of result ≡ checks dict.now }
{
    let region = &dict[h.start..h.end];
    utf8::check(region)?;
    check_entries(dict, region, h)
}
