// The checks of an object layer's fields over a dictionary, field by field: ids, names and offsets, 25 to 28 (object.rs: VariantObject).
#![tactic(auto)]

ghost use Rattle.std.specs.Prelude.{◌≡◌};
ghost use Rattle.part.specs.Part.{part};
ghost use Rattle.names.specs.Order.{below};
ghost use Rattle.rules.specs.Rules.{first, each, Says};
ghost use Rattle.rules.specs.Rules.Test.{◌<?◌, isn't, ◌and◌};
ghost use Rattle.layer.specs.Object.{count as count_of, name_rules, checks};
ghost use Rattle.layer.specs.Steps.{LayerOf};
ghost use Rattle.columns.specs.Steps.{found_of};
ghost use Rattle.fields.specs.Steps.{Over, Within};

use columns::{check_ids, check_offsets};
use layer::{Layer, Refusal, id_at};
use part::Span;

// Whether a field is not the first, and its name not above the one before.
fn name_not_above(dict: &[u8], k: usize, before: Span, name: Span) -> bool
    requires { Within dict.now before × Within dict.now name }
    ensures { Says result (0 <? k and isn't (below (part dict.now before.start before.end) (part dict.now name.start name.end))) }
{
    if k == 0 {
        return false;
    }
    let p = &dict[before.start..before.end];
    let q = &dict[name.start..name.end];
    let rises = names::is_below(p, q);
    !rises
}

// Checks 25 and 26 by names, field by field.
fn check_names(dict: &[u8], h: dictionary::Header, object: &[u8], l: Layer) -> Result<(), Refusal>
    requires { Over dict.now h × LayerOf object.now l }
    ensures { found_of result ≡ first (each (name_rules dict.now object.now) (count_of object.now)) }
{
    let known = h.count;
    let mut before = Span { start: 0, end: 0 };
    for k in 0..l.count {
        let id = id_at(object, l, k);
        if known <= id {
            return Err(Refusal::NoSuchEntry(k));
        }
        let name = metadata::span_of(dict, h, id);
        if name_not_above(dict, k, before, name) {
            return Err(Refusal::NotAbove(k));
        }
        before = name;
    }
    Ok(())
}

// Checks 25 and 26.
fn check_fields(dict: &[u8], h: dictionary::Header, object: &[u8], l: Layer) -> Result<(), Refusal>
    requires { Over dict.now h × LayerOf object.now l }
    ensures { found_of result ≡ first (each (name_rules dict.now object.now) (count_of object.now)) }
{
    if h.sorted {
        return check_ids(object, l, h.count);
    }
    check_names(dict, h, object, l)
}

// Checks 25 to 28, after those of the dictionary and of the header.
pub fn check_rest(
    dict: &[u8],
    h: dictionary::Header,
    object: &[u8],
    l: Layer,
) -> Result<(), Refusal>
    requires { Over dict.now h × LayerOf object.now l }
    ensures { found_of result ≡ checks dict.now object.now }
{
    check_fields(dict, h, object, l)?;
    check_offsets(object, l)
}
