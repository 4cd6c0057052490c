// The checks of an object layer's fields by their numbers alone, ids and offsets, field by field: 25 to 28 (object.rs: VariantObject).
#![tactic(auto)]

ghost use Rattle.std.specs.Prelude.{◌≡◌};
ghost use Rattle.rules.specs.Rules.{first, each, Says};
ghost use Rattle.rules.specs.Rules.Test.{◌≤?◌};
ghost use Rattle.layer.specs.Object.{count as count_of, id_rules, offset_rules};
ghost use Rattle.layer.specs.Steps.{LayerOf};
ghost use Rattle.columns.specs.Steps.{found_of, id_row};

use layer::{Layer, Refusal, id_at, offset_at};

// Checks 25 and 26 of the id of field k, where `before` is that of the field before it.
fn judge_id(entries: usize, k: usize, before: usize, id: usize) -> Result<(), Refusal>
    ensures { found_of result ≡ first (id_row entries k before id) }
{
    if entries <= id {
        return Err(Refusal::NoSuchEntry(k));
    }
    if k == 0 {
        return Ok(());
    }
    if before < id {
        return Ok(());
    }
    Err(Refusal::NotAbove(k))
}

// Checks 25 and 26 by ids, field by field: right over a sorted dictionary.
pub fn check_ids(object: &[u8], l: Layer, entries: usize) -> Result<(), Refusal>
    requires { LayerOf object.now l }
    ensures { found_of result ≡ first (each (id_rules entries object.now) (count_of object.now)) }
{
    let mut before = 0;
    for k in 0..l.count {
        let id = id_at(object, l, k);
        judge_id(entries, k, before, id)?;
        before = id;
    }
    Ok(())
}

// Whether a child has no bytes that starts at `offset` of a region of `length` bytes.
fn is_empty(length: usize, offset: usize) -> bool
    ensures { Says result (length ≤? offset) }
{
    if length <= offset {
        return true;
    }
    false
}

// Checks 27 and 28, field by field. Which of the two it is, is asked only where one of them is due.
pub fn check_offsets(object: &[u8], l: Layer) -> Result<(), Refusal>
    requires { LayerOf object.now l }
    ensures { found_of result ≡ first (each (offset_rules object.now) (count_of object.now)) }
{
    let length = l.end - l.start;
    for k in 0..l.count {
        let offset = offset_at(object, l, k);
        if is_empty(length, offset) {
            if length < offset {
                return Err(Refusal::Offset(k));
            }
            return Err(Refusal::EmptyChild(k));
        }
    }
    Ok(())
}
