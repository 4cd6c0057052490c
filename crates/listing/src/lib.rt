// The listing of an object's fields into lent words.
#![tactic(auto)]

ghost use Rattle.std.specs.Prelude.{◌≡◌, ◌++◌, ℕ, ◌*◌, ◌≤◌, ◌<◌, length, drop};
ghost use Rattle.rules.specs.Rules.{first, each};
ghost use Rattle.lengths.specs.Lengths.{own_length};
ghost use Rattle.layer.specs.Object.{count as count_of};
ghost use Rattle.layer.specs.Meaning.{InRegion};
ghost use Rattle.layer.specs.Steps.{LayerOf};
ghost use Rattle.listing.specs.Words.{child as child_of, span_rules, rows};
ghost use Rattle.listing.specs.Steps.{found_of};
ghost use Rattle.listing.specs.Promises.{ListPromise};

use layer::Layer;
use object::Accepted;

// The layer's refusals; 43, at the first field whose child has no own length; or 41.
#[derive(Drop)]
pub enum Refusal {
    Layer(layer::Refusal),
    NoLength(usize),
    NoRoom,
}

impl From<layer::Refusal> for Refusal {
    ghost use Rattle.std.specs.Prelude.{◌≡◌};
    ghost use Rattle.listing.specs.declared.Refusal.TheVariants.{Layer as OfLayer};

    ghost from_gives = { λ refusal r. r ≡ OfLayer refusal };

    fn from(refusal: layer::Refusal) -> Refusal {
        Refusal::Layer(refusal)
    }
}

// The own length of field k's child.
fn own_length(object: &[u8], l: Layer, k: usize) -> Result<usize, lengths::Flaw>
    requires { LayerOf object.now l × (k < count_of object.now) × InRegion object.now k }
    ensures { result ≡ own_length (child_of object.now k) }
{
    let start = l.start + layer::offset_at(object, l, k);
    let end = l.end;
    lengths::own_length(&object[start..end])
}

// Check 43, field by field.
fn measure(object: &[u8], l: Layer) -> Result<(), Refusal>
    requires { LayerOf object.now l × ((k : ℕ) → k < count_of object.now → InRegion object.now k) }
    ensures { found_of result ≡ first (each (span_rules object.now) (count_of object.now)) }
{
    for k in 0..l.count {
        let known = lengths::is_known(own_length(object, l, k));
        if !known {
            return Err(Refusal::NoLength(k));
        }
    }
    Ok(())
}

// The words of all fields: id, start, span. A span is measured again: to keep those of the check there is no room.
fn write_rows(object: &[u8], l: Layer, words: &mut [u32])
    requires { LayerOf object.now l × ((k : ℕ) → k < count_of object.now → InRegion object.now k) × (3 * count_of object.now ≤ length words.old) }
    ensures { words.new ≡ rows object.now (count_of object.now) ++ drop (3 * count_of object.now) words.old }
{
    let fields = l.count;
    let mut at = 0;
    for k in 0..fields {
        let offset = layer::offset_at(object, l, k);
        let span = lengths::bytes_of(own_length(object, l, k));
        words[at] = layer::id_at(object, l, k) as u32;
        words[at + 1] = (l.start + offset) as u32;
        words[at + 2] = span as u32;
        at += 3;
    }
}

// The listing of the fields into lent words, all of them measured before the first is written.
pub fn list(dict: &[u8], object: &[u8], words: &mut [u32]) -> Result<Accepted, Refusal>
    ensures { ListPromise dict.now object.now words.old result words.new }
{
    let m = object::open(dict, object)?;
    let l = m.layer;
    measure(object, l)?;
    if words.len() < 3 * l.count {
        return Err(Refusal::NoRoom);
    }
    write_rows(object, l, words);
    Ok(Accepted::from(l))
}
