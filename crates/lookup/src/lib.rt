// Lookup by name over a checked object layer, and the child as a part of the object (object.rs: VariantObject::get).
#![tactic(auto)]

ghost use Rattle.std.specs.Prelude.{◌≡◌, ◌+◌, ◌≤◌, ◌<◌};
ghost use Rattle.names.specs.Order.{compare_of};
ghost use Rattle.names.specs.Search.{seek};
ghost use Rattle.layer.specs.Object.{count as count_of, offset as offset_of, start as region_start, end as trimmed_end, field_name};
ghost use Rattle.layer.specs.Steps.{LayerOf};
ghost use Rattle.fields.specs.Steps.{Over};
ghost use Rattle.object.specs.Steps.{Opened};
ghost use Rattle.lookup.specs.Promises.{GetPromise, ChildPromise};
ghost use Rattle.lookup.specs.Steps.{sought_of, PlaceOf, AllAbove};

use layer::{Layer, Refusal};
use part::Span;
use std::cmp::Ordering;

// A field that was found: its number, its id, and where its child lies in the object.
#[derive(Clone, Copy)]
pub struct Found {
    pub field: usize,
    pub id: usize,
    pub start: usize,
    pub end: usize,
}

// How the name of field k compares with the one that is looked for.
fn compare_field(
    dict: &[u8],
    h: dictionary::Header,
    object: &[u8],
    l: Layer,
    k: usize,
    name: &[u8],
) -> Ordering
    requires { Opened dict.now h object.now l × (k < count_of object.now) }
    ensures { result ≡ compare_of (field_name dict.now object.now k) name.now }
{
    let id = layer::id_at(object, l, k);
    let field = metadata::span_of(dict, h, id);
    names::compare(&dict[field.start..field.end], name)
}

// The field of that name, by halving (utils.rs: try_binary_search_range_by), where those from `above` on are known to come after it.
pub fn find(
    dict: &[u8],
    h: dictionary::Header,
    object: &[u8],
    l: Layer,
    name: &[u8],
    above: usize,
) -> Option<usize>
    requires { Opened dict.now h object.now l × (above ≤ count_of object.now) × AllAbove dict.now object.now name.now above }
    ensures { sought_of result ≡ seek (field_name dict.now object.now) name.now (count_of object.now) }
{
    // No for: each turn leaves half of the fields, and not the next of a row of them.
    let mut low = 0;
    let mut high = above;
    while low < high {
        let middle = low + (high - low) / 2;
        let order = compare_field(dict, h, object, l, middle, name);
        match order {
            Ordering::Less => {
                low = middle + 1;
            }
            Ordering::Equal => {
                return Some(middle);
            }
            Ordering::Greater => {
                high = middle;
            }
        }
    }
    None
}

// Where field k's child lies: from its offset to the trimmed end, wherever the next field starts.
pub fn field_place(object: &[u8], l: Layer, k: usize) -> Span
    requires { LayerOf object.now l × (k < count_of object.now) × (region_start object.now + offset_of object.now k ≤ trimmed_end object.now) }
    ensures { (result.start ≡ region_start object.now + offset_of object.now k) × (result.end ≡ trimmed_end object.now) }
{
    Span {
        start: l.start + layer::offset_at(object, l, k),
        end: l.end,
    }
}

// Lookup by name over a dictionary that passed its checks.
pub fn get_over(
    dict: &[u8],
    h: dictionary::Header,
    object: &[u8],
    name: &[u8],
) -> Result<Option<Found>, Refusal>
    requires { Over dict.now h }
    ensures { GetPromise dict.now object.now name.now result }
{
    let l = object::check_layer(dict, h, object)?;
    let found = find(dict, h, object, l, name, l.count);
    match found {
        None => Ok(None),
        Some(k) => {
            let id = layer::id_at(object, l, k);
            let place = field_place(object, l, k);
            Ok(Some(Found {
                field: k,
                id,
                start: place.start,
                end: place.end,
            }))
        }
    }
}

// Lookup by name.
pub fn get(dict: &[u8], object: &[u8], name: &[u8]) -> Result<Option<Found>, Refusal>
    ensures { GetPromise dict.now object.now name.now result }
{
    let h = metadata::checked(dict)?;
    get_over(dict, h, object, name)
}

// Where the child lies in the object; nothing, at its start, on absence or refusal.
fn child_place(dict: &[u8], object: &[u8], name: &[u8]) -> Span
    ensures { PlaceOf dict.now object.now name.now result }
{
    let found = get(dict, object, name);
    match found {
        Err(_) => Span { start: 0, end: 0 },
        Ok(None) => Span { start: 0, end: 0 },
        Ok(Some(child)) => Span {
            start: child.start,
            end: child.end,
        },
    }
}

// The child of that name, as a part of the object. It is empty, at the object's start, exactly where `get` finds no such field or refuses.
pub fn child<'d, 'o, 'n>(dict: &'d [u8], object: &'o [u8], name: &'n [u8]) -> &'o [u8]
    ensures { ChildPromise dict.now object.entry name.now result }
{
    let place = child_place(dict, object, name);
    &object[place.start..place.end]
}
