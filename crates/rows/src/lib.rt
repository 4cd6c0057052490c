// The five words of a name in the answer to a lookup of many.
#![tactic(auto)]

ghost use Rattle.std.specs.Prelude.{◌≡◌, ◌+◌, ◌≤◌, length};
ghost use Rattle.std.proofs.lemmas.List.Edits.{sets};
ghost use Rattle.layer.specs.Steps.{LayerOf};
ghost use Rattle.lookup.specs.ByName.{found as found_at};
ghost use Rattle.lookup.specs.Steps.{sought_of};
ghost use Rattle.rows.specs.Rows.{row_of};
ghost use Rattle.rows.specs.Steps.{InLayer, words_of};

use layer::Layer;
use lookup::field_place;

// What a name's five words say.
#[derive(Clone, Copy)]
pub struct Row {
    pub code: u32,
    pub field: u32,
    pub id: u32,
    pub start: u32,
    pub end: u32,
}

pub fn row_of(object: &[u8], l: Layer, found: Option<usize>) -> Row
    requires { LayerOf object.now l × InLayer object.now (sought_of found) }
    ensures { words_of result ≡ row_of (found_at object.now (sought_of found)) }
{
    match found {
        None => Row {
            code: 1,
            field: 0,
            id: 0,
            start: 0,
            end: 0,
        },
        Some(k) => {
            let place = field_place(object, l, k);
            Row {
                code: 0,
                field: k as u32,
                id: layer::id_at(object, l, k) as u32,
                start: place.start as u32,
                end: place.end as u32,
            }
        }
    }
}

pub fn write_row(words: &mut [u32], at: usize, row: Row)
    requires { at + 5 ≤ length words.old }
    ensures { words.new ≡ sets words.old at (words_of row) }
{
    words[at] = row.code;
    words[at + 1] = row.field;
    words[at + 2] = row.id;
    words[at + 3] = row.start;
    words[at + 4] = row.end;
}
