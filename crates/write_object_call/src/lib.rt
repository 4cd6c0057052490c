// The call that writes an object layer. It is `lichenhusk`'s by one line, and its promise is proved here.
#![tactic(auto)]

ghost use Rattle.std.specs.Prelude.{◌≡◌};
ghost use Rattle.write_object.specs.Answers.{built_numbers};
ghost use Rattle.strip.specs.Shapes.{words_of, layer_shape};
ghost use Rattle.strip.specs.Steps.{list_of};
ghost use Rattle.write_object_call.specs.Promises.{WriteObjectPromise};

use refusals::of_dictionary_refusal;
use strip::{STRIP, Words, answer, refusal};
use write_object::{Built, Refusal};

// How many fields, where the region starts, and how many bytes; or the dictionary's refusals, 25, 26, 45, 28, 20, 46.
fn of_built(b: Result<Built, Refusal>) -> Words
    ensures { list_of result ≡ words_of layer_shape (built_numbers b) }
{
    match b {
        Err(Refusal::Dictionary(r)) => of_dictionary_refusal(r),
        Err(Refusal::NoSuchEntry(k)) => refusal(25, k),
        Err(Refusal::Double(k)) => refusal(26, k),
        Err(Refusal::Outside(k)) => refusal(45, k),
        Err(Refusal::EmptyChild(k)) => refusal(28, k),
        Err(Refusal::TooLong) => refusal(20, 0),
        Err(Refusal::NoRoom) => refusal(46, 0),
        Ok(b) => answer(b.count, 0, b.start, b.length),
    }
}

// An object layer from pairs over a dictionary, to the front of the room: field count, 0, region start, its length. `order` and `spare` are
// scratch.
pub fn write_object(
    dict: &[u8],
    bytes: &[u8],
    pairs: &[u32],
    order: &mut [u32],
    spare: &mut [u32],
    room: &mut [u8],
    strip: &mut [u8],
) -> u32
    ensures { WriteObjectPromise dict.now bytes.now pairs.now room.old strip.old result strip.new room.new }
{
    if strip.len() < STRIP {
        return 40;
    }
    let words = of_built(write_object::write_object(dict, bytes, pairs, order, spare, room));
    strip::write(strip, words)
}
