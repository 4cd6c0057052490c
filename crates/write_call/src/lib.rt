// The call that writes a sorted dictionary. It is `lichenhusk`'s by one line, and its promise is proved here.
#![tactic(auto)]

ghost use Rattle.write_call.specs.Promises.{WritePromise};

use strip::STRIP;

// A sorted dictionary from names, to the front of the room: how many, 0, 0, its length. `order` and `spare` are scratch.
pub fn write_dictionary(
    run: &[u8],
    ends: &[u32],
    order: &mut [u32],
    spare: &mut [u32],
    room: &mut [u8],
    strip: &mut [u8],
) -> u32
    ensures { WritePromise run.now ends.now room.old strip.old result strip.new room.new }
{
    if strip.len() < STRIP {
        return 40;
    }
    let words = receipts::of_written(write::write_dictionary(run, ends, order, spare, room));
    strip::write(strip, words)
}
