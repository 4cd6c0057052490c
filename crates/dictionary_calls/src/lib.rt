// The calls of the dictionary alone: its verdict, a name by its number, and the empty one. Each is `lichenhusk`'s by one line, and its promise is proved here.
#![tactic(auto)]

ghost use Rattle.dictionary_calls.specs.Promises.{DictionaryPromise, NamePromise, EmptyPromise};

use metadata::NoRoom;
use strip::STRIP;

// Dictionary verdict: entry count, 0, 0, trimmed end.
pub fn dictionary(dict: &[u8], strip: &mut [u8]) -> u32
    ensures { DictionaryPromise dict.now strip.old result strip.new }
{
    if strip.len() < STRIP {
        return 40;
    }
    let words = words::of_verdict(metadata::check(dict));
    strip::write(strip, words)
}

// Name by entry number: 0, 0, start, end.
pub fn name(dict: &[u8], entry: usize, strip: &mut [u8]) -> u32
    ensures { NamePromise dict.now entry strip.old result strip.new }
{
    if strip.len() < STRIP {
        return 40;
    }
    let words = words::of_entry(metadata::get(dict, entry));
    strip::write(strip, words)
}

// The empty dictionary: 0, or 42 below three bytes of room.
pub fn empty(room: &mut [u8]) -> u32
    ensures { EmptyPromise room.old result room.new }
{
    match metadata::write_empty(room) {
        Ok(()) => 0,
        Err(NoRoom) => 42,
    }
}
