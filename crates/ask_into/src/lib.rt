// The library's calls that fill room beside the strip, as programs make them: see `ask`.
#![tactic(auto)]

ghost use Rattle.std.specs.Prelude.{◌≡◌, ◌≤◌, ◌<◌, length};
ghost use Rattle.many.specs.Many.{rows_after};
ghost use Rattle.listing.specs.Words.{words_after};
ghost use Rattle.parsing.specs.Parsing.{answer, names_after, words_after as steps_after};
ghost use Rattle.write.specs.Writing.{room_after};
ghost use Rattle.write_object.specs.Writing.{room_after as object_after};
ghost use Rattle.lichenhusk.specs.Strip.{all_words, list_words, path_words, write_words, write_object_words};
ghost use Rattle.answers.specs.Numbers.{numbers_of};

use answers::{Answer, read};
use strip::STRIP;

// The words for the steps of any path of as many bytes as a program has room for: three a step, and a step for every two bytes.
pub const STEPS: usize = 98_304;

// Many names at one check. The six words are whole for as many ends as 32 bits can number: the place of 45 is one of them.
pub fn lookup_all(
    dict: &[u8],
    object: &[u8],
    names: &[u8],
    ends: &[u32],
    words: &mut [u32],
) -> Answer
    ensures result_value { length ends.now ≤ 4294967296 → numbers_of result ≡ all_words dict.now object.now names.now ends.now words.old }
    ensures words_after { words.new ≡ rows_after dict.now object.now names.now ends.now words.old }
{
    let mut strip = [0u8; STRIP];
    lichenhusk::lichenhusk_lookup_all(dict, object, names, ends, words, &mut strip);
    read(&strip)
}

pub fn list(dict: &[u8], object: &[u8], words: &mut [u32]) -> Answer
    ensures result_value { numbers_of result ≡ list_words dict.now object.now words.old }
    ensures words_after { words.new ≡ words_after dict.now object.now words.old }
{
    let mut strip = [0u8; STRIP];
    lichenhusk::lichenhusk_list(dict, object, words, &mut strip);
    read(&strip)
}

// By path. The six words are whole for a value and as many words as 32 bits can number: the empty path finds the whole, and the place of 53 is a step.
pub fn path(dict: &[u8], value: &[u8], path: &[u8], names: &mut [u8], words: &mut [u32]) -> Answer
    ensures result_value { length value.now < 4294967296 → length words.old ≤ 4294967296 → numbers_of result ≡ path_words dict.now value.now path.now names.old words.old }
    ensures names_after { names.new ≡ names_after (answer path.now names.old words.old) names.old }
    ensures words_after { words.new ≡ steps_after (answer path.now names.old words.old) words.old }
{
    let mut strip = [0u8; STRIP];
    lichenhusk::lichenhusk_path(dict, value, path, names, words, &mut strip);
    read(&strip)
}

// A dictionary from names. The six words are whole for as many ends as 32 bits can number: the place of 45 is one of them.
pub fn write_dictionary(
    run: &[u8],
    ends: &[u32],
    order: &mut [u32],
    spare: &mut [u32],
    room: &mut [u8],
) -> Answer
    ensures result_value { length ends.now ≤ 4294967296 → numbers_of result ≡ write_words run.now ends.now room.old }
    ensures room_after { room.new ≡ room_after run.now ends.now room.old }
{
    let mut strip = [0u8; STRIP];
    lichenhusk::lichenhusk_write_dictionary(run, ends, order, spare, room, &mut strip);
    read(&strip)
}

// An object layer from pairs over a dictionary. The six words are whole for as many words of pairs as 32 bits can number: a place is one of the pairs.
pub fn write_object(
    dict: &[u8],
    bytes: &[u8],
    pairs: &[u32],
    order: &mut [u32],
    spare: &mut [u32],
    room: &mut [u8],
) -> Answer
    ensures result_value { length pairs.now ≤ 4294967296 → numbers_of result ≡ write_object_words dict.now bytes.now pairs.now room.old }
    ensures room_after { room.new ≡ object_after dict.now bytes.now pairs.now room.old }
{
    let mut strip = [0u8; STRIP];
    lichenhusk::lichenhusk_write_object(dict, bytes, pairs, order, spare, room, &mut strip);
    read(&strip)
}
