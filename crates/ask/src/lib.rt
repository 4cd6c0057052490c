// The library's calls as programs make them: each asks through the strip, as a host does, and takes the six numbers out of it.
// Those that fill room, too, are in `ask_into`.
#![tactic(auto)]

ghost use Rattle.std.specs.Prelude.{◌≡◌};
ghost use Rattle.lichenhusk.specs.Strip.{lookup_words, layer_words, verdict_words, name_at_words, value_words, tree_words};
ghost use Rattle.answers.specs.Numbers.{numbers_of};

use answers::{Answer, read};
use strip::STRIP;

pub fn dictionary(dict: &[u8]) -> Answer
    ensures { numbers_of result ≡ verdict_words dict.now }
{
    let mut strip = [0u8; STRIP];
    lichenhusk::lichenhusk_dictionary(dict, &mut strip);
    read(&strip)
}

pub fn name(dict: &[u8], entry: usize) -> Answer
    ensures { numbers_of result ≡ name_at_words dict.now entry }
{
    let mut strip = [0u8; STRIP];
    lichenhusk::lichenhusk_name(dict, entry, &mut strip);
    read(&strip)
}

pub fn layer(dict: &[u8], object: &[u8]) -> Answer
    ensures { numbers_of result ≡ layer_words dict.now object.now }
{
    let mut strip = [0u8; STRIP];
    lichenhusk::lichenhusk_layer(dict, object, &mut strip);
    read(&strip)
}

pub fn lookup(dict: &[u8], object: &[u8], name: &[u8]) -> Answer
    ensures { numbers_of result ≡ lookup_words dict.now object.now name.now }
{
    let mut strip = [0u8; STRIP];
    lichenhusk::lichenhusk_lookup(dict, object, name, &mut strip);
    read(&strip)
}

// A value read as a number, or as the place of its bytes.
pub fn value(value: &[u8]) -> Answer
    ensures { numbers_of result ≡ value_words value.now }
{
    let mut strip = [0u8; STRIP];
    lichenhusk::lichenhusk_value(value, &mut strip);
    read(&strip)
}

// A whole tree. It is lent no marks: the check has its own for as many starts as a program has bytes.
pub fn tree(dict: &[u8], value: &[u8]) -> Answer
    ensures { numbers_of result ≡ tree_words dict.now value.now }
{
    let mut none = [0u8; 0];
    let mut strip = [0u8; STRIP];
    lichenhusk::lichenhusk_tree(dict, value, &mut none, &mut strip);
    read(&strip)
}
