// What a host calls: each answer as a strip of six little-endian u32. `lichenhusk_c` exports the same calls to C (include/lichenhusk.h).
#![tactic(auto)]

ghost use Rattle.lichenhusk.specs.Promises.{LookupPromise, AllPromise, DictionaryPromise, NamePromise, LayerPromise, ListPromise, ValuePromise, TreePromise, PathPromise, WritePromise, WriteObjectPromise, BeginPromise, FeedPromise, EmptyPromise};

// Lookup by name: field, id, start, end.
pub fn lichenhusk_lookup(dict: &[u8], object: &[u8], name: &[u8], strip: &mut [u8]) -> u32
    ensures { LookupPromise dict.now object.now name.now strip.old result strip.new }
{
    object_calls::lookup(dict, object, name, strip)
}

// Lookup of many names at one check: as the layer, and five words a name.
pub fn lichenhusk_lookup_all(
    dict: &[u8],
    object: &[u8],
    names: &[u8],
    ends: &[u32],
    words: &mut [u32],
    strip: &mut [u8],
) -> u32
    ensures { AllPromise dict.now object.now names.now ends.now words.old strip.old result strip.new words.new }
{
    many_calls::lookup_all(dict, object, names, ends, words, strip)
}

// Dictionary verdict: entry count, 0, 0, trimmed end.
pub fn lichenhusk_dictionary(dict: &[u8], strip: &mut [u8]) -> u32
    ensures { DictionaryPromise dict.now strip.old result strip.new }
{
    dictionary_calls::dictionary(dict, strip)
}

// Name by entry number: 0, 0, start, end.
pub fn lichenhusk_name(dict: &[u8], entry: usize, strip: &mut [u8]) -> u32
    ensures { NamePromise dict.now entry strip.old result strip.new }
{
    dictionary_calls::name(dict, entry, strip)
}

// Layer verdict: field count, 0, region start, trimmed end.
pub fn lichenhusk_layer(dict: &[u8], object: &[u8], strip: &mut [u8]) -> u32
    ensures { LayerPromise dict.now object.now strip.old result strip.new }
{
    object_calls::layer(dict, object, strip)
}

// Listing: as the layer, and the words filled.
pub fn lichenhusk_list(dict: &[u8], object: &[u8], words: &mut [u32], strip: &mut [u8]) -> u32
    ensures { ListPromise dict.now object.now words.old strip.old result strip.new words.new }
{
    many_calls::list(dict, object, words, strip)
}

// A value: its kind, 0, and its 64 bits in two words, or the start and end of its bytes.
pub fn lichenhusk_value(value: &[u8], strip: &mut [u8]) -> u32
    ensures { ValuePromise value.now strip.old result strip.new }
{
    value_call::value(value, strip)
}

// A whole tree: 0, 0, 0, its own length; or a refusal with the start of the value that it is of. The marks, one a start, are all 0 afterwards.
pub fn lichenhusk_tree(dict: &[u8], value: &[u8], marks: &mut [u8], strip: &mut [u8]) -> u32
    ensures { TreePromise dict.now value.now marks.old strip.old result strip.new marks.new }
{
    tree_call::tree(dict, value, marks, strip)
}

// By path: field or index, id, start and end of what stands there; names and words have the path's steps.
pub fn lichenhusk_path(
    dict: &[u8],
    value: &[u8],
    path: &[u8],
    names: &mut [u8],
    words: &mut [u32],
    strip: &mut [u8],
) -> u32
    ensures { PathPromise dict.now value.now path.now names.old words.old strip.old result strip.new names.new words.new }
{
    path_call::path(dict, value, path, names, words, strip)
}

// A sorted dictionary from names, to the front of the room: how many, 0, 0, its length. `order` and `spare` are scratch.
pub fn lichenhusk_write_dictionary(
    run: &[u8],
    ends: &[u32],
    order: &mut [u32],
    spare: &mut [u32],
    room: &mut [u8],
    strip: &mut [u8],
) -> u32
    ensures { WritePromise run.now ends.now room.old strip.old result strip.new room.new }
{
    write_call::write_dictionary(run, ends, order, spare, room, strip)
}

// An object layer from pairs over a dictionary, to the front of the room: field count, 0, region start, its length. `order` and `spare` are
// scratch.
pub fn lichenhusk_write_object(
    dict: &[u8],
    bytes: &[u8],
    pairs: &[u32],
    order: &mut [u32],
    spare: &mut [u32],
    room: &mut [u8],
    strip: &mut [u8],
) -> u32
    ensures { WriteObjectPromise dict.now bytes.now pairs.now room.old strip.old result strip.new room.new }
{
    write_object_call::write_object(dict, bytes, pairs, order, spare, room, strip)
}

// The first state of a dictionary that comes in pieces, into the strip: 3, the bytes held, 0, 0, the bytes wanted.
pub fn lichenhusk_begin(strip: &mut [u8]) -> u32
    ensures { BeginPromise strip.old result strip.new }
{
    pieces_call::begin(strip)
}

// One piece, copied into the store after those before it. The strip is the state: 3 as above, or the dictionary's words, or 44, which stay.
pub fn lichenhusk_feed(store: &mut [u8], piece: &[u8], strip: &mut [u8]) -> u32
    ensures { FeedPromise store.old piece.now strip.old result strip.new store.new }
{
    pieces_call::feed(store, piece, strip)
}

// The empty dictionary: 0, or 42 below three bytes of room.
pub fn lichenhusk_empty(room: &mut [u8]) -> u32
    ensures { EmptyPromise room.old result room.new }
{
    dictionary_calls::empty(room)
}
