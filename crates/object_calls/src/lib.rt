// The calls of one layer: its verdict, and a field by its name. Each is `lichenhusk`'s by one line, and its promise is proved here.
#![tactic(auto)]

ghost use Rattle.object_calls.specs.Promises.{LayerPromise, LookupPromise};

use strip::STRIP;

// Layer verdict: field count, 0, region start, trimmed end.
pub fn layer(dict: &[u8], object: &[u8], strip: &mut [u8]) -> u32
    ensures { LayerPromise dict.now object.now strip.old result strip.new }
{
    if strip.len() < STRIP {
        return 40;
    }
    let words = words::of_layer(object::check(dict, object));
    strip::write(strip, words)
}

// Lookup by name: field, id, start, end.
pub fn lookup(dict: &[u8], object: &[u8], name: &[u8], strip: &mut [u8]) -> u32
    ensures { LookupPromise dict.now object.now name.now strip.old result strip.new }
{
    if strip.len() < STRIP {
        return 40;
    }
    let words = words::of_lookup(lookup::get(dict, object, name));
    strip::write(strip, words)
}
