// The calls that fill lent words from one layer: its listing, and many names at one check. Each is `lichenhusk`'s by one line, and its promise is proved here.
#![tactic(auto)]

ghost use Rattle.many_calls.specs.Promises.{ListPromise, AllPromise};

use strip::STRIP;

// Listing: as the layer, and the words filled.
pub fn list(dict: &[u8], object: &[u8], words: &mut [u32], strip: &mut [u8]) -> u32
    ensures { ListPromise dict.now object.now words.old strip.old result strip.new words.new }
{
    if strip.len() < STRIP {
        return 40;
    }
    let six = words::of_listing(listing::list(dict, object, words));
    strip::write(strip, six)
}

// Lookup of many names at one check: as the layer, and five words a name.
pub fn lookup_all(
    dict: &[u8],
    object: &[u8],
    names: &[u8],
    ends: &[u32],
    words: &mut [u32],
    strip: &mut [u8],
) -> u32
    ensures { AllPromise dict.now object.now names.now ends.now words.old strip.old result strip.new words.new }
{
    if strip.len() < STRIP {
        return 40;
    }
    let six = words::of_lookups(many::get_all(dict, object, names, ends, words));
    strip::write(strip, six)
}
