// The call by a path. It is `lichenhusk`'s by one line, and its promise is proved here.
#![tactic(auto)]

ghost use Rattle.path_call.specs.Promises.{PathPromise};

use strip::STRIP;

// By path: field or index, id, start and end of what stands there; names and words have the path's steps.
pub fn path(
    dict: &[u8],
    value: &[u8],
    path: &[u8],
    names: &mut [u8],
    words: &mut [u32],
    strip: &mut [u8],
) -> u32
    ensures { PathPromise dict.now value.now path.now names.old words.old strip.old result strip.new names.new words.new }
{
    if strip.len() < STRIP {
        return 40;
    }
    let six = arrivals::of_asked(path::get(dict, value, path, names, words));
    strip::write(strip, six)
}
