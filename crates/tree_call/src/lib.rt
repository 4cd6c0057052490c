// The call that checks a whole tree. It is `lichenhusk`'s by one line, and its promise is proved here.
#![tactic(auto)]

ghost use Rattle.tree_call.specs.Promises.{TreePromise};

use strip::STRIP;

// A whole tree: 0, 0, 0, its own length; or a refusal with the start of the value that it is of. The marks, one a start, are all 0 afterwards.
pub fn tree(dict: &[u8], value: &[u8], marks: &mut [u8], strip: &mut [u8]) -> u32
    ensures { TreePromise dict.now value.now marks.old strip.old result strip.new marks.new }
{
    if strip.len() < STRIP {
        return 40;
    }
    let words = reports::of_tree(tree::check_with(dict, value, marks));
    strip::write(strip, words)
}
