// The call that reads one value. It is `lichenhusk`'s by one line, and its promise is proved here.
#![tactic(auto)]

ghost use Rattle.value_call.specs.Promises.{ValuePromise};

use strip::STRIP;

// A value: its kind, 0, and its 64 bits in two words, or the start and end of its bytes.
pub fn value(value: &[u8], strip: &mut [u8]) -> u32
    ensures { ValuePromise value.now strip.old result strip.new }
{
    if strip.len() < STRIP {
        return 40;
    }
    let words = bits::of_value(value::read(value));
    strip::write(strip, words)
}
