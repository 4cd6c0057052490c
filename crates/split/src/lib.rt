// The lines of a text as names, for a dictionary that is written of them.
#![tactic(auto)]

ghost use Rattle.std.specs.Prelude.{◌≤◌, ◌<◌, length};
ghost use Rattle.split.specs.Promises.{GatherPromise};

use text::find;

// The first `len` bytes of a run, and the first `count` ends.
#[derive(Drop)]
pub struct Names {
    pub len: usize,
    pub count: usize,
}

// A name a line, without its newline. There are no more names than bytes.
pub fn gather(text: &[u8], run: &mut [u8], ends: &mut [u32]) -> Names
    requires { (length text.now ≤ length run.old) × (length text.now ≤ length ends.old) × (length text.now < 4294967296) }
    ensures gather_promise { GatherPromise text.now run.old ends.old result run.new ends.new }
    ensures len_in_bounds { (result.len ≤ length run.new) × (result.count ≤ length ends.new) }
{
    let mut at: usize = 0;
    // No `for`: a line is as long as it is, and the next starts behind it.
    let mut len: usize = 0;
    let mut count: usize = 0;
    while at < text.len() {
        let end = find(text, at, b'\n');
        put::copy(text, at, end - at, run, len);
        len += end - at;
        ends[count] = len as u32;
        count += 1;
        at = end + 1;
    }
    Names { len, count }
}
