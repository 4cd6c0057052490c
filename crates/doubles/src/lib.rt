// Whether a name stands twice, and where first (document 02, k: 26). Names that were sorted, each once, are fewer then; the place is found by
// halving, or by search where there is no scratch.
#![tactic(auto)]

ghost use Rattle.std.specs.Prelude.{◌≡◌, ◌≤◌, ◌<◌, length};
ghost use Rattle.sets.specs.Sets.{collect};
ghost use Rattle.source.specs.Names.{name_of, count_of, Sound};
ghost use Rattle.doubles.specs.Doubles.{Double as FirstDouble};
ghost use Rattle.doubles.specs.Steps.{SeenOf, DoublesOf, SearchedOf};

use source::{Source, compare};

// The first number whose name an earlier one has.
#[derive(Clone, Copy)]
pub struct Double {
    pub number: usize,
}

// Whether a number before k has the name of k.
fn is_seen(run: &[u8], words: &[u32], k: usize, kind: Source) -> bool
    requires { Sound run.now words.now kind × (k < count_of words.now kind) }
    ensures { SeenOf (name_of run.now words.now kind) k result }
{
    for i in 0..k {
        if compare(run, words, kind, i, k).is_eq() {
            return true;
        }
    }
    false
}

// By search: each name among those before it.
fn search(run: &[u8], words: &[u32], kind: Source) -> Result<(), Double>
    requires { Sound run.now words.now kind }
    ensures { SearchedOf (name_of run.now words.now kind) (count_of words.now kind) result }
{
    for number in 0..source::count_of(words, kind) {
        if is_seen(run, words, number, kind) {
            return Err(Double { number });
        }
    }
    Ok(())
}

// How many names the first numbers have, each once: they are sorted in scratch.
fn count_names(
    run: &[u8],
    words: &[u32],
    many: usize,
    order: &mut [u32],
    spare: &mut [u32],
    kind: Source,
) -> usize
    requires { Sound run.now words.now kind × (many ≤ count_of words.now kind) × (many ≤ length order.old) × (many ≤ length spare.old) × (count_of words.now kind < 4294967296) }
    ensures { result ≡ length (collect (name_of run.now words.now kind) 0 many) }
{
    sort::sort(
        run,
        words,
        0,
        &mut order[0..many],
        &mut spare[0..many],
        kind,
    )
}

// By halving, where there is a double: of the numbers up to `low` no two have one name, of those up to `high` some do.
fn halve(
    run: &[u8],
    words: &[u32],
    n: usize,
    order: &mut [u32],
    spare: &mut [u32],
    kind: Source,
) -> usize
    requires { Sound run.now words.now kind × (n ≡ count_of words.now kind) × (n ≤ length order.old) × (n ≤ length spare.old) × (n < 4294967296) × (length (collect (name_of run.now words.now kind) 0 n) < n) }
    ensures { FirstDouble (name_of run.now words.now kind) n result }
{
    // No `for`: each turn leaves half of the numbers, and not the next of a row of them.
    let mut low = 0;
    let mut high = n;
    while 1 < high - low {
        let middle = low + (high - low) / 2;
        if count_names(run, words, middle, order, spare, kind) < middle {
            high = middle;
        } else {
            low = middle;
        }
    }
    low
}

// The first number whose name an earlier one has; or where the names stand in order, if scratch is enough.
pub fn check(
    run: &[u8],
    words: &[u32],
    order: &mut [u32],
    spare: &mut [u32],
    kind: Source,
) -> Result<Option<usize>, Double>
    requires { Sound run.now words.now kind }
    ensures { DoublesOf run.now words.now kind order.new result }
{
    match pick::plan_for(run, words, order, spare, kind) {
        Some(many) => {
            let n = source::count_of(words, kind);
            if many == n {
                return Ok(Some(many));
            }
            Err(Double {
                number: halve(run, words, n, order, spare, kind),
            })
        }
        None => {
            search(run, words, kind)?;
            Ok(None)
        }
    }
}
