// A path such as `site.meter[2]` into lent bytes, its names, and lent words, three a step (utils.rs: parse_path).
#![tactic(auto)]

ghost use Rattle.std.specs.Prelude.{◌≡◌};
ghost use Rattle.steps.specs.Answers.{refusal_number as step_refusal};
ghost use Rattle.parsing.specs.Parsing.{leading_dot, lacking};
ghost use Rattle.parsing.specs.Answers.{refusal_number};
ghost use Rattle.parsing.specs.Promises.{ParsePromise};

pub use writing::Parsed;

// Whether a path starts with a dot.
#[tactic(auto, unfolding(crate::specs::Parsing::leading_dot))]
fn starts_with_dot(path: &[u8]) -> bool
    ensures { result ≡ leading_dot path.now }
{
    matches!(path, [b'.', ..])
}

// Whether `total` bytes and three words for each of `count` steps have no room, or cannot be told in words.
#[tactic(auto, unfolding(width::specs::Limits::u32_max))]
fn no_room(names: usize, words: usize, count: usize, total: usize) -> bool
    ensures { result ≡ lacking names words count total }
{
    words / 3 < count || names < total || 0xFFFF_FFFF < total
}

// One case for each of the refusals 70 to 76.
#[derive(Clone, Copy)]
pub enum Refusal {
    NotUtf8,
    LeadingDot,
    TrailingDot,
    Unexpected,
    Unclosed,
    Bracket,
    NoRoom,
}

// The refusals that a step can meet are among those of the whole call.
impl From<steps::Refusal> for Refusal {
    ghost from_gives = { λ step whole. refusal_number whole ≡ step_refusal step };

    fn from(refusal: steps::Refusal) -> Refusal {
        match refusal {
            steps::Refusal::TrailingDot => Refusal::TrailingDot,
            steps::Refusal::Unexpected => Refusal::Unexpected,
            steps::Refusal::Unclosed => Refusal::Unclosed,
            steps::Refusal::Bracket => Refusal::Bracket,
        }
    }
}

// The steps of a path, into lent bytes and words. All is measured before the first is written, since a refusal leaves both.
pub fn parse(path: &[u8], names: &mut [u8], words: &mut [u32]) -> Result<Parsed, Refusal>
    ensures { ParsePromise path.now names.old words.old result names.new words.new }
{
    if !texts::is_text(path, 0, path.len()) {
        return Err(Refusal::NotUtf8);
    }
    if starts_with_dot(path) {
        return Err(Refusal::LeadingDot);
    }
    let parsed = writing::measure_steps(path)?;
    if no_room(names.len(), words.len(), parsed.count, parsed.total) {
        return Err(Refusal::NoRoom);
    }
    writing::write_steps(path, names, words);
    Ok(parsed)
}
