// What a question on a line is answered by, to standard output: what is here promises safety only.
#![tactic(auto)]

use answers::Answer;
use operands::Fault;
use operands::faults::reason;
use print::{tell, write_words};
use slices::first;
use std::io;

pub mod expected;

#[derive(Clone, Copy)]
pub enum Outcome {
    Answered(Answer),
    Listed { answer: Answer, filled: usize },
}

// An answer as a line has it: six numbers, and where words were filled ` :` and these; or `? ` and why the line is no case. `room` is how
// many bytes a word of it may spell.
pub fn write(
    rt: &impl Print,
    outcome: Result<Outcome, Fault>,
    words: &[u32],
    room: usize,
) -> io::Result<()> {
    match outcome {
        Ok(Outcome::Answered(a)) => answers::write(rt, a),
        Ok(Outcome::Listed { answer, filled }) => {
            answers::write(rt, answer)?;
            tell(rt, b" :")?;
            write_words(rt, first(words, filled))
        }
        Err(fault) => {
            tell(rt, b"? ")?;
            reason(rt, fault, room)
        }
    }
}
