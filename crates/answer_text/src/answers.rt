// Lines of the output. Each function is given the output, and an answer also the event that it is
// of, which is the caller's: a struct of the two would hold two loans.
ghost use Rattle.std.specs.Prelude.{[], ◌∷◌, ◌++◌};
ghost use Rattle.script.specs.Events.{said};
ghost use Rattle.answer_text.specs.Output.{Appends};
ghost use Rattle.answer_text.specs.Texts.{outcome_text, answer_line, unread_line};

use crate::push::{push_byte, push_bytes};
use crate::replies::{push_refusal, push_reply};
use model::{Refusal, Reply};
use script::{Event, Unread};
use std::alloc::AllocError;

fn push_outcome(
    out: &mut Vec<u8>,
    event: &Event<'_>,
    outcome: Result<Reply, Refusal>,
) -> Result<(), AllocError>
    ensures { Appends
        out.old.items out.new.items
        (outcome_text (said event.now) outcome) result }
{
    match outcome {
        Ok(reply) => push_reply(out, event, reply),
        Err(refusal) => push_refusal(out, refusal),
    }
}

// The answer to an event, with its line feed.
pub fn push_answer(
    out: &mut Vec<u8>,
    event: &Event<'_>,
    outcome: Result<Reply, Refusal>,
) -> Result<(), AllocError>
    ensures { Appends
        out.old.items out.new.items
        (answer_line (said event.now) outcome ++ (10 ∷ [])) result }
{
    push_byte(out, event.letter())?;
    push_outcome(out, event, outcome)?;
    push_byte(out, b'\n')
}

// The answer to a line that is no event, or to a script that is too long.
#[tactic(auto, using(crate::proofs::Appended::unread_bytes))]
pub fn push_unread(out: &mut Vec<u8>, why: Unread) -> Result<(), AllocError>
    ensures { Appends
        out.old.items out.new.items
        (unread_line why ++ (10 ∷ [])) result }
{
    // in one piece: a script may have nothing but such lines
    let number = why.number();
    let (tens, ones) = (b'0' + number / 10, b'0' + number % 10);
    push_bytes(out, &[b'?', b' ', b'n', b'o', b' ', tens, ones, b'\n'])
}
