// What follows the letter of an answered line.
// A `usize` is a `u64` by `as`: it has no `From`, and `try_from` adds a failure that never comes.
ghost use Rattle.script.specs.Events.{said};
ghost use Rattle.script.specs.Writing.{named};
ghost use Rattle.answer_text.specs.Output.{Appends};
ghost use Rattle.answer_text.specs.Texts.{phase_text, step_text, status_text};
ghost use Rattle.answer_text.specs.Texts.{reply_text, refusal_text};

use crate::push::{push_byte, push_bytes, push_word};
use model::{Phase, Refusal, Reply, Status, Step};
use script::Event;
use std::alloc::AllocError;

// The tablet's name, after a space.
fn push_name(out: &mut Vec<u8>, event: &Event<'_>) -> Result<(), AllocError>
    ensures { Appends
        out.old.items out.new.items
        (named (said event.now)) result }
{
    match *event {
        Event::Begin { name, .. } => {
            push_byte(out, b' ')?;
            push_bytes(out, name)
        }
        _ => Ok(()),
    }
}

// The phase that a commit leads to.
fn push_phase(out: &mut Vec<u8>, phase: Phase) -> Result<(), AllocError>
    ensures { Appends
        out.old.items out.new.items (phase_text phase) result }
{
    match phase {
        Phase::Waiting => push_word(out, b" ok wait", &[]),
        Phase::Section => push_word(out, b" ok sect", &[]),
        _ => push_word(out, b" ok", &[u64::from(phase.number())]),
    }
}

fn push_step(out: &mut Vec<u8>, step: Step) -> Result<(), AllocError>
    ensures { Appends
        out.old.items out.new.items (step_text step) result }
{
    match step {
        Step::Idle => push_word(out, b" ok idle", &[]),
        Step::Put { granule } => push_word(out, b" ok put", &[granule as u64]),
        Step::Mark => push_word(out, b" ok mark", &[]),
        Step::Again { stamp, granule } => {
            let granule = granule as u64;
            push_word(out, b" ok again", &[stamp, granule])
        }
        Step::Pass { stamp } => push_word(out, b" ok pass", &[stamp]),
        Step::Done { stamp } => push_word(out, b" ok done", &[stamp]),
    }
}

fn push_status(out: &mut Vec<u8>, status: Status) -> Result<(), AllocError>
    ensures { Appends
        out.old.items out.new.items (status_text status) result }
{
    let phase = u64::from(status.phase.number());
    let older = status.older as u64;
    push_word(
        out,
        b" ok",
        &[phase, status.attempt, older, status.notes as u64],
    )
}

pub(crate) fn push_reply(
    out: &mut Vec<u8>,
    event: &Event<'_>,
    reply: Reply,
) -> Result<(), AllocError>
    ensures { Appends
        out.old.items out.new.items
        (reply_text (said event.now) reply) result }
{
    match reply {
        Reply::Opened(opened) => push_word(out, b" ok", &[opened.granules as u64, opened.last]),
        Reply::Began { attempt } => {
            push_word(out, b" ok", &[attempt])?;
            push_name(out, event)
        }
        Reply::Read(None) => push_word(out, b" ok none", &[]),
        Reply::Read(Some(code)) => push_word(out, b" ok", &[code]),
        Reply::Committing(phase) => push_phase(out, phase),
        Reply::Stepped(step) => push_step(out, step),
        Reply::Status(status) => push_status(out, status),
        Reply::Recorded | Reply::RolledBack | Reply::Noticed => push_word(out, b" ok", &[]),
    }
}

pub(crate) fn push_refusal(out: &mut Vec<u8>, refusal: Refusal) -> Result<(), AllocError>
    ensures { Appends
        out.old.items out.new.items (refusal_text refusal) result }
{
    let number = u64::from(refusal.number());
    match refusal {
        Refusal::BadStamp { last } => push_word(out, b" no", &[number, last]),
        Refusal::OldAttempt { present } => push_word(out, b" no", &[number, present]),
        Refusal::WrongPhase { phase } => {
            push_word(out, b" no", &[number, u64::from(phase.number())])
        }
        Refusal::InSection { stamp } => push_word(out, b" no", &[number, stamp]),
        Refusal::Store { granule, fault } => {
            let cause = u64::from(fault.cause.number());
            let layer = u64::from(fault.layer);
            let place = fault.granule as u64;
            push_word(out, b" no", &[number, granule as u64, cause, layer, place])
        }
        Refusal::ForeignCode { code } => push_word(out, b" no", &[number, code]),
        _ => push_word(out, b" no", &[number]),
    }
}
