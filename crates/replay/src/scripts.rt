// Whole scripts. Certifier, store and output are the caller's and are lent to each function: a
// struct of the three would have to own them, or hold three loans.
ghost use Rattle.std.specs.Prelude.{◌≡◌};
ghost use Rattle.replay.specs.Replays.{sense, PutLine, PutLines, PutScript};

use crate::events::put_event;
use answer_text::{push_answer, push_unread};
use certifier::Certifier;
use script::{Lines, Unread, event, fits};
use std::alloc::AllocError;
use store::{Archive, Store};

// Puts one line to the certifier, and writes its answer.
fn put_line<S: Store>(
    certifier: &mut Certifier,
    store: &mut S,
    line: &[u8],
    out: &mut Vec<u8>,
) -> Result<(), AllocError>
    requires { S.Archive.sound store.old }
    ensures sound { S.Archive.sound store.new }
    ensures lent { S.Store.lent store.new
        ≡ S.Store.lent store.old }
    ensures put { PutLine
        (sense S.Archive.means S.Store.room S.Archive.origin)
        certifier.old store.old line.now
        out.old.items out.new.items result
        certifier.new store.new }
{
    match event(line) {
        Some(event) => {
            let outcome = put_event(certifier, store, &event);
            push_answer(out, &event, outcome)
        }
        None => push_unread(out, Unread::Line),
    }
}

// Puts the lines of a script to the certifier one after the other.
fn put_lines<S: Store>(
    certifier: &mut Certifier,
    store: &mut S,
    script: &[u8],
    out: &mut Vec<u8>,
) -> Result<(), AllocError>
    requires { S.Archive.sound store.old }
    ensures sound { S.Archive.sound store.new }
    ensures lent { S.Store.lent store.new
        ≡ S.Store.lent store.old }
    ensures put { PutLines
        (sense S.Archive.means S.Store.room S.Archive.origin)
        certifier.old store.old script.now
        out.old.items out.new.items result
        certifier.new store.new }
{
    for line in Lines::of(script) {
        put_line(certifier, store, line, out)?;
    }
    Ok(())
}

// Puts a script to a certifier beside any store, and writes an answer for each line behind what
// the output holds. An error says that there was no memory for the output.
pub fn replay<S: Store>(
    certifier: &mut Certifier,
    store: &mut S,
    script: &[u8],
    out: &mut Vec<u8>,
) -> Result<(), AllocError>
    requires { S.Archive.sound store.old }
    ensures sound { S.Archive.sound store.new }
    ensures lent { S.Store.lent store.new
        ≡ S.Store.lent store.old }
    ensures put { PutScript
        (sense S.Archive.means S.Store.room S.Archive.origin)
        certifier.old store.old script.now
        out.old.items out.new.items result
        certifier.new store.new }
{
    if !fits(script) {
        return push_unread(out, Unread::Script);
    }
    put_lines(certifier, store, script, out)
}
