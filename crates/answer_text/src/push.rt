// Bytes and numbers at the end of the output.
ghost use Rattle.std.specs.Prelude.{[], ◌∷◌, ◌++◌, decimal};
ghost use Rattle.script.specs.Writing.{spaced};
ghost use Rattle.answer_text.specs.Output.{Appends};

use itoa::Buffer;
use std::alloc::AllocError;

pub(crate) fn push_byte(out: &mut Vec<u8>, byte: u8) -> Result<(), AllocError>
    ensures { Appends
        out.old.items out.new.items (byte ∷ []) result }
{
    out.push(byte)?;
    Ok(())
}

pub(crate) fn push_bytes(out: &mut Vec<u8>, bytes: &[u8]) -> Result<(), AllocError>
    ensures { Appends
        out.old.items out.new.items bytes.now result }
{
    out.extend_from_slice(bytes)
}

// A number in decimal. Most are one digit, which needs no buffer.
#[tactic(auto, using(crate::proofs::Appended::digit))]
fn push_number(out: &mut Vec<u8>, n: u64) -> Result<(), AllocError>
    ensures { Appends
        out.old.items out.new.items (decimal n) result }
{
    if n < 10 {
        return push_byte(out, b'0' + n as u8);
    }
    push_bytes(out, Buffer::new().format(n).as_bytes())
}

// A number after a space.
fn push_spaced(out: &mut Vec<u8>, n: u64) -> Result<(), AllocError>
    ensures { Appends
        out.old.items out.new.items (32 ∷ decimal n) result }
{
    push_byte(out, b' ')?;
    push_number(out, n)
}

// Each number after a space.
#[tactic(auto, using(crate::proofs::Appended::each_number))]
fn push_numbers(out: &mut Vec<u8>, numbers: &[u64]) -> Result<(), AllocError>
    ensures { Appends
        out.old.items out.new.items
        (spaced numbers.now) result }
{
    for n in numbers {
        push_spaced(out, *n)?;
    }
    Ok(())
}

// A word, and each number after a space.
// `Display` is no plainer: the output is a `Vec<u8>`, into which `write!` fails with an `io` error
// and not with `AllocError`, and a tablet's name is bytes and no `str`.
pub(crate) fn push_word(out: &mut Vec<u8>, word: &[u8], numbers: &[u64]) -> Result<(), AllocError>
    ensures { Appends
        out.old.items out.new.items
        (word.now ++ spaced numbers.now) result }
{
    push_bytes(out, word)?;
    push_numbers(out, numbers)
}
