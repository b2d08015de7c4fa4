// The lines of a script. A line ends with byte 10 or with the script; no line follows a last
// byte 10, and an empty script has none.
ghost use Rattle.std.specs.Prelude.{◌≡◌, ◌<◌, ◌≤◌, [], ◌∷◌, length, MatchOption, nat_le};
ghost use Rattle.std.specs.Iterator.{YieldsFirstRef, item_count};
ghost use Rattle.std.specs.Option.{unwrap_or};
ghost use Rattle.script.specs.Lines.{lines_of, first_line, after_line, Joined, max_script};

use crate::pieces::cut_at;

pub const MAX_SCRIPT: usize = 16384;

// The first line of a script, and what is left of it.
#[derive(Clone, Copy)]
pub struct Cut<'a> {
    pub line: &'a [u8],
    pub rest: &'a [u8],
}

#[tactic(auto, using(crate::proofs::LineLaw::line_facts))]
pub fn next_line(script: &[u8]) -> Option<Cut<'_>>
    ensures parts { MatchOption result
        (script.now ≡ [])
        (λ c. (c.line.now ≡ first_line script.now)
        × (c.rest.now ≡ after_line script.now)) }
    ensures shorter { MatchOption result
        (Unit {0})
        (λ c. length c.rest.now < length script.now) }
    ensures lines { MatchOption result
        (lines_of script.now ≡ [])
        (λ c. lines_of script.now ≡ c.line.now ∷ lines_of c.rest.now) }
    ensures joined { Joined script.now }
{
    if script.is_empty() {
        return None;
    }
    let piece = cut_at(script, b'\n');
    Some(Cut {
        line: piece.bytes,
        rest: piece.rest.unwrap_or(&[]),
    })
}

// What is left of a script, line by line.
#[derive(Clone, Copy)]
pub struct Lines<'a> {
    rest: &'a [u8],
}

impl Lines<'_> {
    // All lines of a script, in order.
    #[tactic(auto, using(crate::proofs::LineLaw::lines_at_most))]
    pub fn of(script: &[u8]) -> Lines<'_>
        ensures all { lines_of result.rest.now ≡ lines_of script.now }
        ensures at_most { length (lines_of result.rest.now) ≤ length script.now }
    {
        Lines { rest: script }
    }
}

impl<'a> Iterator for Lines<'a> {
    type Item = &'a [u8];

    ghost next_gives = { YieldsFirstRef (λ s. lines_of s.rest.now) };

    ghost remaining = { item_count (λ s. lines_of s.rest.now) };

    fn next(&mut self) -> Option<&'a [u8]> {
        let cut = next_line(self.rest)?;
        self.rest = cut.rest;
        Some(cut.line)
    }
}

// A script has at most MAX_SCRIPT bytes.
pub fn fits(script: &[u8]) -> bool
    ensures { result ≡ nat_le (length script.now) max_script }
{
    script.len() <= MAX_SCRIPT
}
