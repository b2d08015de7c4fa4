// The bytes before a separator, and those after it.
ghost use Rattle.std.specs.Prelude.{◌≡◌, ◌<◌, ◌==◌, length, IfSome};
ghost use Rattle.std.specs.List.{position_from};
ghost use Rattle.std.specs.Option.{option_map};
ghost use Rattle.script.specs.Pieces.{first, others};

#[derive(Clone, Copy)]
pub struct Piece<'a> {
    pub bytes: &'a [u8],
    // what follows the separator, if there is one
    pub rest: Option<&'a [u8]>,
}

// Where the first separator stands.
fn place_of(s: &[u8], separator: u8) -> Option<usize>
    ensures first { result ≡ position_from (λ c. c == separator) 0 s.now }
    ensures inside { IfSome result (λ i. i < length s.now) }
{
    s.iter().position(|byte| *byte == separator)
}

#[tactic(auto, using(crate::proofs::PieceLaw::cut_facts))]
pub fn cut_at(s: &[u8], separator: u8) -> Piece<'_>
    ensures bytes { result.bytes.now ≡ first separator s.now }
    ensures rest { option_map (λ x. x.now) result.rest ≡ others separator s.now }
{
    match place_of(s, separator) {
        Some(i) => Piece {
            bytes: &s[..i],
            rest: Some(&s[i + 1..]),
        },
        None => Piece {
            bytes: s,
            rest: None,
        },
    }
}
