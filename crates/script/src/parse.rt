// The event that a line is.
ghost use Rattle.std.specs.Prelude.{◌≡◌, IfSome};
ghost use Rattle.std.specs.Char.{is_ascii_alphanumeric};
ghost use Rattle.std.specs.List.{list_all};
ghost use Rattle.std.specs.Option.{option_map, option_and_then};
ghost use Rattle.script.specs.Events.{said, name_ok};
ghost use Rattle.script.specs.Reading.{begin_of, plain_from, event_in, event_of};
ghost use Rattle.script.specs.Reading.{next_number, after_number, at_end, read_from};
ghost use Rattle.script.specs.Writing.{Format};

use crate::events::{Event, EventKind};
use crate::letters::kind_of;
use crate::numbers::number;
use crate::pieces::cut_at;

const MAX_LINE: usize = 64;

#[tactic(auto, using(crate::proofs::FormatLaw::format_law))]
pub fn event(line: &[u8]) -> Option<Event<'_>>
    ensures value { option_map said result ≡ event_of line.now }
    ensures format { Format line.now (option_map said result) }
{
    if line.len() > MAX_LINE {
        return None;
    }
    event_in(line)
}

// The event of a line of any length.
fn event_in(line: &[u8]) -> Option<Event<'_>>
    ensures { option_map said result ≡ event_in line.now }
{
    let word = cut_at(line, b' ');
    let [letter] = *word.bytes else {
        return None;
    };
    let kind = kind_of(char::from(letter))?;
    match kind {
        EventKind::Begin => begin(word.rest?),
        _ => plain(kind, word.rest),
    }
}

// A begin by what follows its letter and a space: the stamp, a space and the tablet's name.
fn begin(s: &[u8]) -> Option<Event<'_>>
    ensures { option_map said result ≡ begin_of s.now }
{
    let mut words = Words { left: Some(s) };
    let stamp = words.number()?;
    let name = words.left?;
    is_name(name).then_some(Event::Begin { stamp, name })
}

// A tablet's name has 1 to 8 letters or digits.
fn is_name(s: &[u8]) -> bool
    ensures { result ≡ name_ok s.now }
{
    (1..=8).contains(&s.len()) && is_alphanumeric(s)
}

fn is_alphanumeric(s: &[u8]) -> bool
    ensures { result ≡ list_all is_ascii_alphanumeric s.now }
{
    s.iter().all(|byte| byte.is_ascii_alphanumeric())
}

// The words that are left of a line.
#[derive(Clone, Copy)]
struct Words<'a> {
    // what follows the space before them, if there is one
    left: Option<&'a [u8]>,
}

impl Words<'_> {
    // The next word as a number.
    fn number(&mut self) -> Option<u64>
        ensures value { result ≡ next_number (option_map (λ x. x.now) self.old.left) }
        ensures rest { IfSome result (λ _.
            option_map (λ x. x.now) self.new.left
            ≡ after_number (option_map (λ x. x.now) self.old.left)) }
    {
        let word = cut_at(self.left?, b' ');
        self.left = word.rest;
        number(word.bytes)
    }

    // The next word as a granule.
    fn granule(&mut self) -> Option<usize>
        ensures value { result ≡ next_number (option_map (λ x. x.now) self.old.left) }
        ensures rest { IfSome result (λ _.
            option_map (λ x. x.now) self.new.left
            ≡ after_number (option_map (λ x. x.now) self.old.left)) }
    {
        usize::try_from(self.number()?).ok()
    }

    // An event of a kind by as many words as it has numbers. A begin, which has a name, is read
    // apart.
    fn event<'b>(&mut self, kind: EventKind) -> Option<Event<'b>>
        ensures { option_and_then
            (λ e. at_end e (option_map (λ x. x.now) self.new.left)) (option_map said result)
            ≡ read_from kind (option_map (λ x. x.now) self.old.left) }
    {
        match kind {
            EventKind::Open => Some(Event::Open),
            EventKind::Begin => None,
            EventKind::Read => Some(Event::Read {
                stamp: self.number()?,
                attempt: self.number()?,
                granule: self.granule()?,
            }),
            EventKind::Write => Some(Event::Write {
                stamp: self.number()?,
                attempt: self.number()?,
                granule: self.granule()?,
                code: self.number()?,
            }),
            EventKind::Erase => Some(Event::Erase {
                stamp: self.number()?,
                attempt: self.number()?,
                granule: self.granule()?,
            }),
            EventKind::Commit => Some(Event::Commit {
                stamp: self.number()?,
                attempt: self.number()?,
            }),
            EventKind::RollBack => Some(Event::RollBack {
                stamp: self.number()?,
                attempt: self.number()?,
            }),
            EventKind::Advance => Some(Event::Advance),
            EventKind::Status => Some(Event::Status {
                stamp: self.number()?,
            }),
            EventKind::Notice => Some(Event::Notice {
                number: self.number()?,
            }),
        }
    }
}

// Any other event by what follows its letter and a space: numbers alone.
#[tactic(auto, using(crate::proofs::WordLaw::reads))]
fn plain<'a>(kind: EventKind, left: Option<&'a [u8]>) -> Option<Event<'a>>
    ensures { option_map said result ≡ plain_from kind (option_map (λ x. x.now) left.entry) }
{
    let mut words = Words { left };
    let event = words.event(kind)?;
    words.left.is_none().then_some(event)
}
