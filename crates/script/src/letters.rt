// The letter that names an event.
ghost use Rattle.std.specs.Prelude.{◌≡◌};
ghost use Rattle.script.specs.Events.{kind_for, letter_of, said};

use crate::events::{Event, EventKind};

// A match of one `char` against literals, as was asked for.
pub fn kind_of(letter: char) -> Option<EventKind>
    ensures { result ≡ kind_for letter }
{
    match letter {
        'o' => Some(EventKind::Open),
        'b' => Some(EventKind::Begin),
        'r' => Some(EventKind::Read),
        'w' => Some(EventKind::Write),
        'e' => Some(EventKind::Erase),
        'c' => Some(EventKind::Commit),
        'k' => Some(EventKind::RollBack),
        's' => Some(EventKind::Advance),
        'q' => Some(EventKind::Status),
        'n' => Some(EventKind::Notice),
        _ => None,
    }
}

impl Event<'_> {
    pub fn letter(&self) -> u8
        ensures { result ≡ letter_of (said self.now) }
    {
        match self {
            Event::Open => b'o',
            Event::Begin { .. } => b'b',
            Event::Read { .. } => b'r',
            Event::Write { .. } => b'w',
            Event::Erase { .. } => b'e',
            Event::Commit { .. } => b'c',
            Event::RollBack { .. } => b'k',
            Event::Advance => b's',
            Event::Status { .. } => b'q',
            Event::Notice { .. } => b'n',
        }
    }
}
