// Why a line or a script is not read.
ghost use Rattle.std.specs.Prelude.{◌≡◌};
ghost use Rattle.script.specs.Unreads.{unread_number};

// What is not read, with the number of its refusal.
#[derive(Clone, Copy, PartialEq, Eq, Debug)]
pub enum Unread {
    // a line that is no event
    Line = 16,
    // a script that is too long
    Script = 17,
}

impl Unread {
    pub fn number(self) -> u8
        ensures { result ≡ unread_number self }
    {
        self as u8
    }
}
