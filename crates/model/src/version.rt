// Versions: what a granule held from one moment on. A granule is one cell of a relation.
ghost use Rattle.std.specs.Prelude.{◌≡◌};
ghost use Rattle.model.specs.Slots.{code_of};

// What a version says: an entry, by its code, or that there is none. It is no `Option`, since a
// transaction's own write is one of these or none: two options in each other would say less.
#[derive(Clone, Copy, PartialEq, Eq, Debug)]
pub enum Content {
    Entry(u64),
    Absence,
}

// A stamp is its writer's arrival moment, from 1 to 2^62 - 1.
#[derive(Clone, Copy, PartialEq, Eq, Debug)]
pub struct Version {
    pub stamp: u64,
    pub content: Content,
}

// A member of a write set: a granule with what was last written there.
#[derive(Clone, Copy, PartialEq, Eq, Debug)]
pub struct Write {
    pub granule: usize,
    pub content: Content,
}

impl Content {
    // The code of an entry; an absence has none.
    pub fn code(self) -> Option<u64>
        ensures { result ≡ code_of self }
    {
        match self {
            Content::Entry(code) => Some(code),
            Content::Absence => None,
        }
    }
}
