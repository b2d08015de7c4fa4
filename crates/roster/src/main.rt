// Reads a script from standard input, puts it to a certifier beside an empty roster, and writes
// the answers. A refused line is an answer like any other, so the status is 0 then too.
#![tactic(auto)]

use certifier::Certifier;
use link::Link;
use pair::Pair;
use replay::replay;
use std::io;
use std::io::{Read, Write};
use table::{Shape, Table};

// The shape of each half, and the words that it takes.
const SHAPE: Shape = Shape {
    granules: 8,
    depth: 8,
};

const WORDS: usize = 2 * SHAPE.granules * SHAPE.depth;

fn main(rt: HostRuntime) -> io::Result<()> {
    let mut script = Vec::new(rt.alloc());
    rt.stdin().read_to_end(&mut script)?;
    let mut near = [0u64; WORDS];
    let mut far = [0u64; WORDS];
    let duties = Table::new(&mut near, SHAPE);
    let licences = Link::new(Table::new(&mut far, SHAPE));
    let mut store = Pair::new(duties, licences);
    let mut certifier = Certifier::new();
    let mut answers = Vec::new(rt.alloc());
    replay(&mut certifier, &mut store, script.as_slice(), &mut answers)?;
    rt.stdout().write_all(answers.as_slice())
}
