// A script put to a new certifier beside a store.
use certifier::Certifier;
use link::Link;
use pair::Pair;
use replay::replay;
use std::alloc::{AllocError, Global};
use std::process::Abort;
use store::{Archive, Store};
use table::{Shape, Table};

// What a script gets over a store.
fn over<S: Store>(heap: Global, store: &mut S, script: &[u8]) -> Result<Vec<u8>, AllocError>
    requires { S.Archive.sound store.old }
{
    let mut certifier = Certifier::new();
    let mut answers = Vec::new(heap);
    replay(&mut certifier, store, script, &mut answers)?;
    Ok(answers)
}

// What a script gets over a table in these words, of so many granules, each of depth 1.
pub(crate) fn over_table(
    heap: Global,
    words: &mut [u64],
    granules: usize,
    script: &[u8],
) -> Result<Vec<u8>, AllocError> {
    let shape = Shape { granules, depth: 1 };
    over(heap, &mut Table::new(words, shape), script)
}

// What a script gets over the roster's store.
pub(crate) fn over_roster(heap: Global, script: &[u8]) -> Result<Vec<u8>, AllocError> {
    let mut near = [0u64; 128];
    let mut far = [0u64; 128];
    let shape = Shape {
        granules: 8,
        depth: 8,
    };
    let link = Link::new(Table::new(&mut far, shape));
    over(
        heap,
        &mut Pair::new(Table::new(&mut near, shape), link),
        script,
    )
}

pub(crate) fn expect(rt: &impl Abort, answers: Vec<u8>, expected: &[u8]) {
    assert!(rt; answers.as_slice() == expected);
}
