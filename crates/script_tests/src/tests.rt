// Each test goes through a table of lines.
use answer_text::*;
use model::*;
use script::*;
use std::alloc::AllocError;
use std::process::Abort;
use std::test::Fail;

#[test]
fn letters(rt: HostRuntime) {
    let cases: [(&[u8], Event<'_>); 11] = [
        (b"o", Event::Open),
        (
            b"b 8 P3",
            Event::Begin {
                stamp: 8,
                name: b"P3",
            },
        ),
        (
            b"b 1 Az09zZ19",
            Event::Begin {
                stamp: 1,
                name: b"Az09zZ19",
            },
        ),
        (
            b"r 8 1 9",
            Event::Read {
                stamp: 8,
                attempt: 1,
                granule: 9,
            },
        ),
        (
            b"w 8 1 9 41",
            Event::Write {
                stamp: 8,
                attempt: 1,
                granule: 9,
                code: 41,
            },
        ),
        (
            b"e 8 1 9",
            Event::Erase {
                stamp: 8,
                attempt: 1,
                granule: 9,
            },
        ),
        (
            b"c 8 1",
            Event::Commit {
                stamp: 8,
                attempt: 1,
            },
        ),
        (
            b"k 8 1",
            Event::RollBack {
                stamp: 8,
                attempt: 1,
            },
        ),
        (b"s", Event::Advance),
        (b"q 0", Event::Status { stamp: 0 }),
        (
            b"n 18446744073709551615",
            Event::Notice { number: u64::MAX },
        ),
    ];
    for (line, expected) in cases {
        assert_eq!(rt; event(line), Some(expected));
    }
}

// None of these lines is an event.
fn unreadable(rt: &impl Abort, lines: &[&[u8]]) {
    for line in lines {
        assert!(rt; event(line).is_none());
    }
}

#[test]
fn bad_numbers(rt: HostRuntime) {
    let spaces: [&[u8]; 7] = [
        b"r 8  1 9",
        b"r 8 1 9 ",
        b"o ",
        b" o",
        b"r",
        b"r ",
        b"b 8 P3 ",
    ];
    unreadable(&rt, &spaces);
    let numbers: [&[u8]; 7] = [
        b"q 08",
        b"q 00",
        b"q 18446744073709551616",
        b"q -1",
        b"q +1",
        b"q 1a",
        b"q \t1",
    ];
    unreadable(&rt, &numbers);
}

#[test]
fn bad_counts(rt: HostRuntime) {
    let counts: [&[u8]; 8] = [
        b"r 8 1",
        b"r 8 1 9 4",
        b"w 8 1 9",
        b"w 8 1 9 4 4",
        b"s 1",
        b"o 1",
        b"c 8",
        b"n",
    ];
    unreadable(&rt, &counts);
}

#[test]
fn bad_names_and_letters(rt: HostRuntime) {
    let names: [&[u8]; 6] = [
        b"b 8",
        b"b 8 ",
        b"b 8 P23456789",
        b"b 8 P-3",
        b"b P3",
        b"b 8 P 3",
    ];
    unreadable(&rt, &names);
    let letters: [&[u8]; 7] = [b"", b"p 8 1 9 4", b"t 8", b"x", b"O", b"oo", b"\xFF"];
    unreadable(&rt, &letters);
}

// Four numbers of 20, 20, 2 and 18 or 19 digits make a line of 64 or 65 bytes.
#[test]
fn long_lines(rt: HostRuntime) {
    let whole = b"w 18446744073709551615 18446744073709551615 10 100000000000000000";
    assert_eq!(rt; whole.len(), 65);
    assert!(rt; event(whole).is_none());
    assert!(rt; event(&whole[0..64]).is_some());
}

// How many lines a script has, and how many of them are events.
fn count(script: &[u8]) -> (usize, usize) {
    let events = Lines::of(script).filter(|line| event(line).is_some());
    (Lines::of(script).count(), events.count())
}

#[test]
fn lines(rt: HostRuntime) {
    let cases: [(&[u8], (usize, usize)); 7] = [
        (b"", (0, 0)),
        (b"\n", (1, 0)),
        (b"o", (1, 1)),
        (b"o\n", (1, 1)),
        (b"o\ns", (2, 2)),
        (b"o\n\ns\n", (3, 2)),
        (b"o\r\ns\n\n", (3, 1)),
    ];
    for (script, expected) in cases {
        assert_eq!(rt; count(script), expected);
    }
    assert!(rt; fits(&[b'o'; 16384]));
    assert!(rt; !fits(&[b'o'; 16385]));
}

fn answer(
    out: &mut Vec<u8>,
    line: &[u8],
    outcome: Result<Reply, Refusal>,
) -> Result<(), AllocError> {
    match event(line) {
        Some(event) => push_answer(out, &event, outcome),
        None => push_unread(out, Unread::Line),
    }
}

type Case<'a> = (&'a [u8], Result<Reply, Refusal>);

// The lines of some answers.
fn answers(out: &mut Vec<u8>, cases: &[Case<'_>]) -> Result<(), AllocError> {
    for (line, outcome) in cases {
        answer(out, line, *outcome)?;
    }
    Ok(())
}

#[test]
fn accepted(rt: HostRuntime) -> Result<(), Fail> {
    let mut out = Vec::new(rt.alloc());
    let status = Status {
        phase: Phase::Committed,
        attempt: 1,
        older: 0,
        notes: 0,
    };
    let cases: [Case<'_>; 11] = [
        (
            b"o",
            Ok(Reply::Opened(Opened {
                granules: 16,
                last: 0,
            })),
        ),
        (b"b 8 P3", Ok(Reply::Began { attempt: 1 })),
        (b"r 8 1 9", Ok(Reply::Read(None))),
        (b"r 8 1 9", Ok(Reply::Read(Some(41)))),
        (b"w 8 1 9 41", Ok(Reply::Recorded)),
        (b"e 8 1 9", Ok(Reply::Recorded)),
        (b"c 8 1", Ok(Reply::Committing(Phase::Waiting))),
        (b"c 8 1", Ok(Reply::Committing(Phase::Section))),
        (b"k 8 1", Ok(Reply::RolledBack)),
        (b"n 3", Ok(Reply::Noticed)),
        (b"q 8", Ok(Reply::Status(status))),
    ];
    answers(&mut out, &cases)?;
    let expected = b"o ok 16 0\nb ok 1 P3\nr ok none\nr ok 41\nw ok\ne ok\nc ok wait\nc ok sect\n\
        k ok\nn ok\nq ok 5 1 0 0\n";
    assert!(rt; out.as_slice() == expected.as_slice());
    Ok(())
}

#[test]
fn steps(rt: HostRuntime) -> Result<(), Fail> {
    let mut out = Vec::new(rt.alloc());
    let steps = [
        Step::Put { granule: 2 },
        Step::Mark,
        Step::Again {
            stamp: 8,
            granule: 2,
        },
        Step::Pass { stamp: 8 },
        Step::Done { stamp: 5 },
        Step::Idle,
    ];
    for step in steps {
        answer(&mut out, b"s", Ok(Reply::Stepped(step)))?;
    }
    let expected = b"s ok put 2\ns ok mark\ns ok again 8 2\ns ok pass 8\ns ok done 5\ns ok idle\n";
    assert!(rt; out.as_slice() == expected.as_slice());
    Ok(())
}

#[test]
fn refused(rt: HostRuntime) -> Result<(), Fail> {
    let mut out = Vec::new(rt.alloc());
    let fault = Fault {
        cause: Cause::OutOfReach,
        layer: 3,
        granule: 1,
    };
    let cases: [Case<'_>; 7] = [
        (b"r 8 1 9", Err(Refusal::OldAttempt { present: 2 })),
        (b"b 8 P3", Err(Refusal::BadStamp { last: 17 })),
        (b"w 8 1 9 41", Err(Refusal::NoFreePlace)),
        (b"r 8 1 9", Err(Refusal::Store { granule: 9, fault })),
        (b"r 8 1 9", Err(Refusal::ForeignCode { code: 7 })),
        (
            b"k 8 1",
            Err(Refusal::WrongPhase {
                phase: Phase::Section,
            }),
        ),
        // no event, so that the refusal beside it is not written
        (b"p 8", Err(Refusal::NotOpened)),
    ];
    answers(&mut out, &cases)?;
    push_unread(&mut out, Unread::Script)?;
    let expected = b"r no 8 2\nb no 3 17\nw no 14\nr no 11 9 22 3 1\nr no 15 7\nk no 9 3\n\
        ? no 16\n? no 17\n";
    assert!(rt; out.as_slice() == expected.as_slice());
    Ok(())
}
