//! Whole reports, typed by hand.

use super::*;
use crate::Saying;
use std::process::Abort;
use std::test::Fail;
use uv_model::{Answer, Entry, Word, first_bad};
use uv_num::{Errno, Kind, List, NONE, Request};
use uv_script::{Mode, parse};

fn opens(client: u32, file: u32) -> Entry {
    Entry::Open {
        client,
        file,
        device: 0,
        answer: Answer::Ok,
    }
}

fn steps(client: u32, word: Word, object: u32, answer: Answer) -> Entry {
    Entry::Step {
        client,
        word,
        object,
        found: None,
        answer,
    }
}

/// A whole call that makes the domain of this id, which has the cell of that number.
fn alloc_pd(client: u32, file: u32, id: u32, handle: u32) -> [Entry; 5] {
    [
        Entry::Enter {
            client,
            file,
            request: Request::AllocPd,
            answer: Answer::Ok,
        },
        steps(client, Word::Reserve, NONE, Answer::Ok),
        steps(client, Word::Make, id, Answer::Ok),
        steps(client, Word::Commit, id, Answer::Ok),
        steps(
            client,
            Word::Exit,
            NONE,
            Answer::Made {
                handle,
                index: id,
                generation: 0,
            },
        ),
    ]
}

/// A teardown of a file, which releases these objects.
fn closes(
    history: &mut List<Entry>,
    file: u32,
    by: u32,
    objects: &[u32],
) -> Result<(), AllocError> {
    history.push(Entry::Tear { file, by })?;
    for object in objects {
        history.push(Entry::Kill { object: *object })?;
        history.push(Entry::Gone {
            object: *object,
            kept: 0,
        })?;
    }
    history.push(Entry::Closed { file })
}

/// Two files: the first is closed by its client, and the second and a third at the end.
fn three_files(alloc: Global) -> Result<List<Entry>, AllocError> {
    let mut history = List::new(alloc);
    for (client, file) in [(1, 0), (2, 1), (2, 7)] {
        history.push(opens(client, file))?;
    }
    history.extend(&alloc_pd(1, 0, 0, 0))?;
    history.extend(&alloc_pd(2, 1, 1, 0))?;
    history.extend(&alloc_pd(2, 1, 2, 1))?;
    history.extend(&alloc_pd(1, 7, 3, 0))?;
    closes(&mut history, 0, 1, &[0])?;
    closes(&mut history, 1, 10, &[2, 1])?;
    closes(&mut history, 7, 10, &[3])?;
    Ok(history)
}

/// Writes a record, whose history has to be legal, and compares its text.
fn expect_report(rt: &impl Abort, alloc: Global, told: &Record, want: &str) -> Result<(), Fail> {
    let script = parse(alloc, b"", Mode::Steps)?;
    let bad = first_bad(alloc, told.history.as_slice())?;
    assert!(rt; bad.is_none());
    let text = write(alloc, &script, told)?;
    assert_eq!(rt; text.as_slice(), want.as_bytes());
    Ok(())
}

fn said(line: u32, text: Saying) -> Said {
    Said { line, text }
}

fn domain(file: u32, handle: u32) -> Left {
    Left {
        file,
        kind: Kind::Pd,
        handle,
    }
}

#[test]
fn a_report_tells_replies_what_was_left_and_what_went(rt: HostRuntime) -> Result<(), Fail> {
    let replies = [
        said(2, Saying::Ok),
        said(20_000, Saying::Handle(0)),
        said(7, Saying::Refused(Errno::BadF)),
        said(
            7,
            Saying::Step {
                word: Word::Lock,
                refusal: Some(Errno::NoEnt),
            },
        ),
        said(8, Saying::Gone(domain(0, 0))),
        said(8, Saying::Ok),
    ];
    let told = Record {
        history: three_files(rt.alloc())?,
        replies: List::from_slice(rt.alloc(), &replies)?,
        left: List::from_slice(rt.alloc(), &[domain(1, 0), domain(1, 1), domain(7, 0)])?,
    };
    let want = "2 ok\n20000 ok 0\n7 EBADF\n7 lock ENOENT\n8 gone f0 pd 0\n8 ok\nleft 3\n\
        end gone f1 pd 1\nend gone f1 pd 0\nend gone f7 pd 0\n";
    expect_report(&rt, rt.alloc(), &told, want)
}

#[test]
fn a_report_of_nothing_tells_that_nothing_is_left(rt: HostRuntime) -> Result<(), Fail> {
    let told = Record {
        history: List::new(rt.alloc()),
        replies: List::new(rt.alloc()),
        left: List::new(rt.alloc()),
    };
    expect_report(&rt, rt.alloc(), &told, "left 0\n")
}
