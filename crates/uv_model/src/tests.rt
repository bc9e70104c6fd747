//! Histories with two files, written out by hand.

use crate::{
    Answer, Entry, Left, Verdict, Word, gone_after, gone_at_end, judge, left_at_end, standing,
};
use std::alloc::{AllocError, Global};
use std::process::Abort;
use std::test::Fail;
use uv_num::{DRIVER, Kind, List, NONE, Request};

fn opens(client: u32, file: u32) -> Entry {
    Entry::Open {
        client,
        file,
        device: 0,
        answer: Answer::Ok,
    }
}

fn steps(client: u32, word: Word, object: u32, answer: Answer) -> Entry {
    Entry::Step {
        client,
        word,
        object,
        found: None,
        answer,
    }
}

fn enters(client: u32, file: u32, request: Request) -> Entry {
    Entry::Enter {
        client,
        file,
        request,
        answer: Answer::Ok,
    }
}

/// A whole call that makes the domain of this id and handle, in the cell of the id's number.
fn alloc_pd(client: u32, file: u32, id: u32, handle: u32) -> [Entry; 5] {
    let told = Answer::Made {
        handle,
        index: id,
        generation: 0,
    };
    [
        enters(client, file, Request::AllocPd),
        steps(client, Word::Reserve, NONE, Answer::Ok),
        steps(client, Word::Make, id, Answer::Ok),
        steps(client, Word::Commit, id, Answer::Ok),
        steps(client, Word::Exit, NONE, told),
    ]
}

/// A whole call that destroys the domain of this id and handle.
fn dealloc_pd(client: u32, file: u32, id: u32, pd: u32) -> [Entry; 5] {
    [
        enters(client, file, Request::DeallocPd { pd }),
        steps(client, Word::Lock, id, Answer::Ok),
        steps(client, Word::Check, id, Answer::Ok),
        steps(client, Word::Finish, id, Answer::Kept(0)),
        steps(client, Word::Exit, NONE, Answer::Ok),
    ]
}

fn kill(object: u32) -> Entry {
    Entry::Kill { object }
}

fn gone(object: u32) -> Entry {
    Entry::Gone { object, kept: 0 }
}

/// Places 0 to 26: client 1 makes the domains 0 and 2 on file 0, client 2 makes 1 and destroys it, and makes 3 on file 1.
///
/// 0 and 1 Open, 2 to 6 domain 0, 7 to 11 domain 1, 12 to 16 domain 2, 17 to 21 the destroy of 1, 22 to 26 domain 3.
fn two_files(alloc: Global) -> Result<List<Entry>, AllocError> {
    let mut history = List::new(alloc);
    history.extend(&[opens(1, 0), opens(2, 1)])?;
    history.extend(&alloc_pd(1, 0, 0, 0))?;
    history.extend(&alloc_pd(2, 1, 1, 0))?;
    history.extend(&alloc_pd(1, 0, 2, 1))?;
    history.extend(&dealloc_pd(2, 1, 1, 0))?;
    history.extend(&alloc_pd(2, 1, 3, 0))?;
    Ok(history)
}

/// Places 27 to 36 behind `two_files`: each client closes its file, in turns.
///
/// 27 Tear 0, 28 Tear 1, 29 Kill 2, 30 Kill 3, 31 Gone 2, 32 Gone 3, 33 Closed 1, 34 Kill 0, 35 Gone 0, 36 Closed 0.
fn closed_in_turns(alloc: Global) -> Result<List<Entry>, AllocError> {
    let mut history = two_files(alloc)?;
    history.extend(&[
        Entry::Tear { file: 0, by: 1 },
        Entry::Tear { file: 1, by: 2 },
        kill(2),
        kill(3),
        gone(2),
        gone(3),
        Entry::Closed { file: 1 },
        kill(0),
        gone(0),
        Entry::Closed { file: 0 },
    ])?;
    Ok(history)
}

/// Places 27 to 36 behind `two_files`: client 2 closes file 1, and the end of the script closes file 0.
///
/// 27 Tear 1, 28 Kill 3, 29 Gone 3, 30 Closed 1, 31 Tear 0, 32 Kill 2, 33 Gone 2, 34 Kill 0, 35 Gone 0, 36 Closed 0.
fn closed_at_the_end(alloc: Global) -> Result<List<Entry>, AllocError> {
    let mut history = two_files(alloc)?;
    history.extend(&[
        Entry::Tear { file: 1, by: 2 },
        kill(3),
        gone(3),
        Entry::Closed { file: 1 },
        Entry::Tear { file: 0, by: 10 },
        kill(2),
        gone(2),
        kill(0),
        gone(0),
        Entry::Closed { file: 0 },
    ])?;
    Ok(history)
}

/// Client 1 makes domain 0 on file 0, whose device is pulled; the driver is through with the file, and the client closes it.
///
/// 0 Open, 1 to 5 domain 0, 6 Unplug, 7 Tear by the driver, 8 Kill 0, 9 Gone 0, 10 Dissociated, 11 Tear, 12 Closed.
fn unplugged(alloc: Global) -> Result<List<Entry>, AllocError> {
    let mut history = List::new(alloc);
    history.push(opens(1, 0))?;
    history.extend(&alloc_pd(1, 0, 0, 0))?;
    history.extend(&[
        Entry::Unplug { device: 0 },
        Entry::Tear {
            file: 0,
            by: DRIVER,
        },
        kill(0),
        gone(0),
        Entry::Dissociated { file: 0 },
        Entry::Tear { file: 0, by: 1 },
        Entry::Closed { file: 0 },
    ])?;
    Ok(history)
}

fn domain(file: u32, handle: u32) -> Left {
    Left {
        file,
        kind: Kind::Pd,
        handle,
    }
}

/// What stands at a place of a history, which has to be legal and so long.
fn expect_standing(
    rt: &impl Abort,
    alloc: Global,
    history: &List<Entry>,
    place: u64,
    want: &[Left],
) -> Result<(), AllocError> {
    let verdict = judge(alloc, history);
    assert_eq!(rt; verdict, Verdict::Legal);
    assert!(rt; place <= history.len() as u64);
    let told = standing(alloc, history, place)?;
    assert_eq!(rt; told.as_slice(), want, "at {place}");
    Ok(())
}

/// What the tear at a place of a history leads to. The history has to be legal.
fn expect_gone(
    rt: &impl Abort,
    alloc: Global,
    history: &List<Entry>,
    place: u64,
    want: &[Left],
) -> Result<(), AllocError> {
    let verdict = judge(alloc, history);
    assert_eq!(rt; verdict, Verdict::Legal);
    if let Some(Entry::Tear { .. }) = history.get(place as usize) {
        let told = gone_after(alloc, history, place)?;
        assert_eq!(rt; told.as_slice(), want, "behind {place}");
    } else {
        panic!(rt; "no tear at {place}");
    }
    Ok(())
}

fn expect_gone_at_end(
    rt: &impl Abort,
    alloc: Global,
    history: &List<Entry>,
    want: &[Left],
) -> Result<(), AllocError> {
    let verdict = judge(alloc, history);
    assert_eq!(rt; verdict, Verdict::Legal);
    let told = gone_at_end(alloc, history)?;
    assert_eq!(rt; told.as_slice(), want);
    Ok(())
}

fn expect_left_at_end(
    rt: &impl Abort,
    alloc: Global,
    history: &List<Entry>,
    want: &[Left],
) -> Result<(), AllocError> {
    let told = left_at_end(alloc, history)?;
    assert_eq!(rt; told.as_slice(), want);
    Ok(())
}

#[test]
fn objects_stand_from_their_make_to_their_release(rt: HostRuntime) -> Result<(), Fail> {
    let history = closed_in_turns(rt.alloc())?;
    let [one, two, other] = [domain(0, 0), domain(0, 1), domain(1, 0)];
    let rows: [(u64, &[Left]); 14] = [
        (0, &[]),
        (4, &[]),
        (5, &[one]),
        (10, &[one, other]),
        (15, &[one, other, two]),
        // The destroy has doomed the domain, and then finished it.
        (20, &[one, other, two]),
        (21, &[one, two]),
        (27, &[one, two, other]),
        // What a teardown has killed stands until it is gone.
        (31, &[one, two, other]),
        (32, &[one, other]),
        (33, &[one]),
        (35, &[one]),
        (36, &[]),
        (37, &[]),
    ];
    for (place, want) in rows {
        expect_standing(&rt, rt.alloc(), &history, place, want)?;
    }
    Ok(())
}

#[test]
fn a_teardown_releases_the_objects_of_its_file(rt: HostRuntime) -> Result<(), Fail> {
    let history = closed_in_turns(rt.alloc())?;
    expect_gone(&rt, rt.alloc(), &history, 27, &[domain(0, 1), domain(0, 0)])?;
    expect_gone(&rt, rt.alloc(), &history, 28, &[domain(1, 0)])?;
    expect_gone_at_end(&rt, rt.alloc(), &history, &[])?;
    Ok(())
}

#[test]
fn a_teardown_may_be_on_its_way(rt: HostRuntime) -> Result<(), Fail> {
    let mut history = two_files(rt.alloc())?;
    history.extend(&[Entry::Tear { file: 0, by: 1 }, kill(2)])?;
    expect_gone(&rt, rt.alloc(), &history, 27, &[])?;
    history.push(gone(2))?;
    expect_gone(&rt, rt.alloc(), &history, 27, &[domain(0, 1)])?;
    Ok(())
}

#[test]
fn the_end_of_a_script_releases_what_is_left(rt: HostRuntime) -> Result<(), Fail> {
    let history = closed_at_the_end(rt.alloc())?;
    expect_gone(&rt, rt.alloc(), &history, 27, &[domain(1, 0)])?;
    expect_gone(&rt, rt.alloc(), &history, 31, &[domain(0, 1), domain(0, 0)])?;
    expect_gone_at_end(&rt, rt.alloc(), &history, &[domain(0, 1), domain(0, 0)])?;
    expect_gone_at_end(&rt, rt.alloc(), &List::new(rt.alloc()), &[])?;
    expect_left_at_end(&rt, rt.alloc(), &history, &[domain(0, 0), domain(0, 1)])?;
    // The end hasn't begun: what stands at the last entry is left.
    let before = two_files(rt.alloc())?;
    let all = [domain(0, 0), domain(0, 1), domain(1, 0)];
    expect_left_at_end(&rt, rt.alloc(), &before, &all)?;
    Ok(())
}

#[test]
fn a_teardown_of_the_driver_ends_as_it_leaves_the_file(rt: HostRuntime) -> Result<(), Fail> {
    let history = unplugged(rt.alloc())?;
    expect_gone(&rt, rt.alloc(), &history, 7, &[domain(0, 0)])?;
    expect_gone(&rt, rt.alloc(), &history, 11, &[])?;
    expect_standing(&rt, rt.alloc(), &history, 9, &[domain(0, 0)])?;
    expect_standing(&rt, rt.alloc(), &history, 10, &[])?;
    Ok(())
}

/// The verdict on the first entries of the pulled device's history, and these behind them.
fn expect_verdict(
    rt: &impl Abort,
    alloc: Global,
    first: usize,
    behind: &[Entry],
    want: Verdict,
) -> Result<(), AllocError> {
    let whole = unplugged(alloc)?;
    let mut history = List::new(alloc);
    for entry in whole.as_slice().iter().take(first) {
        history.push(*entry)?;
    }
    history.extend(behind)?;
    assert_eq!(rt; judge(alloc, &history), want, "behind {first}");
    Ok(())
}

#[test]
fn the_judge_names_the_first_bad_place(rt: HostRuntime) -> Result<(), Fail> {
    let pulled = Entry::Unplug { device: 0 };
    let torn = Entry::Tear {
        file: 0,
        by: DRIVER,
    };
    let left = Entry::Dissociated { file: 0 };
    let closed = Entry::Closed { file: 0 };
    let rows: [(usize, &[Entry], Verdict); 9] = [
        (0, &[], Verdict::Legal),
        (13, &[], Verdict::Legal),
        (0, &[closed], Verdict::Bad { place: 0 }),
        // The driver tears no file of a device that is there, and what comes behind that isn't looked at.
        (6, &[torn, pulled, torn], Verdict::Bad { place: 6 }),
        (7, &[pulled, torn], Verdict::Bad { place: 7 }),
        (8, &[torn], Verdict::Bad { place: 8 }),
        // The driver is not through while a domain stands, and closes no file.
        (9, &[left], Verdict::Bad { place: 9 }),
        (10, &[closed, left], Verdict::Bad { place: 10 }),
        (13, &[opens(1, 0), closed], Verdict::Bad { place: 13 }),
    ];
    for (first, behind, want) in rows.iter() {
        expect_verdict(&rt, rt.alloc(), *first, behind, *want)?;
    }
    Ok(())
}
