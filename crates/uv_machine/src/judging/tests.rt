//! Histories written out by hand, and the first bad place of each.

mod husks;

use super::*;
use std::test::Fail;
use uv_num::{Errno, NONE};

/// Client 1 opens file 0 on device 0.
fn opens(answer: Answer) -> Entry {
    Entry::Open {
        client: 1,
        file: 0,
        device: 0,
        answer,
    }
}

/// A client's call enters on file 0.
fn enters(client: u32, request: Request, answer: Answer) -> Entry {
    Entry::Enter {
        client,
        file: 0,
        request,
        answer,
    }
}

fn steps(client: u32, word: Word, object: u32, answer: Answer) -> Entry {
    Entry::Step {
        client,
        word,
        object,
        found: None,
        answer,
    }
}

fn made(handle: u32, index: u32, generation: u32) -> Answer {
    Answer::Made {
        handle,
        index,
        generation,
    }
}

/// A whole call that makes a domain with this id.
fn alloc_pd(client: u32, id: u32, told: Answer) -> [Entry; 5] {
    [
        enters(client, Request::AllocPd, Answer::Ok),
        steps(client, Word::Reserve, NONE, Answer::Ok),
        steps(client, Word::Make, id, Answer::Ok),
        steps(client, Word::Commit, id, Answer::Ok),
        steps(client, Word::Exit, NONE, told),
    ]
}

/// A whole call that destroys the domain with this id and handle.
fn dealloc_pd(client: u32, id: u32, pd: u32) -> [Entry; 5] {
    [
        enters(client, Request::DeallocPd { pd }, Answer::Ok),
        steps(client, Word::Lock, id, Answer::Ok),
        steps(client, Word::Check, id, Answer::Ok),
        steps(client, Word::Finish, id, Answer::Kept(0)),
        steps(client, Word::Exit, NONE, Answer::Ok),
    ]
}

/// A teardown takes an object out of use and releases it.
fn goes(object: u32) -> [Entry; 2] {
    [Entry::Kill { object }, Entry::Gone { object, kept: 0 }]
}

/// The places of `one_domain`:
///
/// 0 Open, 1 Enter, 2 Reserve, 3 Make, 4 Commit, 5 Exit, 6 Enter, 7 Lock, 8 Check, 9 Finish, 10 Exit, 11 Tear, 12 Closed.
fn one_domain(alloc: Global) -> Result<Vec<Entry>, AllocError> {
    let mut history = Vec::new(alloc);
    history.push(opens(Answer::Ok))?;
    history.extend_from_slice(&alloc_pd(1, 0, made(0, 0, 0)))?;
    history.extend_from_slice(&dealloc_pd(1, 0, 0))?;
    history.push(Entry::Tear { file: 0, by: 10 })?;
    history.push(Entry::Closed { file: 0 })?;
    Ok(history)
}

/// Two domains stand, with the handles 1 and 0: the number 0 was given back and given out again, with another cell.
fn two_left(alloc: Global) -> Result<Vec<Entry>, AllocError> {
    let mut history = Vec::new(alloc);
    history.push(opens(Answer::Ok))?;
    history.extend_from_slice(&alloc_pd(1, 0, made(0, 0, 0)))?;
    history.extend_from_slice(&alloc_pd(1, 1, made(1, 1, 0)))?;
    history.extend_from_slice(&dealloc_pd(1, 0, 0))?;
    history.extend_from_slice(&alloc_pd(1, 2, made(0, 2, 0)))?;
    Ok(history)
}

/// The first bad place of a history with more entries after it.
fn judged_with(
    alloc: Global,
    history: &[Entry],
    more: &[Entry],
) -> Result<Option<usize>, AllocError> {
    let mut whole = history.to_vec(alloc)?;
    whole.extend_from_slice(more)?;
    first_bad(alloc, whole.as_slice())
}

/// The first bad place of a history with another entry at a place.
fn judged_changed(
    alloc: Global,
    history: &[Entry],
    place: usize,
    entry: Entry,
) -> Result<Option<usize>, AllocError> {
    let mut other = history.to_vec(alloc)?;
    if place < other.len() {
        other[place] = entry;
    }
    first_bad(alloc, other.as_slice())
}

fn judged_without(
    alloc: Global,
    history: &[Entry],
    place: usize,
) -> Result<Option<usize>, AllocError> {
    let mut other = history.to_vec(alloc)?;
    if place < other.len() {
        other.remove(place);
    }
    first_bad(alloc, other.as_slice())
}

fn judged_doubled(
    alloc: Global,
    history: &[Entry],
    place: usize,
) -> Result<Option<usize>, AllocError> {
    let mut other = history.to_vec(alloc)?;
    if place < history.len() {
        other.insert(place, history[place])?;
    }
    first_bad(alloc, other.as_slice())
}

#[test]
fn the_empty_history_is_legal(rt: HostRuntime) -> Result<(), Fail> {
    assert_eq!(rt; first_bad(rt.alloc(), &[])?, None);
    Ok(())
}

#[test]
fn one_domain_comes_and_goes(rt: HostRuntime) -> Result<(), Fail> {
    let history = one_domain(rt.alloc())?;
    assert_eq!(rt; history.len(), 13);
    assert_eq!(rt; first_bad(rt.alloc(), history.as_slice())?, None);
    Ok(())
}

#[test]
fn an_entry_left_out(rt: HostRuntime) -> Result<(), Fail> {
    let history = one_domain(rt.alloc())?;
    for place in 0..10 {
        assert_eq!(rt;
            judged_without(rt.alloc(), history.as_slice(), place)?,
            Some(place),
            "without {place}"
        );
    }
    // The tear may come beside a call, the close may not, and a history may end before its file is closed.
    for (place, want) in [(10, Some(11)), (11, Some(11)), (12, None)] {
        assert_eq!(rt;
            judged_without(rt.alloc(), history.as_slice(), place)?,
            want,
            "without {place}"
        );
    }
    Ok(())
}

#[test]
fn an_entry_doubled(rt: HostRuntime) -> Result<(), Fail> {
    let history = one_domain(rt.alloc())?;
    for place in 0..13 {
        assert_eq!(rt;
            judged_doubled(rt.alloc(), history.as_slice(), place)?,
            Some(place + 1),
            "twice {place}"
        );
    }
    Ok(())
}

#[test]
fn a_step_changed(rt: HostRuntime) -> Result<(), Fail> {
    let history = one_domain(rt.alloc())?;
    let changes = [
        (2, steps(1, Word::Reserve, 0, Answer::Ok), Some(2)),
        (
            2,
            steps(1, Word::Reserve, NONE, Answer::Refused(Errno::NoSpc)),
            Some(2),
        ),
        (2, steps(2, Word::Reserve, NONE, Answer::Ok), Some(2)),
        (3, steps(1, Word::Make, 1, Answer::Ok), Some(3)),
        (5, steps(1, Word::Exit, NONE, Answer::Ok), Some(5)),
        (
            7,
            steps(1, Word::Lock, 0, Answer::Refused(Errno::Busy)),
            Some(7),
        ),
        (9, steps(1, Word::Finish, 0, Answer::Ok), Some(9)),
        // What a finish keeps is not the machine's to know.
        (9, steps(1, Word::Finish, 0, Answer::Kept(3)), None),
        (
            10,
            steps(1, Word::Exit, NONE, Answer::Refused(Errno::NoEnt)),
            Some(10),
        ),
    ];
    for (place, entry, want) in changes {
        assert_eq!(rt;
            judged_changed(rt.alloc(), history.as_slice(), place, entry)?,
            want,
            "{entry:?} at {place}"
        );
    }
    Ok(())
}

#[test]
fn an_exit_changed(rt: HostRuntime) -> Result<(), Fail> {
    let history = one_domain(rt.alloc())?;
    for told in [made(1, 0, 0), made(0, 1, 0), made(0, 0, 1), made(255, 0, 0)] {
        let entry = steps(1, Word::Exit, NONE, told);
        assert_eq!(rt;
            judged_changed(rt.alloc(), history.as_slice(), 5, entry)?,
            Some(5),
            "{told:?}"
        );
    }
    Ok(())
}

#[test]
fn an_open_or_enter_changed(rt: HostRuntime) -> Result<(), Fail> {
    let history = one_domain(rt.alloc())?;
    let changes = [
        // Want of memory is always an answer: then the next entry has no file, or no call.
        (0, opens(Answer::Refused(Errno::NoMem)), Some(1)),
        (0, opens(Answer::Refused(Errno::Inval)), Some(0)),
        (0, opens(Answer::Refused(Errno::Io)), Some(0)),
        (
            1,
            enters(1, Request::AllocPd, Answer::Refused(Errno::NoMem)),
            Some(2),
        ),
        (
            1,
            enters(1, Request::AllocPd, Answer::Refused(Errno::BadF)),
            Some(1),
        ),
        (1, enters(11, Request::AllocPd, Answer::Ok), Some(1)),
        (1, enters(0, Request::AllocPd, Answer::Ok), Some(1)),
        (
            6,
            enters(1, Request::DeallocPd { pd: 1 }, Answer::Ok),
            Some(7),
        ),
        (
            6,
            enters(2, Request::DeallocPd { pd: 0 }, Answer::Ok),
            Some(7),
        ),
    ];
    for (place, entry, want) in changes {
        assert_eq!(rt;
            judged_changed(rt.alloc(), history.as_slice(), place, entry)?,
            want,
            "{entry:?} at {place}"
        );
    }
    Ok(())
}

#[test]
fn a_file_or_device_that_is_none(rt: HostRuntime) -> Result<(), Fail> {
    for (client, file, device, want) in [
        (1, 0, 1, None),
        (10, 15, 0, None),
        (1, 16, 0, Some(0)),
        (1, 0, 2, Some(0)),
        (0, 0, 0, Some(0)),
        (11, 0, 0, Some(0)),
    ] {
        let entry = Entry::Open {
            client,
            file,
            device,
            answer: Answer::Ok,
        };
        assert_eq!(rt; first_bad(rt.alloc(), &[entry])?, want, "{entry:?}");
    }
    Ok(())
}

#[test]
fn a_tear_or_close_changed(rt: HostRuntime) -> Result<(), Fail> {
    let history = one_domain(rt.alloc())?;
    let changes = [
        (11, Entry::Tear { file: 0, by: 1 }, None),
        // The driver tears only what stands on a device that is unplugged.
        (11, Entry::Tear { file: 0, by: 9 }, Some(11)),
        (11, Entry::Tear { file: 0, by: 0 }, Some(11)),
        (11, Entry::Tear { file: 0, by: 11 }, Some(11)),
        (11, Entry::Tear { file: 1, by: 10 }, Some(11)),
        (12, Entry::Closed { file: 1 }, Some(12)),
        (12, Entry::Closed { file: 16 }, Some(12)),
        (12, Entry::Kill { object: 0 }, Some(12)),
        (12, Entry::Gone { object: 0, kept: 0 }, Some(12)),
    ];
    for (place, entry, want) in changes {
        assert_eq!(rt;
            judged_changed(rt.alloc(), history.as_slice(), place, entry)?,
            want,
            "{entry:?} at {place}"
        );
    }
    Ok(())
}

#[test]
fn what_is_left_goes_newest_first(rt: HostRuntime) -> Result<(), Fail> {
    let mut history = two_left(rt.alloc())?;
    assert_eq!(rt; history.len(), 21);
    history.push(Entry::Tear { file: 0, by: 10 })?;
    let [kill_two, gone_two] = goes(2);
    let [kill_one, gone_one] = goes(1);
    let closed = Entry::Closed { file: 0 };
    let ends = [
        ([kill_two, gone_two, kill_one, gone_one, closed], None),
        // The oldest first, both at once, a release before its kill, and a close beside what stands.
        ([kill_one, gone_one, kill_two, gone_two, closed], Some(22)),
        ([kill_two, kill_one, gone_two, gone_one, closed], Some(23)),
        ([kill_two, gone_one, kill_one, gone_two, closed], Some(23)),
        ([gone_two, kill_two, kill_one, gone_one, closed], Some(22)),
        ([kill_two, gone_two, closed, kill_one, gone_one], Some(24)),
        ([kill_two, gone_two, kill_one, closed, gone_one], Some(25)),
        ([kill_two, gone_two, kill_two, gone_one, closed], Some(24)),
    ];
    for (end, want) in ends {
        assert_eq!(rt;
            judged_with(rt.alloc(), history.as_slice(), &end)?,
            want,
            "{end:?}"
        );
    }
    Ok(())
}

#[test]
fn the_least_number_is_given_out(rt: HostRuntime) -> Result<(), Fail> {
    let history = two_left(rt.alloc())?;
    assert_eq!(rt; history.len(), 21);
    assert_eq!(rt; first_bad(rt.alloc(), history.as_slice())?, None);
    // Neither a later number, nor the cell that was just buried, nor a later life of a cell.
    for told in [made(2, 2, 0), made(255, 2, 0), made(0, 0, 1), made(0, 2, 1)] {
        let entry = steps(1, Word::Exit, NONE, told);
        assert_eq!(rt;
            judged_changed(rt.alloc(), history.as_slice(), 20, entry)?,
            Some(20),
            "{told:?}"
        );
    }
    Ok(())
}

#[test]
fn a_number_is_free_after_the_finish(rt: HostRuntime) -> Result<(), Fail> {
    let mut history = Vec::new(rt.alloc());
    history.push(opens(Answer::Ok))?;
    history.extend_from_slice(&alloc_pd(1, 0, made(0, 0, 0)))?;
    let [enter, lock, check, finish, exit] = dealloc_pd(1, 0, 0);
    history.extend_from_slice(&[enter, lock, check])?;
    for (told, want) in [(made(1, 1, 0), None), (made(0, 1, 0), Some(13))] {
        let [begin, reserve, make, commit, end] = alloc_pd(2, 1, told);
        let beside = [begin, reserve, make, commit, end, finish, exit];
        assert_eq!(rt;
            judged_with(rt.alloc(), history.as_slice(), &beside)?,
            want,
            "{told:?}"
        );
    }
    Ok(())
}

#[test]
fn a_look_beside_a_lock_is_eio_where_the_device_is_gone(rt: HostRuntime) -> Result<(), Fail> {
    let mut history = Vec::new(rt.alloc());
    history.push(opens(Answer::Ok))?;
    history.extend_from_slice(&alloc_pd(1, 0, made(0, 0, 0)))?;
    let [enter, lock, _, _, _] = dealloc_pd(1, 0, 0);
    let window = enters(2, Request::AllocMw { pd: 0 }, Answer::Ok);
    let reserve = steps(2, Word::Reserve, NONE, Answer::Ok);
    history.extend_from_slice(&[enter, lock, window, reserve])?;
    let gone = Entry::Unplug { device: 0 };
    let other = Entry::Unplug { device: 1 };
    let look = |errno: Errno| steps(2, Word::Look, 0, Answer::Refused(errno));
    for (more, want) in [
        ([gone, look(Errno::Io)], None),
        ([gone, look(Errno::Busy)], Some(11)),
        ([other, look(Errno::Busy)], None),
        ([other, look(Errno::Io)], Some(11)),
    ] {
        assert_eq!(rt;
            judged_with(rt.alloc(), history.as_slice(), &more)?,
            want,
            "{more:?}"
        );
    }
    Ok(())
}

#[test]
fn opens_that_are_refused(rt: HostRuntime) -> Result<(), Fail> {
    let refused = |errno: Errno| opens(Answer::Refused(errno));
    let histories = [
        ([opens(Answer::Ok), refused(Errno::Inval)], None),
        ([opens(Answer::Ok), refused(Errno::NoMem)], Some(1)),
        ([opens(Answer::Ok), refused(Errno::Io)], Some(1)),
        ([refused(Errno::NoMem), opens(Answer::Ok)], None),
        ([refused(Errno::NoMem), refused(Errno::Inval)], Some(1)),
    ];
    for (history, want) in histories {
        assert_eq!(rt; first_bad(rt.alloc(), &history)?, want, "{history:?}");
    }
    Ok(())
}

#[test]
fn calls_that_do_not_enter(rt: HostRuntime) -> Result<(), Fail> {
    let refused = |errno: Errno| enters(1, Request::AllocPd, Answer::Refused(errno));
    let tear = Entry::Tear { file: 0, by: 10 };
    let histories = [
        (
            [
                refused(Errno::BadF),
                opens(Answer::Ok),
                refused(Errno::NoMem),
            ],
            None,
        ),
        (
            [
                refused(Errno::NoMem),
                opens(Answer::Ok),
                refused(Errno::NoMem),
            ],
            Some(0),
        ),
        ([opens(Answer::Ok), tear, refused(Errno::BadF)], None),
        ([opens(Answer::Ok), tear, refused(Errno::NoMem)], Some(2)),
        (
            [
                opens(Answer::Ok),
                tear,
                enters(1, Request::AllocPd, Answer::Ok),
            ],
            Some(2),
        ),
    ];
    for (history, want) in histories {
        assert_eq!(rt; first_bad(rt.alloc(), &history)?, want, "{history:?}");
    }
    Ok(())
}

#[test]
fn a_device_that_is_unplugged(rt: HostRuntime) -> Result<(), Fail> {
    let mut state = State::new(rt.alloc())?;
    state.apply(Entry::Open {
        client: 1,
        file: 0,
        device: 0,
        answer: Answer::Ok,
    });
    state.plugged[0] = false;
    let other = Entry::Open {
        client: 1,
        file: 1,
        device: 0,
        answer: Answer::Refused(Errno::Io),
    };
    assert!(rt; state.allows(other));
    assert!(rt; state.allows(enters(1, Request::AllocPd, Answer::Refused(Errno::Io))));
    assert!(rt; !state.allows(enters(1, Request::AllocPd, Answer::Ok)));
    assert!(rt; state.allows(enters(1, Request::DeallocPd { pd: 0 }, Answer::Ok)));
    assert!(rt; state.allows(Entry::Tear { file: 0, by: 9 }));
    Ok(())
}

/// So many domains, with the numbers from 0 on for their ids, handles and cells.
fn domains(alloc: Global, count: u32) -> Result<Vec<Entry>, AllocError> {
    let mut history = Vec::new(alloc);
    history.push(opens(Answer::Ok))?;
    for id in 0..count {
        history.extend_from_slice(&alloc_pd(1, id, made(id, id, 0)))?;
    }
    Ok(history)
}

/// A call that makes no domain for want of a cell.
fn without_cell() -> [Entry; 5] {
    let full = Answer::Refused(Errno::NoSpc);
    [
        enters(1, Request::AllocPd, Answer::Ok),
        steps(1, Word::Reserve, NONE, Answer::Ok),
        steps(1, Word::Make, NONE, full),
        steps(1, Word::Abort, NONE, Answer::Ok),
        steps(1, Word::Exit, NONE, full),
    ]
}

#[test]
fn a_domain_too_many(rt: HostRuntime) -> Result<(), Fail> {
    let history = domains(rt.alloc(), 64)?;
    assert_eq!(rt; history.len(), 321);
    assert_eq!(rt;
        judged_with(
            rt.alloc(),
            history.as_slice(),
            &alloc_pd(1, 64, made(64, 0, 0))
        )?,
        Some(323)
    );
    assert_eq!(rt;
        judged_with(rt.alloc(), history.as_slice(), &without_cell())?,
        None
    );
    Ok(())
}

#[test]
fn what_is_behind_a_refusal(rt: HostRuntime) -> Result<(), Fail> {
    let history = domains(rt.alloc(), 64)?;
    assert_eq!(rt; history.len(), 321);
    let [enter, reserve, make, abort, exit] = without_cell();
    let ends = [
        ([enter, reserve, make, exit, abort], Some(324)),
        ([enter, reserve, abort, make, exit], Some(323)),
        ([enter, reserve, make, abort, abort], Some(325)),
        (
            [
                enter,
                reserve,
                make,
                abort,
                steps(1, Word::Exit, NONE, Answer::Ok),
            ],
            Some(325),
        ),
        (
            [
                enter,
                reserve,
                make,
                steps(1, Word::Commit, 64, Answer::Ok),
                exit,
            ],
            Some(324),
        ),
    ];
    for (end, want) in ends {
        assert_eq!(rt;
            judged_with(rt.alloc(), history.as_slice(), &end)?,
            want,
            "{end:?}"
        );
    }
    Ok(())
}

#[test]
fn a_cell_has_another_life(rt: HostRuntime) -> Result<(), Fail> {
    let mut history = domains(rt.alloc(), 64)?;
    history.extend_from_slice(&without_cell())?;
    history.extend_from_slice(&dealloc_pd(2, 5, 5))?;
    assert_eq!(rt; history.len(), 331);
    // The refused call took no id, and its number went back.
    for (told, want) in [
        (made(5, 5, 1), None),
        (made(5, 5, 0), Some(335)),
        (made(64, 5, 1), Some(335)),
    ] {
        assert_eq!(rt;
            judged_with(rt.alloc(), history.as_slice(), &alloc_pd(1, 64, told))?,
            want,
            "{told:?}"
        );
    }
    Ok(())
}

/// A call that finds no domain under its handle, or finds it locked.
fn without_lock(client: u32, pd: u32, object: u32, errno: Errno) -> [Entry; 3] {
    [
        enters(client, Request::DeallocPd { pd }, Answer::Ok),
        steps(client, Word::Lock, object, Answer::Refused(errno)),
        steps(client, Word::Exit, NONE, Answer::Refused(errno)),
    ]
}

#[test]
fn a_handle_that_is_not_there(rt: HostRuntime) -> Result<(), Fail> {
    let mut history = Vec::new(rt.alloc());
    history.push(opens(Answer::Ok))?;
    history.extend_from_slice(&alloc_pd(1, 0, made(0, 0, 0)))?;
    let [enter, lock, exit] = without_lock(1, 1, NONE, Errno::NoEnt);
    let ends = [
        ([enter, lock, exit], None),
        (
            [enter, lock, steps(1, Word::Check, NONE, Answer::Ok)],
            Some(8),
        ),
        (
            [enter, lock, steps(1, Word::Exit, NONE, Answer::Ok)],
            Some(8),
        ),
        ([enter, steps(1, Word::Lock, 0, Answer::Ok), exit], Some(7)),
        (without_lock(1, 1, 0, Errno::NoEnt), Some(7)),
        (without_lock(1, 0, NONE, Errno::NoEnt), Some(7)),
        (without_lock(1, 1, NONE, Errno::Inval), Some(7)),
    ];
    for (end, want) in ends {
        assert_eq!(rt;
            judged_with(rt.alloc(), history.as_slice(), &end)?,
            want,
            "{end:?}"
        );
    }
    Ok(())
}

#[test]
fn two_destroys_of_one_domain(rt: HostRuntime) -> Result<(), Fail> {
    let mut history = Vec::new(rt.alloc());
    history.push(opens(Answer::Ok))?;
    history.extend_from_slice(&alloc_pd(1, 0, made(0, 0, 0)))?;
    let [enter, lock, check, finish, exit] = dealloc_pd(1, 0, 0);
    let [begin, busy, end] = without_lock(2, 0, 0, Errno::Busy);
    let [again, gone, last] = without_lock(2, 0, NONE, Errno::NoEnt);
    let both_lock = steps(2, Word::Lock, 0, Answer::Ok);
    let ends = [
        (
            [
                enter, lock, begin, busy, end, check, finish, exit, again, gone, last,
            ],
            None,
        ),
        (
            [
                enter, begin, lock, busy, check, end, finish, again, gone, exit, last,
            ],
            None,
        ),
        // The second is told that the first's object is locked, and not before it is.
        (
            [
                enter, lock, begin, both_lock, end, check, finish, exit, again, gone, last,
            ],
            Some(9),
        ),
        (
            [
                enter, begin, busy, lock, end, check, finish, exit, again, gone, last,
            ],
            Some(8),
        ),
        (
            [
                enter, lock, begin, check, finish, busy, end, exit, again, gone, last,
            ],
            Some(11),
        ),
        (
            [
                enter, lock, begin, busy, end, check, again, gone, last, finish, exit,
            ],
            Some(13),
        ),
    ];
    for (whole, want) in ends {
        assert_eq!(rt;
            judged_with(rt.alloc(), history.as_slice(), &whole)?,
            want,
            "{whole:?}"
        );
    }
    Ok(())
}

#[test]
fn a_kill_waits_for_the_calls_of_its_file(rt: HostRuntime) -> Result<(), Fail> {
    let mut history = Vec::new(rt.alloc());
    history.push(opens(Answer::Ok))?;
    history.extend_from_slice(&alloc_pd(1, 0, made(0, 0, 0)))?;
    let [begin, missing, end] = without_lock(2, 1, NONE, Errno::NoEnt);
    let tear = Entry::Tear { file: 0, by: 10 };
    let [kill, gone] = goes(0);
    let closed = Entry::Closed { file: 0 };
    let ends = [
        ([begin, tear, missing, end, kill, gone, closed], None),
        ([begin, tear, kill, missing, end, gone, closed], Some(8)),
        ([begin, missing, tear, kill, end, gone, closed], Some(9)),
        ([begin, kill, tear, missing, end, gone, closed], Some(7)),
        ([tear, begin, missing, end, kill, gone, closed], Some(7)),
    ];
    for (whole, want) in ends {
        assert_eq!(rt;
            judged_with(rt.alloc(), history.as_slice(), &whole)?,
            want,
            "{whole:?}"
        );
    }
    Ok(())
}

#[test]
fn a_kill_does_not_wait_for_other_files(rt: HostRuntime) -> Result<(), Fail> {
    let mut history = Vec::new(rt.alloc());
    history.push(opens(Answer::Ok))?;
    history.extend_from_slice(&alloc_pd(1, 0, made(0, 0, 0)))?;
    let [kill, gone] = goes(0);
    let beside = [
        Entry::Open {
            client: 2,
            file: 1,
            device: 0,
            answer: Answer::Ok,
        },
        Entry::Enter {
            client: 2,
            file: 1,
            request: Request::AllocPd,
            answer: Answer::Ok,
        },
        Entry::Tear { file: 0, by: 10 },
        kill,
        gone,
        Entry::Closed { file: 0 },
    ];
    assert_eq!(rt; judged_with(rt.alloc(), history.as_slice(), &beside)?, None);
    Ok(())
}
