//! A history of a region whose device goes, with an entry changed.

use super::*;

/// The places of `one_region`:
///
/// 0 Open; a domain: 1 Enter, 2 Reserve, 3 Make, 4 Commit, 5 Exit; a region: 6 Enter, 7 Reserve, 8 Look, 9 Make, 10 Commit,
/// 11 Free, 12 Exit; a destroy of the domain: 13 Enter, 14 Lock, 15 Check, 16 Exit; 17 Unplug, 18 Tear, 19 Kill, 20 Gone,
/// 21 Kill, 22 Gone, 23 Dissociated; a destroy of the husk: 24 Enter, 25 Lock, 26 Check, 27 Finish, 28 Exit; the event:
/// 29 Enter, 30 Act, 31 Exit.
fn one_region(alloc: Global) -> Result<Vec<Entry>, AllocError> {
    let mut history = Vec::new(alloc);
    history.push(opens(Answer::Ok))?;
    history.extend_from_slice(&alloc_pd(1, 0, made(0, 0, 0)))?;
    history.extend_from_slice(&[
        enters(
            1,
            Request::RegMr {
                pd: 0,
                length: 64,
                access: 1,
            },
            Answer::Ok,
        ),
        steps(1, Word::Reserve, NONE, Answer::Ok),
        steps(1, Word::Look, 0, Answer::Ok),
        steps(1, Word::Make, 1, Answer::Ok),
        steps(1, Word::Commit, 1, Answer::Ok),
        steps(1, Word::Free, 0, Answer::Ok),
        steps(1, Word::Exit, NONE, made(1, 0, 0)),
        enters(2, Request::DeallocPd { pd: 0 }, Answer::Ok),
        steps(2, Word::Lock, 0, Answer::Ok),
        steps(2, Word::Check, 0, Answer::Refused(Errno::Busy)),
        steps(2, Word::Exit, NONE, Answer::Refused(Errno::Busy)),
        Entry::Unplug { device: 0 },
        Entry::Tear { file: 0, by: 9 },
    ])?;
    history.extend_from_slice(&goes(1))?;
    history.extend_from_slice(&goes(0))?;
    history.extend_from_slice(&[
        Entry::Dissociated { file: 0 },
        enters(2, Request::DeregMr { mr: 1 }, Answer::Ok),
        steps(2, Word::Lock, 1, Answer::Ok),
        steps(2, Word::Check, 1, Answer::Ok),
        steps(2, Word::Finish, 1, Answer::Kept(0)),
        steps(2, Word::Exit, NONE, Answer::Ok),
        enters(1, Request::GetAsync, Answer::Ok),
        steps(1, Word::Act, NONE, Answer::Event),
        steps(1, Word::Exit, NONE, Answer::Event),
    ])?;
    Ok(history)
}

#[test]
fn a_region_whose_device_goes(rt: HostRuntime) -> Result<(), Fail> {
    let history = one_region(rt.alloc())?;
    assert_eq!(rt; history.len(), 32);
    assert_eq!(rt; first_bad(rt.alloc(), history.as_slice())?, None);
    for place in [8, 10, 11, 17, 23, 30] {
        assert_eq!(rt;
            judged_without(rt.alloc(), history.as_slice(), place)?,
            Some(place),
            "without {place}"
        );
    }
    for place in [9, 11, 18, 23, 30] {
        assert_eq!(rt;
            judged_doubled(rt.alloc(), history.as_slice(), place)?,
            Some(place + 1),
            "twice {place}"
        );
    }
    Ok(())
}

#[test]
fn a_use_or_a_husk_passed_over(rt: HostRuntime) -> Result<(), Fail> {
    let history = one_region(rt.alloc())?;
    let changes = [
        (15, steps(2, Word::Check, 0, Answer::Ok)),
        (19, Entry::Kill { object: 0 }),
        (23, Entry::Closed { file: 0 }),
        // Nothing more is kept of what a removal left.
        (27, steps(2, Word::Finish, 1, Answer::Kept(3))),
    ];
    for (place, entry) in changes {
        assert_eq!(rt;
            judged_changed(rt.alloc(), history.as_slice(), place, entry)?,
            Some(place),
            "{entry:?} at {place}"
        );
    }
    Ok(())
}

#[test]
fn a_file_that_was_never_opened_is_not_closed(rt: HostRuntime) -> Result<(), Fail> {
    let history = [Entry::Closed { file: 0 }];
    assert_eq!(rt; first_bad(rt.alloc(), &history)?, Some(0));
    Ok(())
}
