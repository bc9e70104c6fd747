//! A domain from its making to the end of its file, each entry as the machine allows it.

use super::*;
use std::test::Fail;
use uv_machine::{Answer, Entry, Readers, next_step};
use uv_num::{ENDER, Request};

/// Makes an entry, if the machine allows it now.
fn play(store: &mut Store, entry: Entry) {
    if store.state().allows(entry) {
        store.apply(entry);
    }
}

/// Plays the call of a client to its end.
fn play_call(store: &mut Store, client: u32) {
    for _step in 0..8 {
        if let Some(step) = next_step(&*store, client, None, 0) {
            play(
                store,
                Entry::Step {
                    client,
                    word: step.word,
                    object: step.object,
                    found: step.found,
                    answer: step.answer,
                },
            );
        }
    }
}

#[test]
fn a_domain_is_made_and_goes_with_its_file(rt: HostRuntime) -> Result<(), Fail> {
    let mut store = Store::new(rt.alloc())?;
    play(
        &mut store,
        Entry::Open {
            client: 1,
            file: 0,
            device: 0,
            answer: Answer::Ok,
        },
    );
    play(
        &mut store,
        Entry::Enter {
            client: 1,
            file: 0,
            request: Request::AllocPd,
            answer: Answer::Ok,
        },
    );
    play_call(&mut store, 1);
    assert!(rt; store.published(0, 0).is_some());
    assert_eq!(rt; store.least_free(0), Some(1));
    play(&mut store, Entry::Tear { file: 0, by: ENDER });
    play(&mut store, Entry::Kill { object: 0 });
    assert!(rt; store.has_doomed(0));
    play(&mut store, Entry::Gone { object: 0, kept: 0 });
    play(&mut store, Entry::Closed { file: 0 });
    assert_eq!(rt; store.least_free(0), Some(0));
    Ok(())
}
