use super::*;
use crate::rule::RULES;
use crate::state::State;
use std::test::Fail;

/// Client 1 opens file 0 on device 0.
fn opens(answer: Answer) -> Entry {
    Entry::Open {
        client: 1,
        file: 0,
        device: 0,
        answer,
    }
}

#[test]
fn keys_differ(rt: HostRuntime) -> Result<(), Fail> {
    for (place, rule) in RULES.iter().enumerate() {
        for (other, second) in RULES.iter().enumerate() {
            assert_eq!(rt; rule.key() == second.key(), place == other);
        }
    }
    assert_eq!(rt; Rule::LookHeld.key(), "look-held");
    assert_eq!(rt; Rule::LookHeld.errno(), Errno::Busy);
    assert_eq!(rt;
        Rule::LookHeld.source(),
        "rdma_core.c, uverbs_try_lock_object"
    );
    Ok(())
}

#[test]
fn a_refusal_has_its_rule(rt: HostRuntime) -> Result<(), Fail> {
    let mut state = State::new(rt.alloc())?;
    let refused = |errno: Errno| opens(Answer::Refused(errno));
    assert_eq!(rt; open_rule(&state, 0, 0), None);
    assert_eq!(rt;
        rule_of(&state, refused(Errno::NoMem)),
        Some(Rule::OpenMemory)
    );
    assert_eq!(rt;
        enter_rule(&state, 0, Request::GetAsync),
        Some(Rule::EnterUnopened)
    );
    state.apply(opens(Answer::Ok));
    assert_eq!(rt;
        rule_of(&state, refused(Errno::Inval)),
        Some(Rule::OpenTwice)
    );
    assert_eq!(rt; next_rule(&state, 1, None), None);
    let enter = Entry::Enter {
        client: 1,
        file: 0,
        request: Request::DeallocPd { pd: 0 },
        answer: Answer::Ok,
    };
    assert_eq!(rt; rule_of(&state, enter), None);
    state.apply(enter);
    assert_eq!(rt; next_rule(&state, 1, None), Some(Rule::LockMissing));
    Ok(())
}
