//! The step rule: the one step that a call in flight makes next.

ghost use Rattle.std.specs.Prelude.{◌≡◌};
ghost use Rattle.uv_machine.specs.Steps.{plain_told, refused_told, reserve_told, look_try, look_refusal, look_found, look_of, look_told, cell_told, make_of, make_told, act_told, lock_refusal, lock_found, lock_of, lock_told, check_told, own_told, free_told, told, kept_of, role_answer, fine_answer, step_answer, role_found, found_at, done_as, step_of, next_of};

use crate::acts::{act_answer, act_refusal, found_by};
use crate::call::InFlight;
use crate::entry::{Answer, CallStep, Word};
use crate::object::{Object, is_kind};
use crate::readers::Readers;
use crate::told::Told;
use uv_num::{Ask, Errno, Kind, NONE, QpState, Role};

/// The step that an actor's call makes next, if one is in flight. `found` is the state that an act finds, and
/// `kept` how many actions a finish keeps; each is passed over where it doesn't matter.
pub fn next_step<V: Readers>(
    view: &V,
    actor: u32,
    found: Option<QpState>,
    kept: u64,
) -> Option<CallStep>
    ensures { result ≡ next_of (V.state view.now) actor found kept }
{
    match view.call_of(actor) {
        None => None,
        Some(call) => Some(step_of(view, actor, found, kept, call)),
    }
}

fn step_of<V: Readers>(
    view: &V,
    actor: u32,
    found: Option<QpState>,
    kept: u64,
    call: InFlight,
) -> CallStep
    ensures { result ≡ step_of (V.state view.now) actor found kept call }
{
    let word = call.next_word();
    done_as(
        view,
        call,
        found,
        kept,
        word,
        told(view, actor, call, found, word),
    )
}

fn done_as<V: Readers>(
    view: &V,
    call: InFlight,
    found: Option<QpState>,
    kept: u64,
    word: Word,
    told: Told,
) -> CallStep
    ensures { result ≡ done_as (V.state view.now) call found kept word told }
{
    CallStep {
        word,
        object: told.object,
        found: found_at(call, word, found),
        answer: step_answer(view, call, found, kept, word, told.refusal),
    }
}

fn told<V: Readers>(
    view: &V,
    actor: u32,
    call: InFlight,
    found: Option<QpState>,
    word: Word,
) -> Told
    ensures { result ≡ told (V.state view.now) actor call found word }
{
    match word {
        Word::Reserve => reserve_told(view, call.file),
        Word::Look => look_told(view, call.file, call.look_ask()),
        Word::Make => make_told(view, call.request.role()),
        Word::Act => act_told(view, call, found, call.request.role()),
        Word::Lock => lock_told(view, actor, call.file, call.request.role()),
        Word::Check => check_told(view, call.own_object()),
        Word::Commit | Word::Finish => own_told(call),
        Word::Free => free_told(call),
        Word::Abort | Word::Exit => plain(),
    }
}

fn reserve_told<V: Readers>(view: &V, file: u32) -> Told
    ensures { result ≡ reserve_told (V.state view.now) file }
{
    if view.least_free(file).is_none() {
        return refused(Errno::NoSpc);
    }
    plain()
}

fn look_told<V: Readers>(view: &V, file: u32, asked: Option<Ask>) -> Told
    ensures { result ≡ look_told (V.state view.now) file asked }
{
    match asked {
        None => plain(),
        Some(asked) => look_of(view, file, asked),
    }
}

fn look_of<V: Readers>(view: &V, file: u32, asked: Ask) -> Told
    ensures { result ≡ look_of (V.state view.now) file asked }
{
    look_found(view, file, asked, view.published(file, asked.handle))
}

fn look_found<V: Readers>(view: &V, file: u32, asked: Ask, found: Option<Object>) -> Told
    ensures { result ≡ look_found (V.state view.now) file asked found }
{
    match found {
        None => refused(Errno::NoEnt),
        Some(x) => Told {
            object: x.id,
            refusal: look_refusal(view, file, asked, x),
        },
    }
}

fn look_refusal<V: Readers>(view: &V, file: u32, asked: Ask, x: Object) -> Option<Errno>
    ensures { result ≡ look_refusal (V.state view.now) file asked x }
{
    if !is_kind(x.kind, asked.kind) {
        return Some(Errno::Inval);
    }
    look_try(view, file, x.id)
}

fn look_try<V: Readers>(view: &V, file: u32, id: u32) -> Option<Errno>
    ensures { result ≡ look_try (V.state view.now) file id }
{
    if view.is_unplugged(view.device_of(file)) {
        return Some(Errno::Io);
    }
    if view.is_excluded(id) {
        Some(Errno::Busy)
    } else {
        None
    }
}

fn make_told<V: Readers>(view: &V, role: Role) -> Told
    ensures { result ≡ make_told (V.state view.now) role }
{
    match role {
        Role::Creates(kind) => make_of(view, kind),
        Role::Destroys(_) | Role::Acts(_) => plain(),
    }
}

fn make_of<V: Readers>(view: &V, kind: Kind) -> Told
    ensures { result ≡ make_of (V.state view.now) kind }
{
    if view.made() == NONE {
        return refused(Errno::NoSpc);
    }
    cell_told(view, view.home_cell(kind))
}

fn cell_told<V: Readers>(view: &V, cell: Option<u32>) -> Told
    ensures { result ≡ cell_told (V.state view.now) cell }
{
    match cell {
        None => refused(Errno::NoSpc),
        Some(_) => Told {
            object: view.made(),
            refusal: None,
        },
    }
}

fn act_told<V: Readers>(view: &V, call: InFlight, found: Option<QpState>, role: Role) -> Told
    ensures { result ≡ act_told (V.state view.now) call found role }
{
    match role {
        Role::Creates(_) | Role::Destroys(_) => plain(),
        Role::Acts(act) => Told {
            object: call.acted_on(),
            refusal: act_refusal(view, call, found, act),
        },
    }
}

fn lock_told<V: Readers>(view: &V, actor: u32, file: u32, role: Role) -> Told
    ensures { result ≡ lock_told (V.state view.now) actor file role }
{
    match role {
        Role::Creates(_) | Role::Acts(_) => plain(),
        Role::Destroys(asked) => lock_of(view, actor, file, asked),
    }
}

fn lock_of<V: Readers>(view: &V, actor: u32, file: u32, asked: Ask) -> Told
    ensures { result ≡ lock_of (V.state view.now) actor file asked }
{
    lock_found(view, actor, asked, view.published(file, asked.handle))
}

fn lock_found<V: Readers>(view: &V, actor: u32, asked: Ask, found: Option<Object>) -> Told
    ensures { result ≡ lock_found (V.state view.now) actor asked found }
{
    match found {
        None => refused(Errno::NoEnt),
        Some(x) => Told {
            object: x.id,
            refusal: lock_refusal(view, actor, asked, x),
        },
    }
}

fn lock_refusal<V: Readers>(view: &V, actor: u32, asked: Ask, x: Object) -> Option<Errno>
    ensures { result ≡ lock_refusal (V.state view.now) actor asked x }
{
    if !is_kind(x.kind, asked.kind) {
        return Some(Errno::Inval);
    }
    if view.has_others(actor, x.id) {
        Some(Errno::Busy)
    } else {
        None
    }
}

fn check_told<V: Readers>(view: &V, id: u32) -> Told
    ensures { result ≡ check_told (V.state view.now) id }
{
    Told {
        object: id,
        refusal: if view.has_users(id) {
            Some(Errno::Busy)
        } else {
            None
        },
    }
}

fn step_answer<V: Readers>(
    view: &V,
    call: InFlight,
    found: Option<QpState>,
    kept: u64,
    word: Word,
    refusal: Option<Errno>,
) -> Answer
    ensures { result ≡ step_answer (V.state view.now) call found kept word refusal }
{
    match refusal {
        None => fine_answer(view, call, found, kept, word),
        Some(errno) => Answer::Refused(errno),
    }
}

fn fine_answer<V: Readers>(
    view: &V,
    call: InFlight,
    found: Option<QpState>,
    kept: u64,
    word: Word,
) -> Answer
    ensures { result ≡ fine_answer (V.state view.now) call found kept word }
{
    match word {
        Word::Act => role_answer(view, call, found, call.request.role()),
        Word::Finish => Answer::Kept(kept_of(view.object_with(call.own_object()), kept)),
        Word::Exit => call.answer(),
        Word::Reserve
        | Word::Look
        | Word::Make
        | Word::Commit
        | Word::Lock
        | Word::Check
        | Word::Abort
        | Word::Free => Answer::Ok,
    }
}

fn role_answer<V: Readers>(view: &V, call: InFlight, found: Option<QpState>, role: Role) -> Answer
    ensures { result ≡ role_answer (V.state view.now) call found role }
{
    match role {
        Role::Creates(_) | Role::Destroys(_) => Answer::Ok,
        Role::Acts(act) => act_answer(view, call, found, act),
    }
}

fn plain() -> Told
    ensures { result ≡ plain_told }
{
    Told {
        object: NONE,
        refusal: None,
    }
}

fn refused(errno: Errno) -> Told
    ensures { result ≡ refused_told errno }
{
    Told {
        object: NONE,
        refusal: Some(errno),
    }
}

fn own_told(call: InFlight) -> Told
    ensures { result ≡ own_told call }
{
    Told {
        object: call.own_object(),
        refusal: None,
    }
}

fn kept_of(x: Option<Object>, kept: u64) -> u64
    ensures { result ≡ kept_of x kept }
{
    match x {
        None => kept,
        Some(x) => if x.phase.is_husk() { 0 } else { kept },
    }
}

fn free_told(call: InFlight) -> Told
    ensures { result ≡ free_told call }
{
    Told {
        object: call.acted_on(),
        refusal: None,
    }
}

fn role_found(role: Role, found: Option<QpState>) -> Option<QpState>
    ensures { result ≡ role_found role found }
{
    match role {
        Role::Creates(_) | Role::Destroys(_) => None,
        Role::Acts(act) => found_by(act, found),
    }
}

fn found_at(call: InFlight, word: Word, found: Option<QpState>) -> Option<QpState>
    ensures { result ≡ found_at call word found }
{
    match word {
        Word::Act => role_found(call.request.role(), found),
        Word::Reserve
        | Word::Look
        | Word::Make
        | Word::Commit
        | Word::Lock
        | Word::Check
        | Word::Finish
        | Word::Abort
        | Word::Free
        | Word::Exit => None,
    }
}
