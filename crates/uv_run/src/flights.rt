//! The site as a program: the world, and beside it the teardowns in flight.

ghost use Rattle.std.specs.Prelude.{◌≡◌, ◌<◌, IfOk, None, Some, false, slice_get};
ghost use Rattle.uv_num.specs.declared.limits.TheConstants.{ACTOR_PLACES, FILES, SCRIPT_LINES};
ghost use Rattle.uv_machine.specs.Histories.{state_of};
ghost use Rattle.uv_machine.specs.States.{call_of, is_callable, phase_of};
ghost use Rattle.uv_graph.specs.Seats.{TearsOnce};
ghost use Rattle.uv_machine.specs.Plans.{is_call_on};
ghost use Rattle.uv_run.specs.Lines.{is_clients};
ghost use Rattle.uv_run.specs.Turns.{is_on, is_teardown_on};
ghost use Rattle.uv_run.specs.Site.{start_site, is_busy, teardown_of, killed_of, file_ahead, file_below, is_ahead, or_this, made_kind, kind_in_call, goes_on, ends_with};
ghost use Rattle.uv_run.specs.Sound.{site_of, HasSpares, IsSound};

use crate::flight::{Killed, Teardown};
use crate::heard::{Ended, Event, Heard};
use std::alloc::{AllocError, Global};
use uv_machine::{Answer, InFlight, Readers};
use uv_num::{ACTOR_PLACES, FILES, Kind, Role};
use uv_world::World;

/// The world with the teardowns that are in flight at it. The calls in flight are the core's.
#[derive(Drop)]
pub struct Flights {
    pub(crate) world: World,
    /// By actor, the teardown in flight.
    pub(crate) teardowns: [Option<Teardown>; ACTOR_PLACES],
    /// By actor, the object that its teardown has taken out of use and not yet released.
    pub(crate) killed: [Option<Killed>; ACTOR_PLACES],
}

/// An event with which nothing ends.
pub(crate) fn goes_on(event: Event) -> Heard
    ensures { result ≡ goes_on event }
{
    Heard { event, ends: None }
}

/// The end of what was in flight, which made no object.
pub(crate) fn ends_with(event: Event, answer: Answer) -> Heard
    ensures { result ≡ ends_with event answer }
{
    Heard {
        event,
        ends: Some(Ended { made: None, answer }),
    }
}

fn is_call_on(call: Option<InFlight>, file: u32) -> bool
    ensures { result ≡ is_call_on file call }
{
    match call {
        None => false,
        Some(call) => call.file == file,
    }
}

/// The kind of object that a call makes.
fn made_kind(role: Role) -> Option<Kind>
    ensures { result ≡ made_kind role }
{
    match role {
        Role::Creates(kind) => Some(kind),
        Role::Destroys(_) | Role::Acts(_) => None,
    }
}

pub(crate) fn kind_in_call(call: Option<InFlight>) -> Option<Kind>
    ensures { result ≡ kind_in_call call }
{
    match call {
        None => None,
        Some(call) => made_kind(call.request.role()),
    }
}

fn or_this(first: Option<u32>, file: u32, is_one: bool) -> Option<u32>
    ensures { result ≡ or_this first file is_one }
{
    match first {
        Some(earlier) => Some(earlier),
        None => { if is_one { Some(file) } else { None } }
    }
}

/// What is read.
impl Flights {
    /// The site at which nothing has happened.
    pub fn new(alloc: Global) -> Result<Flights, AllocError>
        ensures site { IfOk result (λ w. site_of w ≡ start_site) }
        ensures sound { IfOk result IsSound }
        ensures spare { IfOk result (λ w. HasSpares SCRIPT_LINES w.world.core) }
    {
        Ok(Flights {
            world: World::new(alloc)?,
            teardowns: [None; ACTOR_PLACES],
            killed: [None; ACTOR_PLACES],
        })
    }

    pub(crate) fn teardown_of(&self, actor: u32) -> Option<Teardown>
        ensures { result ≡ teardown_of (site_of self.now) actor }
    {
        match self.teardowns.get(actor as usize) {
            None => None,
            Some(slot) => *slot,
        }
    }

    pub(crate) fn killed_of(&self, actor: u32) -> Option<Killed>
        ensures { result ≡ killed_of (site_of self.now) actor }
    {
        match self.killed.get(actor as usize) {
            None => None,
            Some(slot) => *slot,
        }
    }

    /// An actor tears one file at most. It does nothing.
    pub fn tears_once(&self)
        ensures { TearsOnce (state_of self.now.world.core.history) }
    {
        self.world.core.tears_once();
    }

    /// Whether an actor has something in flight.
    pub fn is_busy(&self, actor: u32) -> bool
        ensures { result ≡ is_busy (site_of self.now) actor }
    {
        !self.world.core.call_of(actor).is_none() || !self.teardown_of(actor).is_none()
    }

    fn is_ahead(&self, device: u32, file: u32) -> bool
        ensures { result ≡ is_ahead (state_of self.now.world.core.history) device file }
    {
        let phase = self.world.core.phase_of(file);
        self.world.core.device_of(file) == device && (phase.is_open() || phase.is_tearing())
    }

    /// Whether a file was opened by a client.
    pub fn is_clients(&self, client: u32, file: u32) -> bool
        ensures { result ≡ is_clients client (slice_get (state_of self.now.world.core.history).files file) }
    {
        !self.world.core.phase_of(file).is_fresh() && self.world.core.client_of(file) == client
    }

    /// Whether calls may enter a file.
    pub fn is_callable(&self, file: u32) -> bool
        ensures { result ≡ is_callable (phase_of (state_of self.now.world.core.history) file) }
    {
        self.world.core.phase_of(file).is_callable()
    }

    /// Whether an actor's teardown is on a file.
    fn is_teardown_on(&self, file: u32, teardown: Option<Teardown>) -> bool
        ensures { result ≡ is_teardown_on (site_of self.now) file teardown }
    {
        match teardown {
            None => false,
            Some(teardown) => match teardown {
                Teardown::Closing(closed) => closed == file,
                Teardown::Unplugging(_) => self.world.core.phase_of(file).is_removing(),
            },
        }
    }

    /// Whether an actor has a call or a teardown in flight on a file.
    pub fn is_on(&self, file: u32, actor: u32) -> bool
        ensures { result ≡ is_on (site_of self.now) file actor }
    {
        is_call_on(self.world.core.call_of(actor), file)
            || self.is_teardown_on(file, self.teardown_of(actor))
    }

    /// The first file of a device that the driver has to see to.
    #[tactic(auto, unfolding(crate::specs::Site::file_below))]
    pub(crate) fn file_ahead(&self, device: u32) -> Option<u32>
        ensures { result ≡ file_ahead (state_of self.now.world.core.history) device }
    {
        let mut first = None;
        for file in 0..FILES as u32 {
            first = or_this(first, file, self.is_ahead(device, file));
        }
        first
    }
}
