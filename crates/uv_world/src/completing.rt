//! Polls, arms and events. None takes memory.

ghost use Rattle.std.specs.Prelude.{◌≡◌};
ghost use Rattle.uv_queue.specs.Order.{oldest, without_oldest};
ghost use Rattle.uv_cq.specs.Rings.{after_poll};
ghost use Rattle.uv_world.specs.Completing.{arm_answer, completion_told, event_answer, event_told, held_armed, held_event_taken, held_polled, poll_answer, ring_armed, ring_polled};
ghost use Rattle.uv_world.specs.Holdings.{held_of};
ghost use Rattle.uv_world.specs.Named.{OnlyContents, cells_under, stage_holding, value_named};
ghost use Rattle.uv_world.specs.Owing.{IsHoused};
ghost use Rattle.uv_world.specs.Seating.{IsWorld, stage_of};

use crate::cells::Cell;
use crate::content::Belled;
use crate::contents::Contents;
use crate::world::World;
use uv_cq::{Channel, Ring};
use uv_num::List;
use uv_wr::{ArmTried, EventTried, PollTried};

/// Takes the oldest completion out of a ring.
fn poll_ring(ring: &mut Ring) -> PollTried
    ensures answer { result ≡ completion_told (oldest ring.old.completions) ring.old.overrun }
    ensures ring { ring.new ≡ after_poll ring.old }
{
    let overrun = ring.overrun();
    match ring.poll() {
        None => PollTried::Empty(overrun),
        Some(completion) => PollTried::Got(completion, overrun),
    }
}

/// Takes the oldest event out of a channel.
fn take_event(channel: &mut Channel) -> EventTried
    ensures answer { result ≡ event_told (oldest channel.old) }
    ensures rest { channel.new ≡ without_oldest channel.old }
{
    match channel.get() {
        None => EventTried::Empty,
        Some(cq) => EventTried::Got(cq),
    }
}

fn poll(rings: &mut List<Cell<Belled>>, cq: (u32, u32)) -> PollTried
    ensures answer { result ≡ poll_answer (value_named rings.old cq) }
    ensures rings { rings.new ≡ cells_under rings.old cq ring_polled }
{
    let (index, generation) = cq;
    let at = index as usize;
    if at < rings.len() {
        let cell = rings.item_mut(at);
        if cell.generation == generation {
            if let Some(q) = &mut cell.value {
                return poll_ring(&mut q.ring);
            }
        }
    }
    PollTried::Dead(0)
}

fn arm(rings: &mut List<Cell<Belled>>, cq: (u32, u32), solicited: bool) -> ArmTried
    ensures answer { result ≡ arm_answer (value_named rings.old cq) }
    ensures rings { rings.new ≡ cells_under rings.old cq (ring_armed solicited) }
{
    let (index, generation) = cq;
    let at = index as usize;
    if at < rings.len() {
        let cell = rings.item_mut(at);
        if cell.generation == generation {
            if let Some(q) = &mut cell.value {
                q.ring.arm(solicited);
                return ArmTried::Did;
            }
        }
    }
    ArmTried::Dead(0)
}

fn event_of(channels: &mut List<Cell<Channel>>, channel: (u32, u32)) -> EventTried
    ensures answer { result ≡ event_answer (value_named channels.old channel) }
    ensures channels { channels.new ≡ cells_under channels.old channel without_oldest }
{
    let (index, generation) = channel;
    let at = index as usize;
    if at < channels.len() {
        let cell = channels.item_mut(at);
        if cell.generation == generation {
            if let Some(events) = &mut cell.value {
                return take_event(events);
            }
        }
    }
    EventTried::Dead(0)
}

/// Polls, arms and events.
impl Contents {
    /// Takes the oldest completion of a completion queue.
    pub fn poll(&mut self, cq: (u32, u32)) -> PollTried
        requires housed { IsHoused self.old }
        ensures answer { result ≡ poll_answer (value_named (held_of self.old).rings cq) }
        ensures held { held_of self.new ≡ held_polled (held_of self.old) cq }
        ensures housed { IsHoused self.new }
    {
        poll(&mut self.rings, cq)
    }

    /// Arms a completion queue.
    pub fn arm(&mut self, cq: (u32, u32), solicited: bool) -> ArmTried
        requires housed { IsHoused self.old }
        ensures answer { result ≡ arm_answer (value_named (held_of self.old).rings cq) }
        ensures held { held_of self.new ≡ held_armed (held_of self.old) cq solicited }
        ensures housed { IsHoused self.new }
    {
        arm(&mut self.rings, cq, solicited)
    }

    /// Takes the oldest event of a channel.
    pub fn event_of(&mut self, channel: (u32, u32)) -> EventTried
        requires housed { IsHoused self.old }
        ensures answer { result ≡ event_answer (value_named (held_of self.old).channels channel) }
        ensures held { held_of self.new ≡ held_event_taken (held_of self.old) channel }
        ensures housed { IsHoused self.new }
    {
        event_of(&mut self.channels, channel)
    }
}

/// Polls, arms and events. A completion queue or a channel is named by the index and the generation of its cell. `Dead(0)` comes
/// exactly where the cell isn't live under that generation, and `Again` never.
impl World {
    /// Takes the oldest completion of a completion queue, if there is one, and tells whether the queue has overrun
    /// (`rxe_verbs.c`, `rxe_poll_cq`).
    pub fn poll(&mut self, cq: (u32, u32)) -> PollTried
        requires world { IsWorld self.old }
        ensures answer { result ≡ poll_answer (value_named (held_of self.old.contents).rings cq) }
        ensures stage { stage_of self.new ≡ stage_holding (stage_of self.old) (held_polled (held_of self.old.contents) cq) }
        ensures only { OnlyContents self.old self.new }
        ensures world { IsWorld self.new }
    {
        self.contents.poll(cq)
    }

    /// Asks a completion queue for an event at its next completion, or at its next solicited one (`rxe_verbs.c`,
    /// `rxe_req_notify_cq`).
    pub fn arm(&mut self, cq: (u32, u32), solicited: bool) -> ArmTried
        requires world { IsWorld self.old }
        ensures answer { result ≡ arm_answer (value_named (held_of self.old.contents).rings cq) }
        ensures stage { stage_of self.new ≡ stage_holding (stage_of self.old) (held_armed (held_of self.old.contents) cq solicited) }
        ensures only { OnlyContents self.old self.new }
        ensures world { IsWorld self.new }
    {
        self.contents.arm(cq, solicited)
    }

    /// Takes the oldest event of a channel, if there is one: the cell of the completion queue that it tells of
    /// (`uverbs_main.c`, `ib_uverbs_comp_event_read`).
    pub fn event_of(&mut self, channel: (u32, u32)) -> EventTried
        requires world { IsWorld self.old }
        ensures answer { result ≡ event_answer (value_named (held_of self.old.contents).channels channel) }
        ensures stage { stage_of self.new ≡ stage_holding (stage_of self.old) (held_event_taken (held_of self.old.contents) channel) }
        ensures only { OnlyContents self.old self.new }
        ensures world { IsWorld self.new }
    {
        self.contents.event_of(channel)
    }
}
