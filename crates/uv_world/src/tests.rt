//! What a region, a shared receive queue, a completion queue and a channel answer and leave, in cells of their own.

ghost use Rattle.std.specs.Prelude.{◌≡◌, ◌<◌, ◌≤◌, IfOk, OnOk, length, true};
ghost use Rattle.uv_num.specs.Ranges.{is_in_range};
ghost use Rattle.uv_num.specs.declared.limits.TheConstants.{WORK_BYTES};
ghost use Rattle.uv_world.specs.Owing.{IsHoused};

use crate::{Contents, PacketTried, World};
use std::alloc::{AllocError, Global};
use std::test::Fail;
use uv_engine::Work;
use uv_link::Frame;
use uv_machine::{Links, Move, Slot, Spot};
use uv_num::{Bytes, Kind, List, Request};
use uv_region::ActTried;
use uv_wr::{ArmTried, EventTried, PollTried, RecvWork, Tried};

const NO_LINKS: Links = Links {
    send: None,
    receive: None,
    shared: None,
    channel: None,
};

/// Plants what a request's create makes in cell 3 under generation 2.
fn plant(
    contents: &mut Contents,
    alloc: Global,
    request: &Request,
    links: Links,
) -> Result<(), AllocError>
    requires range { is_in_range request.now ≡ true }
    requires housed { IsHoused contents.old }
    ensures { OnOk result (IsHoused contents.new) }
{
    let made = contents.prepare(alloc, request)?;
    contents.bring(1, made);
    contents.carry(Move::Plants {
        actor: 1,
        spot: Spot {
            index: 3,
            generation: 2,
            object: 7,
            domain: 5,
            device: 0,
            links,
        },
    });
    Ok(())
}

/// Contents with what a request's create makes.
fn with(alloc: Global, request: &Request) -> Result<Contents, AllocError>
    requires { is_in_range request.now ≡ true }
    ensures { IfOk result IsHoused }
{
    let mut contents = Contents::new(alloc)?;
    plant(&mut contents, alloc, request, NO_LINKS)?;
    Ok(contents)
}

fn told(tried: &ActTried) -> &[u8] {
    match tried {
        ActTried::Did(bytes) => bytes.as_slice(),
        ActTried::Denied(why) => why.name().as_bytes(),
        ActTried::Again(_) => b"again",
        ActTried::Dead(_) => b"dead",
        ActTried::NoMemory => b"no memory",
    }
}

#[test]
fn pokes_and_peeks_stand_in_the_journal_of_a_region(rt: HostRuntime) -> Result<(), Fail> {
    let request = Request::RegMr {
        pd: 0,
        length: 64,
        access: 1,
    };
    let mut contents = with(rt.alloc(), &request)?;
    let wrote = contents.poke(rt.alloc(), (3, 2), 4, &[9, 8, 7]);
    assert_eq!(rt; told(&wrote), b"".as_slice());
    let read = contents.peek(rt.alloc(), (3, 2), 5, 3);
    assert_eq!(rt; told(&read), [8, 7, 0].as_slice());
    let past = contents.poke(rt.alloc(), (3, 2), 62, &[1, 1, 1]);
    assert_eq!(rt; told(&past), b"bounds".as_slice());
    let earlier = contents.peek(rt.alloc(), (3, 1), 5, 3);
    assert_eq!(rt; told(&earlier), b"dead".as_slice());
    contents.carry(Move::Takes {
        slot: Slot::OfCall(1),
        kind: Kind::Mr,
        index: 3,
    });
    let later = contents.peek(rt.alloc(), (3, 2), 5, 3);
    assert_eq!(rt; told(&later), b"dead".as_slice());
    assert_eq!(rt; contents.kept(Slot::OfCall(1)), 2);
    contents.carry(Move::Buries {
        slot: Slot::OfCall(1),
    });
    assert_eq!(rt; contents.journals.len(), 1);
    Ok(())
}

/// Posts a work to the shared receive queue; the id of a work that a full queue hands back.
fn post(contents: &mut Contents, alloc: Global, id: u64) -> Option<u64>
    requires { IsHoused contents.old }
    ensures { IsHoused contents.new }
{
    let work = RecvWork::new(id, List::new(alloc))?;
    match contents.post_srq((3, 2), work) {
        Tried::Full(work) => Some(work.id()),
        Tried::Did
        | Tried::Inval { .. }
        | Tried::Again(..)
        | Tried::Dead(..)
        | Tried::NoMemory(_) => None,
    }
}

#[test]
fn a_full_shared_queue_hands_the_work_back(rt: HostRuntime) -> Result<(), Fail> {
    let request = Request::CreateSrq { pd: 0, depth: 1 };
    let mut contents = with(rt.alloc(), &request)?;
    assert_eq!(rt; post(&mut contents, rt.alloc(), 4), None);
    assert_eq!(rt; post(&mut contents, rt.alloc(), 5), Some(5));
    contents.carry(Move::Takes {
        slot: Slot::OfTeardown(0),
        kind: Kind::Srq,
        index: 3,
    });
    contents.carry(Move::Buries {
        slot: Slot::OfTeardown(0),
    });
    assert_eq!(rt; contents.queues.len(), 1);
    Ok(())
}

#[test]
fn an_empty_queue_is_armed_and_an_empty_channel_has_no_event(rt: HostRuntime) -> Result<(), Fail> {
    let request = Request::CreateCq {
        depth: 2,
        channel: None,
    };
    let mut contents = with(rt.alloc(), &request)?;
    assert_eq!(rt; contents.poll((3, 2)), PollTried::Empty(false));
    assert_eq!(rt; contents.poll((3, 3)), PollTried::Dead(0));
    assert_eq!(rt; contents.arm((3, 2), true), ArmTried::Did);
    assert_eq!(rt; contents.arm((2, 2), true), ArmTried::Dead(0));
    let mut contents = with(rt.alloc(), &Request::CreateChannel)?;
    assert_eq!(rt; contents.event_of((3, 2)), EventTried::Empty);
    assert_eq!(rt; contents.event_of((64, 2)), EventTried::Dead(0));
    Ok(())
}

/// Contents with a completion queue, and a queue pair of device 0 that is linked with it.
fn with_pair(alloc: Global) -> Result<Contents, AllocError>
    ensures { IfOk result IsHoused }
{
    let queue = Request::CreateCq {
        depth: 4,
        channel: None,
    };
    let pair = Request::CreateQp {
        pd: 0,
        send_cq: 0,
        recv_cq: 0,
        srq: None,
        service: 2,
        send_depth: 4,
        recv_depth: 4,
    };
    let mut contents = with(alloc, &queue)?;
    let links = Links {
        send: Some(3),
        receive: Some(3),
        ..NO_LINKS
    };
    plant(&mut contents, alloc, &pair, links)?;
    Ok(contents)
}

/// A frame without bytes, or with the header of an only send to queue pair 19, that goes to a device.
fn frame(alloc: Global, to: u32, count: usize) -> Result<Frame, AllocError>
    requires { count ≤ 12 }
{
    let header = [4, 0, 255, 255, 0, 0, 0, 19, 128, 0, 0, 0];
    let bytes = Bytes::from_vec(Vec::from_slice(alloc, &header[..count])?);
    Ok(Frame { from: 1, to, bytes })
}

fn word(tried: &PacketTried) -> &str {
    match tried {
        PacketTried::Did { word, .. } => word.name(),
        PacketTried::Idle => "idle",
        PacketTried::Bad(fault) => fault.name(),
        PacketTried::Dead => "dead",
        PacketTried::NoMemory(_) => "no memory",
    }
}

#[test]
fn a_queue_pair_acts_in_its_cell(rt: HostRuntime) -> Result<(), Fail> {
    let alloc = rt.alloc();
    let mut contents = with_pair(alloc)?;
    assert_eq!(rt; word(&contents.packet(alloc, Work::Send(3))), "idle");
    assert_eq!(rt; word(&contents.packet(alloc, Work::Tick(3))), "idle");
    assert_eq!(rt; word(&contents.packet(alloc, Work::Tick(4))), "dead");
    let short = Work::Deliver(frame(alloc, 0, 8)?);
    assert_eq!(rt; word(&contents.packet(alloc, short)), "Short");
    let elsewhere = Work::Deliver(frame(alloc, 1, 12)?);
    assert_eq!(rt; word(&contents.packet(alloc, elsewhere)), "dead");
    let here = Work::Deliver(frame(alloc, 0, 12)?);
    assert_eq!(rt; word(&contents.packet(alloc, here)), "dropped");
    assert_eq!(rt; contents.poll((3, 2)), PollTried::Empty(false));
    Ok(())
}

#[test]
fn no_cell_of_a_new_world_is_live(rt: HostRuntime) -> Result<(), Fail> {
    let mut world = World::new(rt.alloc())?;
    assert_eq!(rt; world.poll((0, 0)), PollTried::Dead(0));
    assert_eq!(rt; world.event_of((0, 0)), EventTried::Dead(0));
    let read = world.peek(rt.alloc(), (0, 0), 0, 1);
    assert_eq!(rt; told(&read), b"dead".as_slice());
    Ok(())
}
