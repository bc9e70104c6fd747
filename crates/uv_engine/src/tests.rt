//! An action by example.
//!
//! The helpers have no contracts, so that what a test is proved from stays small.

use super::*;
use std::alloc::{AllocError, Global};
use std::test::Fail;
use uv_cq::{Channel, Ring};
use uv_num::{List, QpAttrs, QpState, Request};
use uv_qp::{Qp, TurnWord};
use uv_region::Regions;
use uv_wr::RecvWork;

const NOT_GIVEN: QpAttrs = QpAttrs {
    access: None,
    pkey: None,
    port: None,
    qkey: None,
    dev: None,
    mtu: None,
    timeout: None,
    retry: None,
    rnr: None,
    rqpsn: None,
    mra: None,
    rnrtimer: None,
    sqpsn: None,
    mdra: None,
    dqpn: None,
};

const BEGINNING: QpAttrs = QpAttrs {
    access: Some(7),
    pkey: Some(0),
    port: Some(1),
    ..NOT_GIVEN
};

/// A connection that broke while two receives waited.
fn broken(alloc: Global) -> Result<Qp, AllocError> {
    let request = Request::CreateQp {
        pd: 0,
        send_cq: 1,
        recv_cq: 1,
        srq: None,
        service: 2,
        send_depth: 4,
        recv_depth: 4,
    };
    let mut qp = Qp::new(alloc, 8, 3, 1, 0, &request)?;
    let _ = qp.modify(QpState::Init, &BEGINNING);
    for id in [1, 2] {
        if let Some(work) = RecvWork::new(id, List::new(alloc)) {
            let _ = qp.post_recv(alloc, work);
        }
    }
    let _ = qp.modify(QpState::Err, &NOT_GIVEN);
    Ok(qp)
}

/// It is lent with one ring, which is armed, and the channel of that.
fn lent(alloc: Global) -> Result<Lent, AllocError> {
    let mut ring = Ring::new(alloc, 4)?;
    ring.arm(false);
    Ok(Lent {
        qp: broken(alloc)?,
        send: CqLent {
            cell: 6,
            channel: Some(2),
            ring,
        },
        receive: None,
        send_channel: Some(Channel::new(alloc)?),
        receive_channel: None,
        srq: None,
        regions: Regions::new(),
    })
}

fn word(did: Did) -> Option<TurnWord> {
    match did {
        Did::Did { word, .. } => Some(word),
        Did::Idle | Did::NoMemory => None,
    }
}

fn next_event(lent: &mut Lent) -> Option<u32> {
    match lent.send_channel.take() {
        None => None,
        Some(channel) => {
            let mut channel = channel;
            let event = channel.get();
            lent.send_channel = Some(channel);
            event
        }
    }
}

#[test]
fn a_broken_queue_pair_flushes_into_its_ring_with_one_event(rt: HostRuntime) -> Result<(), Fail> {
    let mut lent = lent(rt.alloc())?;
    for event in [Some(6), None] {
        assert_eq!(rt; word(send(rt.alloc(), &mut lent)), Some(TurnWord::Flushed));
        assert_eq!(rt; next_event(&mut lent), event);
    }
    assert_eq!(rt; word(send(rt.alloc(), &mut lent)), None);
    for id in [Some(1), Some(2), None] {
        assert_eq!(rt; lent.send.ring.poll().map(|c| c.id), id);
    }
    Ok(())
}
