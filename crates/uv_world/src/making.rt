//! What creates make before they enter, and the room that it will want when it is closed.

ghost use Rattle.std.specs.Prelude.{◌≡◌, ◌≤◌, ◌+◌, Some, IfOk, OnErr, option_map, true};
ghost use Rattle.uv_num.specs.declared.kind.Kind.TheVariants as Kind;
ghost use Rattle.uv_num.specs.declared.limits.TheConstants.{CQ_DEPTH, QUEUE_DEPTH, REGION_BYTES};
ghost use Rattle.uv_num.specs.declared.request.Role.TheVariants as Role;
ghost use Rattle.uv_num.specs.Ranges.{is_in_range};
ghost use Rattle.uv_num.specs.Request.{role_of};
ghost use Rattle.uv_qp.specs.Makings.{pair_made_by};
ghost use Rattle.uv_world.specs.Holdings.{held_of};
ghost use Rattle.uv_world.specs.Making.{content_for, unnamed, pair_content, region_content, window_content, ring_content, shared_content, address_content};
ghost use Rattle.uv_world.specs.Owing.{IsHoused, IsUnused, journals_owed, lists_owed, owes_journals, owes_lists};

use crate::content::{Addressed, Belled, Connected, Content, Shared, Windowed};
use crate::contents::Contents;
use std::alloc::{AllocError, Global};
use uv_cq::{Channel, Ring};
use uv_num::{NONE, Request};
use uv_qp::{Ledger, Qp};
use uv_queue::WorkQueue;
use uv_region::{Region, Rights};

fn new_region(alloc: Global, length: u64, access: u64) -> Result<Content, AllocError>
    requires { length ≤ REGION_BYTES }
    ensures content { IfOk result (λ c. c ≡ region_content length access) }
    ensures unused { IfOk result (λ c. IsUnused (Some c)) }
{
    let rights = Rights((access % 256) as u8);
    let region = Region::new(alloc, NONE, NONE, length as u32, rights)?;
    Ok(Content::Mr(region))
}

fn new_ring(alloc: Global, depth: u64) -> Result<Content, AllocError>
    requires least { 1 ≤ depth }
    requires most { depth ≤ CQ_DEPTH }
    ensures content { IfOk result (λ c. c ≡ ring_content depth) }
    ensures unused { IfOk result (λ c. IsUnused (Some c)) }
{
    let ring = Ring::new(alloc, depth as u32)?;
    Ok(Content::Cq(Belled {
        ring,
        channel: None,
    }))
}

fn new_shared(alloc: Global, depth: u64) -> Result<Content, AllocError>
    requires least { 1 ≤ depth }
    requires most { depth ≤ QUEUE_DEPTH }
    ensures content { IfOk result (λ c. c ≡ shared_content depth) }
    ensures unused { IfOk result (λ c. IsUnused (Some c)) }
{
    let works = WorkQueue::new(alloc, depth as u32)?;
    Ok(Content::Srq(Shared {
        object: NONE,
        domain: NONE,
        works,
        posted: Ledger::new(alloc),
    }))
}

fn new_pair(alloc: Global, request: &Request) -> Result<Content, AllocError>
    requires creates { role_of request.now ≡ Role.Creates Kind.Qp }
    requires range { is_in_range request.now ≡ true }
    ensures content { IfOk result (λ c. Some c ≡ option_map pair_content (pair_made_by unnamed request.now)) }
{
    let qp = Qp::new(alloc, NONE, NONE, 0, 0, request)?;
    Ok(Content::Qp(Connected {
        qp,
        send: None,
        receive: None,
        shared: None,
    }))
}

fn new_address(device: u64) -> Content
    ensures content { result ≡ address_content device }
    ensures unused { IsUnused (Some result) }
{
    Content::Ah(Addressed {
        object: NONE,
        domain: NONE,
        device,
    })
}

fn new_window() -> Content
    ensures content { result ≡ window_content }
    ensures unused { IsUnused (Some result) }
{
    Content::Mw(Windowed {
        object: NONE,
        domain: NONE,
        bound: None,
    })
}

/// What the create of a request makes, if it makes anything: it has no names yet.
pub fn content_for(alloc: Global, request: &Request) -> Result<Option<Content>, AllocError>
    requires range { is_in_range request.now ≡ true }
    ensures content { IfOk result (λ c. c ≡ content_for request.now) }
    ensures unused { IfOk result (λ c. IsUnused c) }
{
    match request {
        Request::CreateChannel => Ok(Some(Content::Channel(Channel::new(alloc)?))),
        Request::CreateCq { depth, channel: _ } => Ok(Some(new_ring(alloc, *depth)?)),
        Request::CreateQp { .. } => Ok(Some(new_pair(alloc, request)?)),
        Request::CreateSrq { pd: _, depth } => Ok(Some(new_shared(alloc, *depth)?)),
        Request::CreateAh { pd: _, device } => Ok(Some(new_address(*device))),
        Request::RegMr {
            pd: _,
            length,
            access,
        } => Ok(Some(new_region(alloc, *length, *access)?)),
        Request::AllocMw { .. } => Ok(Some(new_window())),
        Request::AllocPd
        | Request::DeallocPd { .. }
        | Request::DestroyChannel { .. }
        | Request::DestroyCq { .. }
        | Request::DestroyQp { .. }
        | Request::ModifyQp { .. }
        | Request::QueryQp { .. }
        | Request::DestroySrq { .. }
        | Request::DestroyAh { .. }
        | Request::DeregMr { .. }
        | Request::DeallocMw { .. }
        | Request::BindMw { .. }
        | Request::GetAsync => Ok(None),
    }
}

/// How many journals a content becomes.
fn owes_journals(content: &Option<Content>) -> usize
    ensures { result ≡ owes_journals content.now }
{
    match content {
        Some(Content::Mr(_)) => 1,
        Some(
            Content::Channel(_)
            | Content::Cq(_)
            | Content::Qp(_)
            | Content::Srq(_)
            | Content::Ah(_)
            | Content::Mw(_),
        )
        | None => 0,
    }
}

/// How many lists of queues a content becomes.
fn owes_lists(content: &Option<Content>) -> usize
    ensures { result ≡ owes_lists content.now }
{
    match content {
        Some(Content::Qp(_)) => 2,
        Some(Content::Srq(_)) => 1,
        Some(
            Content::Channel(_) | Content::Cq(_) | Content::Ah(_) | Content::Mr(_) | Content::Mw(_),
        )
        | None => 0,
    }
}

impl Contents {
    /// Makes what a request's create makes, and takes the room of all that it will leave. On an error no content changes.
    pub fn prepare(
        &mut self,
        alloc: Global,
        request: &Request,
    ) -> Result<Option<Content>, AllocError>
        requires range { is_in_range request.now ≡ true }
        requires housed { IsHoused self.old }
        ensures content { IfOk result (λ c. c ≡ content_for request.now) }
        ensures unused { IfOk result (λ c. IsUnused c) }
        ensures journals { IfOk result (λ c. journals_owed self.new + owes_journals c ≤ self.new.journals.room) }
        ensures lists { IfOk result (λ c. lists_owed self.new + owes_lists c ≤ self.new.queues.room) }
        ensures held { held_of self.new ≡ held_of self.old }
        ensures housed { IsHoused self.new }
    {
        let content = content_for(alloc, request)?;
        self.journals.widen(owes_journals(&content))?;
        self.queues.widen(owes_lists(&content))?;
        Ok(content)
    }
}
