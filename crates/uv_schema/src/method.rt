//! The method table.

ghost use Rattle.std.specs.Prelude.{◌≡◌};
ghost use Rattle.uv_schema.specs.Methods.{id_of, is_handle, is_required, method_of, wanted_of};

use crate::ids::{
    AH_DEVICE, BIND_ACCESS, BIND_LENGTH, BIND_MR, BIND_OFFSET, CQ_CHANNEL, CQ_DEPTH, DOMAIN,
    MODIFY_ACCESS, MODIFY_DEV, MODIFY_DQPN, MODIFY_MDRA, MODIFY_MRA, MODIFY_MTU, MODIFY_PKEY,
    MODIFY_PORT, MODIFY_QKEY, MODIFY_RETRY, MODIFY_RNR, MODIFY_RNRTIMER, MODIFY_RQPSN,
    MODIFY_SQPSN, MODIFY_TIMEOUT, MODIFY_TO, MR_ACCESS, MR_LENGTH, QP_RECV_CQ, QP_RECV_DEPTH,
    QP_SEND_CQ, QP_SEND_DEPTH, QP_SERVICE, QP_SRQ, SRQ_DEPTH, TARGET,
};

/// A method of an object: a row of the table, named as the request that it makes.
#[derive(Clone, Copy, Debug, PartialEq, Eq)]
pub enum Method {
    /// Object 1, method 1.
    AllocPd,
    /// Object 1, method 2.
    DeallocPd,
    /// Object 2, method 1.
    CreateChannel,
    /// Object 2, method 2.
    DestroyChannel,
    /// Object 3, method 1.
    CreateCq,
    /// Object 3, method 2.
    DestroyCq,
    /// Object 4, method 1.
    CreateQp,
    /// Object 4, method 2.
    DestroyQp,
    /// Object 4, method 3.
    ModifyQp,
    /// Object 4, method 4.
    QueryQp,
    /// Object 5, method 1.
    CreateSrq,
    /// Object 5, method 2.
    DestroySrq,
    /// Object 6, method 1.
    CreateAh,
    /// Object 6, method 2.
    DestroyAh,
    /// Object 7, method 1.
    RegMr,
    /// Object 7, method 2.
    DeregMr,
    /// Object 8, method 1.
    AllocMw,
    /// Object 8, method 2.
    DeallocMw,
    /// Object 8, method 3.
    BindMw,
    /// Object 16, method 1.
    GetAsync,
}

/// An attribute that a method has, by its number: `attr_id` of Linux's `struct ib_uverbs_attr`.
#[derive(Clone, Copy, Debug, PartialEq, Eq)]
pub enum Wanted {
    /// A handle that has to be given.
    Handle(u16),
    /// A handle that may be given.
    MayHandle(u16),
    /// Another number that has to be given.
    Number(u16),
    /// Another number that may be given.
    MayNumber(u16),
}

impl Method {
    /// The method of an object's number and a method's number, if there is one.
    pub fn numbered(object: u16, number: u16) -> Option<Method>
        ensures { result ≡ method_of object number }
    {
        match object {
            1 => pd_method(number),
            2 => channel_method(number),
            3 => cq_method(number),
            4 => qp_method(number),
            5 => srq_method(number),
            6 => ah_method(number),
            7 => mr_method(number),
            8 => mw_method(number),
            16 => async_method(number),
            _ => None,
        }
    }

    /// The attributes that the method has.
    pub fn wanted(self) -> &'static [Wanted]
        ensures { result.now ≡ wanted_of self }
    {
        match self {
            Method::AllocPd | Method::CreateChannel | Method::GetAsync => &[],
            Method::DeallocPd
            | Method::DestroyChannel
            | Method::DestroyCq
            | Method::DestroyQp
            | Method::QueryQp
            | Method::DestroySrq
            | Method::DestroyAh
            | Method::DeregMr
            | Method::DeallocMw => &[Wanted::Handle(TARGET)],
            Method::AllocMw => &[Wanted::Handle(DOMAIN)],
            Method::CreateCq => &[Wanted::Number(CQ_DEPTH), Wanted::MayHandle(CQ_CHANNEL)],
            Method::CreateQp => &[
                Wanted::Handle(DOMAIN),
                Wanted::Handle(QP_SEND_CQ),
                Wanted::Handle(QP_RECV_CQ),
                Wanted::MayHandle(QP_SRQ),
                Wanted::Number(QP_SERVICE),
                Wanted::Number(QP_SEND_DEPTH),
                Wanted::Number(QP_RECV_DEPTH),
            ],
            Method::ModifyQp => &[
                Wanted::Handle(TARGET),
                Wanted::Number(MODIFY_TO),
                Wanted::MayNumber(MODIFY_ACCESS),
                Wanted::MayNumber(MODIFY_PKEY),
                Wanted::MayNumber(MODIFY_PORT),
                Wanted::MayNumber(MODIFY_QKEY),
                Wanted::MayNumber(MODIFY_DEV),
                Wanted::MayNumber(MODIFY_MTU),
                Wanted::MayNumber(MODIFY_TIMEOUT),
                Wanted::MayNumber(MODIFY_RETRY),
                Wanted::MayNumber(MODIFY_RNR),
                Wanted::MayNumber(MODIFY_RQPSN),
                Wanted::MayNumber(MODIFY_MRA),
                Wanted::MayNumber(MODIFY_RNRTIMER),
                Wanted::MayNumber(MODIFY_SQPSN),
                Wanted::MayNumber(MODIFY_MDRA),
                Wanted::MayNumber(MODIFY_DQPN),
            ],
            Method::CreateSrq => &[Wanted::Handle(DOMAIN), Wanted::Number(SRQ_DEPTH)],
            Method::CreateAh => &[Wanted::Handle(DOMAIN), Wanted::Number(AH_DEVICE)],
            Method::RegMr => &[
                Wanted::Handle(DOMAIN),
                Wanted::Number(MR_LENGTH),
                Wanted::Number(MR_ACCESS),
            ],
            Method::BindMw => &[
                Wanted::Handle(TARGET),
                Wanted::MayHandle(BIND_MR),
                Wanted::Number(BIND_OFFSET),
                Wanted::Number(BIND_LENGTH),
                Wanted::Number(BIND_ACCESS),
            ],
        }
    }
}

fn pd_method(number: u16) -> Option<Method>
    ensures { result ≡ method_of 1 number }
{
    match number {
        1 => Some(Method::AllocPd),
        2 => Some(Method::DeallocPd),
        _ => None,
    }
}

fn channel_method(number: u16) -> Option<Method>
    ensures { result ≡ method_of 2 number }
{
    match number {
        1 => Some(Method::CreateChannel),
        2 => Some(Method::DestroyChannel),
        _ => None,
    }
}

fn cq_method(number: u16) -> Option<Method>
    ensures { result ≡ method_of 3 number }
{
    match number {
        1 => Some(Method::CreateCq),
        2 => Some(Method::DestroyCq),
        _ => None,
    }
}

fn qp_method(number: u16) -> Option<Method>
    ensures { result ≡ method_of 4 number }
{
    match number {
        1 => Some(Method::CreateQp),
        2 => Some(Method::DestroyQp),
        3 => Some(Method::ModifyQp),
        4 => Some(Method::QueryQp),
        _ => None,
    }
}

fn srq_method(number: u16) -> Option<Method>
    ensures { result ≡ method_of 5 number }
{
    match number {
        1 => Some(Method::CreateSrq),
        2 => Some(Method::DestroySrq),
        _ => None,
    }
}

fn ah_method(number: u16) -> Option<Method>
    ensures { result ≡ method_of 6 number }
{
    match number {
        1 => Some(Method::CreateAh),
        2 => Some(Method::DestroyAh),
        _ => None,
    }
}

fn mr_method(number: u16) -> Option<Method>
    ensures { result ≡ method_of 7 number }
{
    match number {
        1 => Some(Method::RegMr),
        2 => Some(Method::DeregMr),
        _ => None,
    }
}

fn mw_method(number: u16) -> Option<Method>
    ensures { result ≡ method_of 8 number }
{
    match number {
        1 => Some(Method::AllocMw),
        2 => Some(Method::DeallocMw),
        3 => Some(Method::BindMw),
        _ => None,
    }
}

fn async_method(number: u16) -> Option<Method>
    ensures { result ≡ method_of 16 number }
{
    match number {
        1 => Some(Method::GetAsync),
        _ => None,
    }
}

impl Wanted {
    /// Its number.
    pub fn id(self) -> u16
        ensures { result ≡ id_of self }
    {
        match self {
            Wanted::Handle(id)
            | Wanted::MayHandle(id)
            | Wanted::Number(id)
            | Wanted::MayNumber(id) => id,
        }
    }

    /// Whether it has to be given.
    pub fn is_required(self) -> bool
        ensures { result ≡ is_required self }
    {
        match self {
            Wanted::Handle(_) | Wanted::Number(_) => true,
            Wanted::MayHandle(_) | Wanted::MayNumber(_) => false,
        }
    }

    /// Whether its value is a handle, which has 32 bits.
    pub fn is_handle(self) -> bool
        ensures { result ≡ is_handle self }
    {
        match self {
            Wanted::Handle(_) | Wanted::MayHandle(_) => true,
            Wanted::Number(_) | Wanted::MayNumber(_) => false,
        }
    }
}
