//! The request that a method's attributes make: each number at its attribute.

ghost use Rattle.std.specs.Prelude.{◌≡◌, false};
ghost use Rattle.uv_schema.specs.declared.method.Method.TheVariants as method;
ghost use Rattle.uv_schema.specs.Refusals.{has_wide};
ghost use Rattle.uv_schema.specs.Values.{modified_in, request_in};

use crate::ids::{
    AH_DEVICE, BIND_ACCESS, BIND_LENGTH, BIND_MR, BIND_OFFSET, CQ_CHANNEL, CQ_DEPTH, DOMAIN,
    MODIFY_ACCESS, MODIFY_DEV, MODIFY_DQPN, MODIFY_MDRA, MODIFY_MRA, MODIFY_MTU, MODIFY_PKEY,
    MODIFY_PORT, MODIFY_QKEY, MODIFY_RETRY, MODIFY_RNR, MODIFY_RNRTIMER, MODIFY_RQPSN,
    MODIFY_SQPSN, MODIFY_TIMEOUT, MODIFY_TO, MR_ACCESS, MR_LENGTH, QP_RECV_CQ, QP_RECV_DEPTH,
    QP_SEND_CQ, QP_SEND_DEPTH, QP_SERVICE, QP_SRQ, SRQ_DEPTH, TARGET,
};
use crate::method::Method;
use crate::values::{given, given_handle, handle, value};
use uv_attr::Attr;
use uv_num::{QpAttrs, Request};

/// The request of a method with these attributes, whose handles have 32 bits.
pub(crate) fn request_in(method: Method, attrs: &[Attr]) -> Request
    requires { has_wide method attrs.now ≡ false }
    ensures { result ≡ request_in method attrs.now }
{
    match method {
        Method::AllocPd => Request::AllocPd,
        Method::DeallocPd => Request::DeallocPd {
            pd: handle(attrs, TARGET),
        },
        Method::CreateChannel => Request::CreateChannel,
        Method::DestroyChannel => Request::DestroyChannel {
            channel: handle(attrs, TARGET),
        },
        Method::CreateCq => create_cq(attrs),
        Method::DestroyCq => Request::DestroyCq {
            cq: handle(attrs, TARGET),
        },
        Method::CreateQp => create_qp(attrs),
        Method::DestroyQp => Request::DestroyQp {
            qp: handle(attrs, TARGET),
        },
        Method::ModifyQp => modify_qp(attrs),
        Method::QueryQp => Request::QueryQp {
            qp: handle(attrs, TARGET),
        },
        Method::CreateSrq => create_srq(attrs),
        Method::DestroySrq => Request::DestroySrq {
            srq: handle(attrs, TARGET),
        },
        Method::CreateAh => create_ah(attrs),
        Method::DestroyAh => Request::DestroyAh {
            ah: handle(attrs, TARGET),
        },
        Method::RegMr => reg_mr(attrs),
        Method::DeregMr => Request::DeregMr {
            mr: handle(attrs, TARGET),
        },
        Method::AllocMw => Request::AllocMw {
            pd: handle(attrs, DOMAIN),
        },
        Method::DeallocMw => Request::DeallocMw {
            mw: handle(attrs, TARGET),
        },
        Method::BindMw => bind_mw(attrs),
        Method::GetAsync => Request::GetAsync,
    }
}

fn create_cq(attrs: &[Attr]) -> Request
    requires { has_wide method.CreateCq attrs.now ≡ false }
    ensures { result ≡ request_in method.CreateCq attrs.now }
{
    Request::CreateCq {
        depth: value(attrs, CQ_DEPTH),
        channel: given_handle(attrs, CQ_CHANNEL),
    }
}

fn create_qp(attrs: &[Attr]) -> Request
    requires { has_wide method.CreateQp attrs.now ≡ false }
    ensures { result ≡ request_in method.CreateQp attrs.now }
{
    Request::CreateQp {
        pd: handle(attrs, DOMAIN),
        send_cq: handle(attrs, QP_SEND_CQ),
        recv_cq: handle(attrs, QP_RECV_CQ),
        srq: given_handle(attrs, QP_SRQ),
        service: value(attrs, QP_SERVICE),
        send_depth: value(attrs, QP_SEND_DEPTH),
        recv_depth: value(attrs, QP_RECV_DEPTH),
    }
}

fn modify_qp(attrs: &[Attr]) -> Request
    requires { has_wide method.ModifyQp attrs.now ≡ false }
    ensures { result ≡ request_in method.ModifyQp attrs.now }
{
    Request::ModifyQp {
        qp: handle(attrs, TARGET),
        to: value(attrs, MODIFY_TO),
        attrs: modified(attrs),
    }
}

/// The attributes of a modify.
fn modified(attrs: &[Attr]) -> QpAttrs
    ensures { result ≡ modified_in attrs.now }
{
    QpAttrs {
        access: given(attrs, MODIFY_ACCESS),
        pkey: given(attrs, MODIFY_PKEY),
        port: given(attrs, MODIFY_PORT),
        qkey: given(attrs, MODIFY_QKEY),
        dev: given(attrs, MODIFY_DEV),
        mtu: given(attrs, MODIFY_MTU),
        timeout: given(attrs, MODIFY_TIMEOUT),
        retry: given(attrs, MODIFY_RETRY),
        rnr: given(attrs, MODIFY_RNR),
        rqpsn: given(attrs, MODIFY_RQPSN),
        mra: given(attrs, MODIFY_MRA),
        rnrtimer: given(attrs, MODIFY_RNRTIMER),
        sqpsn: given(attrs, MODIFY_SQPSN),
        mdra: given(attrs, MODIFY_MDRA),
        dqpn: given(attrs, MODIFY_DQPN),
    }
}

fn create_srq(attrs: &[Attr]) -> Request
    requires { has_wide method.CreateSrq attrs.now ≡ false }
    ensures { result ≡ request_in method.CreateSrq attrs.now }
{
    Request::CreateSrq {
        pd: handle(attrs, DOMAIN),
        depth: value(attrs, SRQ_DEPTH),
    }
}

fn create_ah(attrs: &[Attr]) -> Request
    requires { has_wide method.CreateAh attrs.now ≡ false }
    ensures { result ≡ request_in method.CreateAh attrs.now }
{
    Request::CreateAh {
        pd: handle(attrs, DOMAIN),
        device: value(attrs, AH_DEVICE),
    }
}

fn reg_mr(attrs: &[Attr]) -> Request
    requires { has_wide method.RegMr attrs.now ≡ false }
    ensures { result ≡ request_in method.RegMr attrs.now }
{
    Request::RegMr {
        pd: handle(attrs, DOMAIN),
        length: value(attrs, MR_LENGTH),
        access: value(attrs, MR_ACCESS),
    }
}

fn bind_mw(attrs: &[Attr]) -> Request
    requires { has_wide method.BindMw attrs.now ≡ false }
    ensures { result ≡ request_in method.BindMw attrs.now }
{
    Request::BindMw {
        mw: handle(attrs, TARGET),
        mr: given_handle(attrs, BIND_MR),
        offset: value(attrs, BIND_OFFSET),
        length: value(attrs, BIND_LENGTH),
        access: value(attrs, BIND_ACCESS),
    }
}
