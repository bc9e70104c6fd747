//! Completions: what a completion queue tells of a work that has ended.

ghost use Rattle.std.specs.Prelude.{◌≡◌};
ghost use Rattle.uv_wr.specs.Statuses.{status_number, status_name, status_of, is_failure, is_receive, what_name};

/// How a work ended (`enum ib_wc_status`, `rdma/ib_verbs.h`). Linux's other statuses don't come about here.
#[derive(Clone, Copy, Debug, PartialEq, Eq)]
pub enum Status {
    /// It did what was asked.
    Success,
    /// It was too long: a message for the receive that took it, or a datagram for its packet.
    LocLenErr,
    /// A region of its parts isn't there, or refused it.
    LocProtErr,
    /// It wasn't done, since the queue pair was broken before.
    WrFlushErr,
    /// The peer found it invalid.
    RemInvReqErr,
    /// The peer's region refused it.
    RemAccessErr,
    /// The peer could not do it.
    RemOpErr,
    /// It had no answer in as many resends as the queue pair makes.
    RetryExcErr,
    /// It found no receive at the peer in as many resends as the queue pair makes for that.
    RnrRetryExcErr,
}

impl Status {
    /// Its number in `enum ib_wc_status`.
    pub fn number(self) -> u32
        ensures { result ≡ status_number self }
    {
        match self {
            Status::Success => 0,
            Status::LocLenErr => 1,
            Status::LocProtErr => 4,
            Status::WrFlushErr => 5,
            Status::RemInvReqErr => 9,
            Status::RemAccessErr => 10,
            Status::RemOpErr => 11,
            Status::RetryExcErr => 12,
            Status::RnrRetryExcErr => 13,
        }
    }

    /// The status that has this number, if one has.
    pub fn from_number(number: u32) -> Option<Status>
        ensures { result ≡ status_of number }
    {
        match number {
            0 => Some(Status::Success),
            1 => Some(Status::LocLenErr),
            4 => Some(Status::LocProtErr),
            5 => Some(Status::WrFlushErr),
            9 => Some(Status::RemInvReqErr),
            10 => Some(Status::RemAccessErr),
            11 => Some(Status::RemOpErr),
            12 => Some(Status::RetryExcErr),
            13 => Some(Status::RnrRetryExcErr),
            _ => None,
        }
    }

    /// Its symbol without `IB_WC_`, as reports print it.
    pub fn name(self) -> &'static str
        ensures { result.now ≡ status_name self }
    {
        match self {
            Status::Success => "SUCCESS",
            Status::LocLenErr => "LOC_LEN_ERR",
            Status::LocProtErr => "LOC_PROT_ERR",
            Status::WrFlushErr => "WR_FLUSH_ERR",
            Status::RemInvReqErr => "REM_INV_REQ_ERR",
            Status::RemAccessErr => "REM_ACCESS_ERR",
            Status::RemOpErr => "REM_OP_ERR",
            Status::RetryExcErr => "RETRY_EXC_ERR",
            Status::RnrRetryExcErr => "RNR_RETRY_EXC_ERR",
        }
    }

    /// Whether the work failed. A completion queue takes such a completion for a solicited one.
    pub fn is_failure(self) -> bool
        ensures { result ≡ is_failure self }
    {
        self != Status::Success
    }
}

/// What was completed (`enum ib_wc_opcode`, `rdma/ib_verbs.h`).
#[derive(Clone, Copy, Debug, PartialEq, Eq)]
pub enum What {
    /// A send on a connection (IB_WC_SEND).
    Send,
    /// A write (IB_WC_RDMA_WRITE).
    Write,
    /// A read (IB_WC_RDMA_READ).
    Read,
    /// A datagram that was sent. Linux tells it as IB_WC_SEND.
    Ud,
    /// A receive, of whatever message (IB_WC_RECV; with an immediate of a write Linux tells
    /// IB_WC_RECV_RDMA_WITH_IMM).
    Recv,
}

impl What {
    /// Whether it was a work of a receive queue, or of a shared one; the others are works of a send queue. Linux tells
    /// them by the bit IB_WC_RECV.
    pub fn is_receive(self) -> bool
        ensures { result ≡ is_receive self }
    {
        match self {
            What::Send | What::Write | What::Read | What::Ud => false,
            What::Recv => true,
        }
    }

    /// The word that reports print for it. This project's own.
    pub fn name(self) -> &'static str
        ensures { result.now ≡ what_name self }
    {
        match self {
            What::Send => "SEND",
            What::Write => "WRITE",
            What::Read => "READ",
            What::Ud => "UD",
            What::Recv => "RECV",
        }
    }
}

/// What is told of a work that has ended (`struct ib_wc`, `rdma/ib_verbs.h`).
#[derive(Clone, Copy, Debug, PartialEq, Eq)]
pub struct Completion {
    /// The number that the work was given by its poster.
    pub id: u64,
    /// How it ended.
    pub status: Status,
    /// What it was.
    pub what: What,
    /// The bytes that were moved, and 0 for every status but `Success`: Linux fills the field for a success alone
    /// (`rxe_comp.c`, `make_send_cqe`; `rxe_resp.c`, `do_complete`).
    pub length: u32,
    /// The immediate of the message, if it had one.
    pub imm: Option<u32>,
    /// The number of the queue pair whose work it was.
    pub qpn: u32,
}

#[cfg(test)]
mod tests {
    use super::*;
    use std::test::Fail;

    #[test]
    fn statuses_have_the_numbers_of_linux(rt: HostRuntime) -> Result<(), Fail> {
        let rows = [
            (Status::Success, 0, "SUCCESS"),
            (Status::LocLenErr, 1, "LOC_LEN_ERR"),
            (Status::LocProtErr, 4, "LOC_PROT_ERR"),
            (Status::WrFlushErr, 5, "WR_FLUSH_ERR"),
            (Status::RemInvReqErr, 9, "REM_INV_REQ_ERR"),
            (Status::RemAccessErr, 10, "REM_ACCESS_ERR"),
            (Status::RemOpErr, 11, "REM_OP_ERR"),
            (Status::RetryExcErr, 12, "RETRY_EXC_ERR"),
            (Status::RnrRetryExcErr, 13, "RNR_RETRY_EXC_ERR"),
        ];
        for (status, number, name) in rows.iter() {
            assert_eq!(rt; status.number(), *number);
            assert_eq!(rt; Status::from_number(*number), Some(*status));
            assert_eq!(rt; status.name(), *name);
            assert_eq!(rt; status.is_failure(), *number != 0);
        }
        assert_eq!(rt; Status::from_number(2), None);
        assert_eq!(rt; Status::from_number(14), None);
        Ok(())
    }

    #[test]
    fn what_was_completed_has_a_word(rt: HostRuntime) -> Result<(), Fail> {
        let rows = [
            (What::Send, "SEND", false),
            (What::Write, "WRITE", false),
            (What::Read, "READ", false),
            (What::Ud, "UD", false),
            (What::Recv, "RECV", true),
        ];
        for (what, name, receive) in rows.iter() {
            assert_eq!(rt; what.name(), *name);
            assert_eq!(rt; what.is_receive(), *receive);
        }
        Ok(())
    }
}
