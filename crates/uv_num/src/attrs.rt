//! The attributes of a modify of a queue pair.

ghost use Rattle.std.specs.Prelude.{◌≡◌, Some, slice_get};
ghost use Rattle.uv_num.specs.Attrs.{attr_place, attr_value, no_attrs, with_attr};

/// An attribute that a modify of a queue pair may give: `enum ib_qp_attr_mask` of Linux (`rdma/ib_verbs.h`), less
/// those that this project leaves out.
#[derive(Clone, Copy, Debug, PartialEq, Eq)]
pub enum QpAttr {
    /// What the other side may do: remote rights (`IB_QP_ACCESS_FLAGS`).
    Access,
    /// The partition key's index (`IB_QP_PKEY_INDEX`).
    Pkey,
    /// The port (`IB_QP_PORT`).
    Port,
    /// The Q_Key of a datagram service (`IB_QP_QKEY`).
    Qkey,
    /// The device of the other side. It stands for the address vector (`IB_QP_AV`).
    Dev,
    /// The path MTU in bytes (`IB_QP_PATH_MTU`).
    Mtu,
    /// The timeout until a resend (`IB_QP_TIMEOUT`).
    Timeout,
    /// How often is resent without an answer (`IB_QP_RETRY_CNT`).
    Retry,
    /// How often is resent after the other side was not ready (`IB_QP_RNR_RETRY`).
    Rnr,
    /// The first PSN that comes in (`IB_QP_RQ_PSN`).
    Rqpsn,
    /// The most outstanding reads as requester (`IB_QP_MAX_QP_RD_ATOMIC`).
    Mra,
    /// The least wait that a sender is told when no receive is posted (`IB_QP_MIN_RNR_TIMER`).
    RnrTimer,
    /// The first PSN that goes out (`IB_QP_SQ_PSN`).
    Sqpsn,
    /// The most outstanding reads as responder (`IB_QP_MAX_DEST_RD_ATOMIC`).
    Mdra,
    /// The number of the other side's queue pair (`IB_QP_DEST_QPN`).
    Dqpn,
}

/// The attributes that a modify gives, each with its value.
#[derive(Clone, Copy, Debug, PartialEq, Eq)]
pub struct QpAttrs {
    /// Remote rights, 0 to 15.
    pub access: Option<u64>,
    /// The partition key's index, 0.
    pub pkey: Option<u64>,
    /// The port, 1.
    pub port: Option<u64>,
    /// The Q_Key, below 2^32.
    pub qkey: Option<u64>,
    /// The other side's device, 0 or 1.
    pub dev: Option<u64>,
    /// The path MTU: 256, 512, 1024, 2048 or 4096.
    pub mtu: Option<u64>,
    /// 0 to 31; kept, without effect.
    pub timeout: Option<u64>,
    /// 0 to 7.
    pub retry: Option<u64>,
    /// 0 to 7, of which 7 is without end.
    pub rnr: Option<u64>,
    /// A PSN, below 2^24.
    pub rqpsn: Option<u64>,
    /// 1 to 16; kept, without effect.
    pub mra: Option<u64>,
    /// 0 to 31.
    pub rnrtimer: Option<u64>,
    /// A PSN, below 2^24.
    pub sqpsn: Option<u64>,
    /// 1 to 16; kept, without effect.
    pub mdra: Option<u64>,
    /// A queue pair's number, below 2^24.
    pub dqpn: Option<u64>,
}

/// All attributes, in the order of their places.
pub const QP_ATTRS: [QpAttr; 15] = [
    QpAttr::Access,
    QpAttr::Pkey,
    QpAttr::Port,
    QpAttr::Qkey,
    QpAttr::Dev,
    QpAttr::Mtu,
    QpAttr::Timeout,
    QpAttr::Retry,
    QpAttr::Rnr,
    QpAttr::Rqpsn,
    QpAttr::Mra,
    QpAttr::RnrTimer,
    QpAttr::Sqpsn,
    QpAttr::Mdra,
    QpAttr::Dqpn,
];

impl QpAttr {
    /// The attribute's place in `QP_ATTRS`, 0 to 14.
    pub fn place(self) -> usize
        ensures place { result ≡ attr_place self }
        ensures listed { slice_get QP_ATTRS result ≡ Some self }
    {
        match self {
            QpAttr::Access => 0,
            QpAttr::Pkey => 1,
            QpAttr::Port => 2,
            QpAttr::Qkey => 3,
            QpAttr::Dev => 4,
            QpAttr::Mtu => 5,
            QpAttr::Timeout => 6,
            QpAttr::Retry => 7,
            QpAttr::Rnr => 8,
            QpAttr::Rqpsn => 9,
            QpAttr::Mra => 10,
            QpAttr::RnrTimer => 11,
            QpAttr::Sqpsn => 12,
            QpAttr::Mdra => 13,
            QpAttr::Dqpn => 14,
        }
    }
}

impl QpAttrs {
    /// No attributes.
    pub fn none() -> QpAttrs
        ensures { result ≡ no_attrs }
    {
        QpAttrs {
            access: None,
            pkey: None,
            port: None,
            qkey: None,
            dev: None,
            mtu: None,
            timeout: None,
            retry: None,
            rnr: None,
            rqpsn: None,
            mra: None,
            rnrtimer: None,
            sqpsn: None,
            mdra: None,
            dqpn: None,
        }
    }

    /// The value of an attribute, if it is given.
    pub fn get(self, name: QpAttr) -> Option<u64>
        ensures { result ≡ attr_value self name }
    {
        match name {
            QpAttr::Access => self.access,
            QpAttr::Pkey => self.pkey,
            QpAttr::Port => self.port,
            QpAttr::Qkey => self.qkey,
            QpAttr::Dev => self.dev,
            QpAttr::Mtu => self.mtu,
            QpAttr::Timeout => self.timeout,
            QpAttr::Retry => self.retry,
            QpAttr::Rnr => self.rnr,
            QpAttr::Rqpsn => self.rqpsn,
            QpAttr::Mra => self.mra,
            QpAttr::RnrTimer => self.rnrtimer,
            QpAttr::Sqpsn => self.sqpsn,
            QpAttr::Mdra => self.mdra,
            QpAttr::Dqpn => self.dqpn,
        }
    }

    /// The attributes with a value for this one, in place of any that it had.
    pub fn with(mut self, name: QpAttr, value: u64) -> QpAttrs
        ensures attrs { result ≡ with_attr self name value }
        ensures given { attr_value result name ≡ Some value }
    {
        let value = Some(value);
        match name {
            QpAttr::Access => self.access = value,
            QpAttr::Pkey => self.pkey = value,
            QpAttr::Port => self.port = value,
            QpAttr::Qkey => self.qkey = value,
            QpAttr::Dev => self.dev = value,
            QpAttr::Mtu => self.mtu = value,
            QpAttr::Timeout => self.timeout = value,
            QpAttr::Retry => self.retry = value,
            QpAttr::Rnr => self.rnr = value,
            QpAttr::Rqpsn => self.rqpsn = value,
            QpAttr::Mra => self.mra = value,
            QpAttr::RnrTimer => self.rnrtimer = value,
            QpAttr::Sqpsn => self.sqpsn = value,
            QpAttr::Mdra => self.mdra = value,
            QpAttr::Dqpn => self.dqpn = value,
        }
        self
    }
}

#[cfg(test)]
mod tests {
    use super::*;

    #[test]
    fn attributes_stand_at_their_places(rt: HostRuntime) {
        for (place, name) in QP_ATTRS.iter().enumerate() {
            assert_eq!(rt; name.place(), place);
        }
    }

    #[test]
    fn what_is_given_is_read_back_and_nothing_else(rt: HostRuntime) {
        for name in QP_ATTRS.iter() {
            let attrs = QpAttrs::none().with(*name, 7);
            for other in QP_ATTRS.iter() {
                let wanted = if *other == *name { Some(7) } else { None };
                assert_eq!(rt; attrs.get(*other), wanted);
            }
        }
    }

    #[test]
    fn a_value_takes_the_place_of_an_earlier_one(rt: HostRuntime) {
        let attrs = QpAttrs::none().with(QpAttr::Port, 2).with(QpAttr::Mtu, 256);
        assert_eq!(rt; attrs.with(QpAttr::Port, 1).port, Some(1));
        assert_eq!(rt; attrs.with(QpAttr::Port, 1).mtu, Some(256));
    }
}
