//! The states and services of a queue pair.

ghost use Rattle.std.specs.Prelude.{◌≡◌};
ghost use Rattle.uv_num.specs.Qp.{qp_state_number, qp_state_of, service_number, service_of};

/// A state of a queue pair. Linux's states between (SQD and SQE) aren't modelled.
#[derive(Clone, Copy, Debug, PartialEq, Eq)]
pub enum QpState {
    /// Reset: nothing is posted.
    Reset,
    /// Initialised: receives may be posted.
    Init,
    /// Ready to receive.
    Rtr,
    /// Ready to send.
    Rts,
    /// Broken: what is posted is flushed.
    Err,
}

impl QpState {
    /// Its number in `enum ib_qp_state` (`rdma/ib_verbs.h`).
    pub fn number(self) -> u32
        ensures { result ≡ qp_state_number self }
    {
        match self {
            QpState::Reset => 0,
            QpState::Init => 1,
            QpState::Rtr => 2,
            QpState::Rts => 3,
            QpState::Err => 6,
        }
    }

    /// The state that has this number, if one has.
    pub fn from_number(number: u64) -> Option<QpState>
        ensures { result ≡ qp_state_of number }
    {
        match number {
            0 => Some(QpState::Reset),
            1 => Some(QpState::Init),
            2 => Some(QpState::Rtr),
            3 => Some(QpState::Rts),
            6 => Some(QpState::Err),
            _ => None,
        }
    }
}

/// The service that a queue pair gives.
#[derive(Clone, Copy, Debug, PartialEq, Eq)]
pub enum Service {
    /// Reliable connection.
    Rc,
    /// Unreliable datagram.
    Ud,
}

impl Service {
    /// Its number in `enum ib_qp_type` (`rdma/ib_verbs.h`).
    pub fn number(self) -> u32
        ensures { result ≡ service_number self }
    {
        match self {
            Service::Rc => 2,
            Service::Ud => 4,
        }
    }

    /// The service that has this number, if one has.
    pub fn from_number(number: u64) -> Option<Service>
        ensures { result ≡ service_of number }
    {
        match number {
            2 => Some(Service::Rc),
            4 => Some(Service::Ud),
            _ => None,
        }
    }
}

#[cfg(test)]
mod tests {
    use super::*;
    use std::test::Fail;

    #[test]
    fn states_and_services_have_the_numbers_of_linux(rt: HostRuntime) -> Result<(), Fail> {
        assert_eq!(rt; QpState::Reset.number(), 0);
        assert_eq!(rt; QpState::Init.number(), 1);
        assert_eq!(rt; QpState::Rtr.number(), 2);
        assert_eq!(rt; QpState::Rts.number(), 3);
        assert_eq!(rt; QpState::Err.number(), 6);
        assert_eq!(rt; Service::Rc.number(), 2);
        assert_eq!(rt; Service::Ud.number(), 4);
        Ok(())
    }

    #[test]
    fn numbers_name_states_and_services(rt: HostRuntime) {
        let rows = [
            (0, Some(QpState::Reset), None),
            (1, Some(QpState::Init), None),
            (2, Some(QpState::Rtr), Some(Service::Rc)),
            (3, Some(QpState::Rts), None),
            (4, None, Some(Service::Ud)),
            (5, None, None),
            (6, Some(QpState::Err), None),
            (7, None, None),
            (u64::MAX, None, None),
        ];
        for (number, state, service) in rows.iter() {
            assert_eq!(rt; QpState::from_number(*number), *state);
            assert_eq!(rt; Service::from_number(*number), *service);
        }
    }
}
