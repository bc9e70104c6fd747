//! The kinds of objects that a file can hold.

ghost use Rattle.std.specs.Prelude.{◌≡◌, ◌<◌};
ghost use Rattle.uv_num.specs.Kind.{kind_number, kind_rank, kind_place, kind_name};

use crate::KINDS;

/// A kind of object, as uverbs names them.
#[derive(Clone, Copy, Debug, PartialEq, Eq)]
pub enum Kind {
    /// A protection domain.
    Pd,
    /// A completion channel.
    Channel,
    /// A completion queue.
    Cq,
    /// A queue pair.
    Qp,
    /// A shared receive queue.
    Srq,
    /// An address handle.
    Ah,
    /// A memory region.
    Mr,
    /// A memory window.
    Mw,
}

impl Kind {
    /// The kind's number in uverbs commands, 1 to 8: `enum uverbs_default_objects` of Linux
    /// (`rdma/ib_user_ioctl_cmds.h`).
    pub fn number(self) -> u16
        ensures { result ≡ kind_number self }
    {
        match self {
            Kind::Pd => 1,
            Kind::Channel => 2,
            Kind::Cq => 3,
            Kind::Qp => 4,
            Kind::Srq => 5,
            Kind::Ah => 6,
            Kind::Mr => 7,
            Kind::Mw => 8,
        }
    }

    /// How far up the kind stands in the graph of uses, 1 to 3: an object uses only objects of a lower rank. This
    /// project's own.
    pub fn rank(self) -> u32
        ensures { result ≡ kind_rank self }
    {
        match self {
            Kind::Pd | Kind::Channel => 1,
            Kind::Cq | Kind::Srq | Kind::Ah | Kind::Mr => 2,
            Kind::Qp | Kind::Mw => 3,
        }
    }

    /// The kind's row in a table by kinds, 0 to 7.
    pub fn place(self) -> usize
        ensures place { result ≡ kind_place self }
        ensures within { result < KINDS }
    {
        match self {
            Kind::Pd => 0,
            Kind::Channel => 1,
            Kind::Cq => 2,
            Kind::Qp => 3,
            Kind::Srq => 4,
            Kind::Ah => 5,
            Kind::Mr => 6,
            Kind::Mw => 7,
        }
    }

    /// The kind's name in scripts and reports.
    pub fn name(self) -> &'static str
        ensures { result.now ≡ kind_name self }
    {
        match self {
            Kind::Pd => "pd",
            Kind::Channel => "channel",
            Kind::Cq => "cq",
            Kind::Qp => "qp",
            Kind::Srq => "srq",
            Kind::Ah => "ah",
            Kind::Mr => "mr",
            Kind::Mw => "mw",
        }
    }
}

#[cfg(test)]
mod tests {
    use super::*;
    use std::test::Fail;

    #[test]
    fn kinds_have_the_numbers_and_ranks_of_the_table(rt: HostRuntime) -> Result<(), Fail> {
        let rows = [
            (Kind::Pd, 1, 1, "pd"),
            (Kind::Channel, 2, 1, "channel"),
            (Kind::Cq, 3, 2, "cq"),
            (Kind::Qp, 4, 3, "qp"),
            (Kind::Srq, 5, 2, "srq"),
            (Kind::Ah, 6, 2, "ah"),
            (Kind::Mr, 7, 2, "mr"),
            (Kind::Mw, 8, 3, "mw"),
        ];
        for (place, (kind, number, rank, name)) in rows.iter().enumerate() {
            assert_eq!(rt; kind.number(), *number);
            assert_eq!(rt; kind.rank(), *rank);
            assert_eq!(rt; kind.name(), *name);
            assert_eq!(rt; kind.place(), place);
        }
        Ok(())
    }
}
