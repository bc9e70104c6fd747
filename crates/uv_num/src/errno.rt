//! The errnos that calls are refused with.

ghost use Rattle.std.specs.Prelude.{◌≡◌};
ghost use Rattle.uv_num.specs.Errno.{errno_number, errno_name};

/// Why a call is refused, as one of Linux's error numbers (`asm-generic/errno-base.h` and `asm-generic/errno.h`).
#[derive(Clone, Copy, Debug, PartialEq, Eq)]
pub enum Errno {
    /// The handle names no object.
    NoEnt,
    /// The device is gone.
    Io,
    /// The file isn't open.
    BadF,
    /// Nothing is there now, and a later try may find something.
    Again,
    /// Memory ran out.
    NoMem,
    /// The object is in use.
    Busy,
    /// An argument is wrong.
    Inval,
    /// No handle or no cell is free.
    NoSpc,
    /// The command names an object, a method or a mandatory attribute that isn't known.
    ProtoNoSupport,
    /// What is asked for isn't supported.
    OpNotSupp,
}

impl Errno {
    /// Linux's number for it.
    pub fn number(self) -> u32
        ensures { result ≡ errno_number self }
    {
        match self {
            Errno::NoEnt => 2,
            Errno::Io => 5,
            Errno::BadF => 9,
            Errno::Again => 11,
            Errno::NoMem => 12,
            Errno::Busy => 16,
            Errno::Inval => 22,
            Errno::NoSpc => 28,
            Errno::ProtoNoSupport => 93,
            Errno::OpNotSupp => 95,
        }
    }

    /// Its symbol, as reports print it.
    pub fn name(self) -> &'static str
        ensures { result.now ≡ errno_name self }
    {
        match self {
            Errno::NoEnt => "ENOENT",
            Errno::Io => "EIO",
            Errno::BadF => "EBADF",
            Errno::Again => "EAGAIN",
            Errno::NoMem => "ENOMEM",
            Errno::Busy => "EBUSY",
            Errno::Inval => "EINVAL",
            Errno::NoSpc => "ENOSPC",
            Errno::ProtoNoSupport => "EPROTONOSUPPORT",
            Errno::OpNotSupp => "EOPNOTSUPP",
        }
    }
}

#[cfg(test)]
mod tests {
    use super::*;
    use std::test::Fail;

    #[test]
    fn errnos_have_the_numbers_of_linux(rt: HostRuntime) -> Result<(), Fail> {
        let rows = [
            (Errno::NoEnt, 2, "ENOENT"),
            (Errno::Io, 5, "EIO"),
            (Errno::BadF, 9, "EBADF"),
            (Errno::Again, 11, "EAGAIN"),
            (Errno::NoMem, 12, "ENOMEM"),
            (Errno::Busy, 16, "EBUSY"),
            (Errno::Inval, 22, "EINVAL"),
            (Errno::NoSpc, 28, "ENOSPC"),
            (Errno::ProtoNoSupport, 93, "EPROTONOSUPPORT"),
            (Errno::OpNotSupp, 95, "EOPNOTSUPP"),
        ];
        for (errno, number, name) in rows.iter() {
            assert_eq!(rt; errno.number(), *number);
            assert_eq!(rt; errno.name(), *name);
        }
        Ok(())
    }
}
