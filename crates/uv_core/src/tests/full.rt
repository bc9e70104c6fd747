//! Files that are full, and all files at once.

use super::plays::{Saw, Turn, does, new_core};
use super::rows::{killed, made, refused};
use crate::Torn;
use std::test::Fail;
use uv_num::{Errno, Kind, Request};

/// What the object with this id is asked for by: 64 each of four kinds.
fn request_of(object: u32) -> Request {
    match object / 64 {
        0 => Request::AllocPd,
        1 => Request::CreateChannel,
        2 => Request::CreateCq {
            depth: 8,
            channel: None,
        },
        _ => Request::AllocMw { pd: 0 },
    }
}

fn kind_of(object: u32) -> Kind {
    match object / 64 {
        0 => Kind::Pd,
        1 => Kind::Channel,
        2 => Kind::Cq,
        _ => Kind::Mw,
    }
}

#[test]
fn a_full_file_is_torn_down(rt: HostRuntime) -> Result<(), Fail> {
    let mut core = new_core(rt.alloc())?;
    let open = Turn::Open {
        client: 8,
        file: 15,
        device: 1,
    };
    assert_eq!(rt; does(&mut core, rt.alloc(), open), Saw::Done);
    for object in 0..256 {
        let call = Turn::Call {
            client: 8,
            file: 15,
            request: request_of(object),
        };
        assert_eq!(rt;
            does(&mut core, rt.alloc(), call),
            made(object, object % 64, 0)
        );
    }
    let more = Turn::Call {
        client: 8,
        file: 15,
        request: Request::CreateSrq { pd: 0, depth: 4 },
    };
    assert_eq!(rt; does(&mut core, rt.alloc(), more), refused(Errno::NoSpc));
    let close = Turn::Close { by: 10, file: 15 };
    assert_eq!(rt; does(&mut core, rt.alloc(), close), Saw::Torn(Torn::Began));
    let sweep = Turn::Sweep { by: 10, file: 15 };
    for gone in 0..256 {
        let object = 255 - gone;
        assert_eq!(rt;
            does(&mut core, rt.alloc(), sweep),
            killed(object, kind_of(object), object)
        );
    }
    assert_eq!(rt; does(&mut core, rt.alloc(), sweep), Saw::Done);
    Ok(())
}

#[test]
fn all_files_are_closed_in_turns(rt: HostRuntime) -> Result<(), Fail> {
    let mut core = new_core(rt.alloc())?;
    for file in 0..16 {
        let client = file % 8 + 1;
        let open = Turn::Open {
            client,
            file,
            device: file % 2,
        };
        assert_eq!(rt; does(&mut core, rt.alloc(), open), Saw::Done);
        let call = Turn::Call {
            client,
            file,
            request: Request::AllocPd,
        };
        assert_eq!(rt; does(&mut core, rt.alloc(), call), made(0, file, 0));
    }
    for first in [8, 0] {
        for by in 1..9 {
            let close = Turn::Close {
                by,
                file: first + by - 1,
            };
            assert_eq!(rt; does(&mut core, rt.alloc(), close), Saw::Torn(Torn::Began));
            let other = Turn::Close {
                by,
                file: 7 - (by - 1),
            };
            assert_eq!(rt; does(&mut core, rt.alloc(), other), Saw::Barred);
        }
        for by in 1..9 {
            let file = first + by - 1;
            let sweep = Turn::Sweep { by, file };
            assert_eq!(rt;
                does(&mut core, rt.alloc(), sweep),
                killed(file, Kind::Pd, 0)
            );
        }
        for by in 1..9 {
            let file = first + by - 1;
            let sweep = Turn::Sweep { by, file };
            assert_eq!(rt; does(&mut core, rt.alloc(), sweep), Saw::Done);
            let call = Turn::Call {
                client: by,
                file,
                request: Request::AllocPd,
            };
            assert_eq!(rt;
                does(&mut core, rt.alloc(), call),
                Saw::Refused(Errno::BadF)
            );
        }
    }
    Ok(())
}
