ghost use Rattle.std.specs.Prelude.{◌≡◌, ◌<◌, ◌≤◌, length, IfOk};

use super::*;
use bitflags::Flags;
use std::alloc::{AllocError, Global};
use std::test::Fail;
use uv_num::{Bytes, NONE};

/// The protection domain of the regions here.
const DOMAIN: u32 = 1;

/// An action of a client itself, through no window.
fn action(
    alloc: Global,
    kind: Access,
    offset: u64,
    count: u32,
    bytes: &[u8],
) -> Result<Action, AllocError>
    ensures count { IfOk result (λ a. a.length ≡ count) }
    ensures bytes { IfOk result (λ a. a.bytes.bytes ≡ bytes.now) }
    ensures kind { IfOk result (λ a. a.kind ≡ kind) }
{
    Ok(Action {
        kind,
        offset,
        length: count,
        bytes: Bytes::from_vec(Vec::from_slice(alloc, bytes)?),
        qp: NONE,
        domain: DOMAIN,
        window: None,
    })
}

/// Whether an action was made and read these bytes.
fn has_read(acted: &Acted, wanted: &[u8]) -> bool {
    match acted {
        Acted::Done(bytes) => bytes.as_slice() == wanted,
        Acted::Denied(_) | Acted::NoMemory => false,
    }
}

/// Why an action was denied.
fn denied(acted: &Acted) -> Option<Why> {
    match acted {
        Acted::Denied(why) => Some(*why),
        Acted::Done(_) | Acted::NoMemory => None,
    }
}

#[test]
fn what_a_poke_wrote_a_peek_reads(rt: HostRuntime) -> Result<(), Fail> {
    let mut region = Region::new(rt.alloc(), 2, DOMAIN, 4, Rights::LOCAL_WRITE)?;
    let poke = action(rt.alloc(), Access::LocalWrite, 2, 2, &[0xaa, 0xbb])?;
    let peek = action(rt.alloc(), Access::LocalRead, 0, 4, &[])?;
    let beyond = action(rt.alloc(), Access::LocalWrite, 3, 2, &[1, 2])?;
    assert!(rt; has_read(&region.act(rt.alloc(), &poke), &[]));
    assert!(rt; has_read(&region.act(rt.alloc(), &peek), &[0, 0, 0xaa, 0xbb]));
    assert_eq!(rt; denied(&region.act(rt.alloc(), &beyond)), Some(Why::Bounds));
    assert_eq!(rt; region.made(), 2);
    let journal = region.close();
    let actions = journal.actions.as_slice();
    assert_eq!(rt; journal.length, 4);
    assert_eq!(rt; actions.len(), 2);
    assert_eq!(rt;
        (actions[0].kind, actions[0].offset),
        (Access::LocalWrite, 2)
    );
    assert_eq!(rt;
        (actions[1].kind, actions[1].offset),
        (Access::LocalRead, 0)
    );
    assert_eq!(rt; actions[0].bytes.as_slice(), [0xaa, 0xbb].as_slice());
    assert_eq!(rt; actions[1].bytes.as_slice(), [0, 0, 0xaa, 0xbb].as_slice());
    Ok(())
}

#[test]
fn the_first_test_that_fails_is_told(rt: HostRuntime) -> Result<(), Fail> {
    let cases = [
        (31, Access::LocalWrite, 0, 8, DOMAIN, None),
        (0, Access::LocalRead, 7, 1, DOMAIN, None),
        (31, Access::LocalRead, 7, 2, DOMAIN, Some(Why::Bounds)),
        (
            31,
            Access::LocalRead,
            u64::MAX,
            1,
            DOMAIN,
            Some(Why::Bounds),
        ),
        (
            31,
            Access::LocalRead,
            u64::MAX,
            u32::MAX,
            DOMAIN,
            Some(Why::Bounds),
        ),
        (0, Access::LocalWrite, 8, 1, 9, Some(Why::Bounds)),
        (30, Access::LocalWrite, 0, 1, DOMAIN, Some(Why::Right)),
        (29, Access::RemoteWrite, 0, 1, DOMAIN, Some(Why::Right)),
        (27, Access::RemoteRead, 0, 1, 9, Some(Why::Right)),
        (31, Access::RemoteRead, 0, 1, 9, Some(Why::Domain)),
        (1, Access::LocalWrite, 0, 1, DOMAIN, None),
        (2, Access::RemoteWrite, 0, 1, DOMAIN, None),
        (4, Access::RemoteRead, 0, 1, DOMAIN, None),
    ];
    for (rights, kind, offset, count, domain, wanted) in cases {
        let region = Region::new(rt.alloc(), 2, DOMAIN, 8, Rights(rights))?;
        let mut tried = action(rt.alloc(), kind, offset, count, &[])?;
        tried.domain = domain;
        assert_eq!(rt; region.test(&tried), wanted, "at {offset}");
    }
    Ok(())
}

#[test]
fn a_window_is_tested_in_place_of_the_right(rt: HostRuntime) -> Result<(), Fail> {
    let cases = [
        (6, Access::RemoteWrite, 2, 4, DOMAIN, None),
        (4, Access::RemoteRead, 3, 1, DOMAIN, None),
        (6, Access::RemoteRead, 7, 2, DOMAIN, Some(Why::Bounds)),
        (6, Access::RemoteRead, 1, 2, DOMAIN, Some(Why::Window)),
        (6, Access::RemoteRead, 5, 2, DOMAIN, Some(Why::Window)),
        (4, Access::RemoteWrite, 2, 1, DOMAIN, Some(Why::Window)),
        (2, Access::RemoteRead, 2, 1, DOMAIN, Some(Why::Window)),
        (6, Access::RemoteRead, 2, 1, 9, Some(Why::Window)),
        (31, Access::LocalRead, 2, 1, DOMAIN, Some(Why::Window)),
        (31, Access::LocalWrite, 2, 1, DOMAIN, Some(Why::Window)),
    ];
    for (rights, kind, offset, count, domain, wanted) in cases {
        let region = Region::new(rt.alloc(), 2, DOMAIN, 8, Rights::MW_BIND)?;
        let mut tried = action(rt.alloc(), kind, offset, count, &[])?;
        tried.window = Some(Window {
            object: 7,
            domain,
            offset: 2,
            length: 4,
            rights: Rights(rights),
        });
        assert_eq!(rt; region.test(&tried), wanted, "at {offset}");
    }
    Ok(())
}

#[test]
fn room_that_was_taken_is_enough_for_actions(rt: HostRuntime) -> Result<(), Fail> {
    let mut region = Region::new(rt.alloc(), 2, DOMAIN, 4, Rights::all())?;
    region.reserve(rt.alloc(), 2)?;
    let write = action(rt.alloc(), Access::RemoteWrite, 1, 2, &[3, 4])?;
    let peek = action(rt.alloc(), Access::RemoteRead, 0, 4, &[9, 9, 9, 9])?;
    let mut out = [8u8; 4];
    assert!(rt; region.test(&write).is_none());
    region.act_reserved(write, &mut []);
    assert!(rt; region.test(&peek).is_none());
    region.act_reserved(peek, &mut out);
    assert_eq!(rt; out, [0, 3, 4, 0]);
    let journal = region.close();
    let actions = journal.actions.as_slice();
    assert_eq!(rt; actions.len(), 2);
    assert_eq!(rt; actions[1].bytes.as_slice(), [0, 3, 4, 0].as_slice());
    Ok(())
}

#[test]
fn a_region_is_named_before_anything_is_done_to_it(rt: HostRuntime) -> Result<(), Fail> {
    let mut region = Region::new(rt.alloc(), NONE, NONE, 4, Rights::REMOTE_READ)?;
    region.name(5, 3);
    assert_eq!(rt; region.object(), 5);
    assert_eq!(rt; region.domain(), 3);
    assert_eq!(rt; region.length(), 4);
    assert_eq!(rt; region.rights(), Rights::REMOTE_READ);
    assert_eq!(rt; region.made(), 0);
    Ok(())
}

#[test]
#[tactic(auto, using(crate::proofs::Maps::lent))]
fn regions_are_put_and_taken_by_key(rt: HostRuntime) -> Result<(), Fail> {
    let window = Window {
        object: 7,
        domain: DOMAIN,
        offset: 0,
        length: 4,
        rights: Rights::REMOTE_READ,
    };
    let mut regions = Regions::new();
    regions.put(
        256,
        Region::new(rt.alloc(), 2, DOMAIN, 4, Rights::all())?,
        None,
    );
    regions.put(
        512,
        Region::new(rt.alloc(), 3, DOMAIN, 4, Rights::all())?,
        Some(window),
    );
    assert!(rt; regions.take(257).is_none());
    match regions.take(512) {
        None => assert!(rt; false),
        Some((region, through)) => {
            assert_eq!(rt; region.object(), 3);
            assert_eq!(rt; through, Some(window));
            regions.put(512, region, through);
        }
    }
    assert!(rt; regions.take(512).is_some());
    assert!(rt; regions.take(512).is_none());
    assert!(rt; regions.take(256).is_some());
    Ok(())
}

#[test]
fn rights_are_those_of_linux(rt: HostRuntime) -> Result<(), Fail> {
    let cases = [
        ("LOCAL_WRITE", 1),
        ("REMOTE_WRITE", 2),
        ("REMOTE_READ", 4),
        ("REMOTE_ATOMIC", 8),
        ("MW_BIND", 16),
    ];
    for (name, bit) in cases {
        assert_eq!(rt; Rights::from_name(name), Some(Rights(bit)), "{name}");
    }
    assert_eq!(rt; Rights::all(), Rights(31));
    Ok(())
}

/// Writes a piece for a queue pair, if it may.
#[tactic(auto, using(crate::proofs::Reaching::ready_with_room))]
fn write_piece(
    alloc: Global,
    regions: &mut Regions,
    piece: Piece,
    bytes: &[u8],
) -> Result<bool, AllocError>
    requires some { 0 < piece.length }
    requires whole { length bytes.now ≡ piece.length }
{
    if !regions.allows(Access::RemoteWrite, piece, DOMAIN) {
        return Ok(false);
    }
    let held = action_bytes(alloc, bytes)?;
    regions.reserve(alloc, piece.key, 1)?;
    regions.act(Access::RemoteWrite, piece, held, 17, DOMAIN, &mut []);
    Ok(true)
}

/// Reads a piece for a queue pair after a payload, if it may.
#[tactic(auto, using(crate::proofs::Reaching::ready_with_room))]
fn read_piece(
    alloc: Global,
    regions: &mut Regions,
    piece: Piece,
    payload: &mut Bytes,
) -> Result<bool, AllocError>
    requires some { 0 < piece.length }
    requires room { piece.length ≤ payload.old.spare }
{
    if !regions.allows(Access::LocalRead, piece, DOMAIN) {
        return Ok(false);
    }
    let held = blank_bytes(alloc, piece.length)?;
    regions.reserve(alloc, piece.key, 1)?;
    regions.read(Access::LocalRead, piece, held, 17, DOMAIN, payload);
    Ok(true)
}

#[test]
#[tactic(auto, using(crate::proofs::Maps::lent))]
fn pieces_are_written_and_read_by_key(rt: HostRuntime) -> Result<(), Fail> {
    let mut regions = Regions::new();
    regions.put(
        256,
        Region::new(rt.alloc(), 2, DOMAIN, 8, Rights::all())?,
        None,
    );
    let mut payload = Bytes::with_room(rt.alloc(), 4)?;
    let there = Piece {
        key: 256,
        offset: 2,
        length: 3,
    };
    let front = Piece {
        key: 256,
        offset: 0,
        length: 4,
    };
    regions.reserve_all(rt.alloc(), &[there, front], 2)?;
    assert!(rt; write_piece(rt.alloc(), &mut regions, there, &[7, 8, 9])?);
    assert!(rt; read_piece(rt.alloc(), &mut regions, front, &mut payload)?);
    assert_eq!(rt; payload.as_slice(), [0, 0, 7, 8].as_slice());
    match regions.take(256) {
        None => assert!(rt; false),
        Some((region, _)) => assert_eq!(rt; region.made(), 2),
    }
    Ok(())
}

#[test]
#[tactic(auto, using(crate::proofs::Maps::lent))]
fn a_piece_is_allowed_in_unbounded_numbers(rt: HostRuntime) -> Result<(), Fail> {
    let mut regions = Regions::new();
    regions.put(
        256,
        Region::new(rt.alloc(), 2, DOMAIN, 8, Rights::LOCAL_WRITE)?,
        None,
    );
    let cases = [
        (256, 8, 0, Access::LocalWrite, DOMAIN, true),
        (256, 4, 4, Access::LocalWrite, DOMAIN, true),
        (256, 4, 5, Access::LocalWrite, DOMAIN, false),
        (256, 9, 0, Access::LocalWrite, DOMAIN, false),
        (256, 1 << 64, 1, Access::LocalWrite, DOMAIN, false),
        (256, u128::MAX, 4, Access::LocalWrite, DOMAIN, false),
        (256, 4, 4, Access::RemoteWrite, DOMAIN, false),
        (256, 4, 4, Access::LocalWrite, 9, false),
        (257, 4, 4, Access::LocalRead, DOMAIN, false),
    ];
    for (key, offset, length, kind, domain, wanted) in cases {
        let piece = Piece {
            key,
            offset,
            length,
        };
        assert_eq!(rt; regions.allows(kind, piece, domain), wanted, "at {offset}");
    }
    Ok(())
}

#[test]
fn a_denial_has_a_word(rt: HostRuntime) {
    let cases = [
        (Why::Bounds, "bounds"),
        (Why::Right, "right"),
        (Why::Domain, "domain"),
        (Why::Window, "window"),
    ];
    for (why, name) in cases {
        assert_eq!(rt; why.name(), name);
    }
}
