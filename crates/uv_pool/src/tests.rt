//! Pools of plain deeds, plain deeds themselves, and keys.

use crate::plain::{PlainDeed, full_pool, full_pools, full_pools_with_lives};
use crate::{
    Deed, Life, Pool, key_is_read_back, key_of, key_of_what_it_names, new_is_planted, of_key,
    planted_is_buried,
};
use std::alloc::{AllocError, Global};
use std::test::Fail;
use uv_num::{Identity, Ids, KINDS, Kind, List, MOST_GENERATION, Request};

/// Draws a deed and loses it. Gives its index.
fn lost(pool: &mut Pool<PlainDeed>) -> Option<u32> {
    let deed = pool.draw()?;
    Some(deed.index())
}

/// Draws a deed, buries its cell as an owner does, and brings it home. Gives its index.
fn buried(pool: &mut Pool<PlainDeed>) -> Option<u32> {
    let mut deed = pool.draw()?;
    let index = deed.index();
    deed.bury();
    pool.home(deed);
    Some(index)
}

/// Draws a deed, buries its cell at the last generation, and brings it home. Gives its index.
fn spent(pool: &mut Pool<PlainDeed>) -> Option<u32> {
    let mut deed = pool.draw()?;
    let index = deed.index();
    deed.generation = MOST_GENERATION;
    deed.bury();
    pool.home(deed);
    Some(index)
}

/// All deeds, unless one is out.
fn all_back(alloc: Global, pool: Pool<PlainDeed>) -> Result<Option<List<PlainDeed>>, AllocError> {
    if !pool.has_all() {
        return Ok(None);
    }
    Ok(Some(pool.deeds(alloc)?))
}

#[test]
fn deeds_are_drawn_one_behind_the_other(rt: HostRuntime) -> Result<(), Fail> {
    let mut pool = full_pool(rt.alloc(), Kind::Mr, false)?;
    assert_eq!(rt; pool.kind(), Kind::Mr);
    assert!(rt; !pool.is_out(0));
    assert_eq!(rt; lost(&mut pool), Some(0));
    assert!(rt; pool.is_out(0));
    assert_eq!(rt; buried(&mut pool), Some(1));
    assert!(rt; !pool.is_out(1));
    assert_eq!(rt; lost(&mut pool), Some(2));
    assert!(rt; !pool.is_out(64));
    Ok(())
}

#[test]
fn the_choice_goes_round(rt: HostRuntime) -> Result<(), Fail> {
    let mut pool = full_pool(rt.alloc(), Kind::Pd, false)?;
    assert_eq!(rt; buried(&mut pool), Some(0));
    assert_eq!(rt; lost(&mut pool), Some(1));
    for index in 2..64 {
        assert_eq!(rt; buried(&mut pool), Some(index));
    }
    assert_eq!(rt; buried(&mut pool), Some(0));
    assert_eq!(rt; buried(&mut pool), Some(2));
    Ok(())
}

#[test]
fn a_spent_deed_is_never_drawn(rt: HostRuntime) -> Result<(), Fail> {
    let mut pool = full_pool(rt.alloc(), Kind::Qp, false)?;
    assert_eq!(rt; spent(&mut pool), Some(0));
    for index in 1..64 {
        assert_eq!(rt; lost(&mut pool), Some(index));
    }
    assert_eq!(rt; lost(&mut pool), None);
    assert!(rt; !pool.is_out(0));
    assert!(rt; pool.is_out(63));
    Ok(())
}

#[test]
fn all_deeds_come_back_in_the_order_of_their_cells(rt: HostRuntime) -> Result<(), Fail> {
    let mut pool = full_pool(rt.alloc(), Kind::Mw, false)?;
    assert_eq!(rt; spent(&mut pool), Some(0));
    assert_eq!(rt; buried(&mut pool), Some(1));
    let Some(deeds) = all_back(rt.alloc(), pool)? else {
        return Err(Fail::from("a deed is out"));
    };
    assert_eq!(rt; deeds.len(), 64);
    for (index, deed) in deeds.as_slice().iter().enumerate() {
        assert_eq!(rt; deed.index() as usize, index);
        assert_eq!(rt; deed.kind(), Kind::Mw);
        assert_eq!(rt; deed.spent(), index == 0);
        assert_eq!(rt; deed.generation() == 1, index == 1);
    }
    Ok(())
}

#[test]
fn a_full_pool_gives_back_what_it_was_given(rt: HostRuntime) -> Result<(), Fail> {
    let deeds = full_pool(rt.alloc(), Kind::Cq, false)?.deeds(rt.alloc())?;
    assert_eq!(rt; deeds.len(), 64);
    Ok(())
}

#[test]
fn nothing_is_given_back_while_a_deed_is_out(rt: HostRuntime) -> Result<(), Fail> {
    let mut pool = full_pool(rt.alloc(), Kind::Mw, false)?;
    assert_eq!(rt; lost(&mut pool), Some(0));
    assert!(rt; all_back(rt.alloc(), pool)?.is_none());
    Ok(())
}

#[test]
fn a_deed_is_drawn_as_it_came_home(rt: HostRuntime) -> Result<(), Fail> {
    let mut pool = full_pool(rt.alloc(), Kind::Mr, false)?;
    let Some(mut deed) = pool.draw() else {
        return Err(Fail::from("no deed is home"));
    };
    deed.plant(region())?;
    pool.home(deed);
    for index in 1..64 {
        assert_eq!(rt; lost(&mut pool), Some(index));
    }
    let Some(deed) = pool.draw() else {
        return Err(Fail::from("no deed is home"));
    };
    assert_eq!(rt; deed.identity, Some(region()));
    Ok(())
}

/// A region, as it was planted.
fn region() -> Identity {
    Identity {
        id: 5,
        kind: Kind::Mr,
        request: Request::RegMr {
            pd: 0,
            length: 4_096,
            access: 0,
        },
        uses: Ids::one(4),
    }
}

#[test]
fn a_plain_deed_knows_what_it_is_planted_for(rt: HostRuntime) -> Result<(), Fail> {
    let mut deed = PlainDeed::new(Kind::Mr, 7, None);
    assert!(rt; !deed.is_planted_for(region(), 7, 0));
    deed.plant(region())?;
    assert!(rt; deed.is_planted_for(region(), 7, 0));
    assert!(rt; !deed.is_planted_for(region(), 8, 0));
    assert!(rt; !deed.is_planted_for(region(), 7, 1));
    assert!(rt; !deed.is_buried(Kind::Mr, 7, 0));
    deed.bury();
    assert!(rt; deed.is_buried(Kind::Mr, 7, 0));
    assert!(rt; !deed.is_buried(Kind::Mw, 7, 0));
    assert_eq!(rt; deed.generation(), 1);
    deed.generation = MOST_GENERATION;
    deed.bury();
    assert!(rt; deed.spent());
    assert!(rt; deed.is_buried(Kind::Mr, 7, MOST_GENERATION));
    Ok(())
}

#[test]
fn a_plain_deed_keeps_the_lives_of_its_cell(rt: HostRuntime) -> Result<(), Fail> {
    let mut deed = PlainDeed::new(Kind::Mr, 7, Some(List::new(rt.alloc())));
    for _turn in 0..2 {
        deed.plant(region())?;
        deed.bury();
    }
    let Some(lives) = &deed.lives else {
        return Err(Fail::from("no lives are kept"));
    };
    let one = Life {
        generation: 0,
        identity: region(),
    };
    let other = Life {
        generation: 1,
        ..one
    };
    assert_eq!(rt; lives.as_slice(), [one, other].as_slice());
    assert!(rt; !deed.is_buried(Kind::Mr, 7, 1));
    Ok(())
}

#[test]
fn full_pools_are_of_all_kinds(rt: HostRuntime) -> Result<(), Fail> {
    let pools = full_pools(rt.alloc())?;
    assert_eq!(rt; pools.len(), KINDS);
    for (place, pool) in pools.as_slice().iter().enumerate() {
        assert_eq!(rt; pool.kind().place(), place);
        assert!(rt; pool.has_all());
    }
    let mut pools = full_pools_with_lives(rt.alloc())?;
    let Some(deed) = pools.item_mut(3).draw() else {
        return Err(Fail::from("no deed is home"));
    };
    assert!(rt; deed.lives.is_some());
    Ok(())
}

#[test]
fn keys_have_the_numbers_of_the_table(rt: HostRuntime) -> Result<(), Fail> {
    assert_eq!(rt; key_of(Kind::Mr, 0, 0), 256);
    assert_eq!(rt; key_of(Kind::Mr, 0, 256), 256);
    assert_eq!(rt; key_of(Kind::Mr, 0, 255), 511);
    assert_eq!(rt; key_of(Kind::Mr, 63, 1), 16_385);
    assert_eq!(rt; key_of(Kind::Mw, 0, 0), 1_048_832);
    assert_eq!(rt; key_of(Kind::Mw, 63, 1_073_741_823), 1_065_215);
    Ok(())
}

#[test]
fn keys_name_what_the_table_says(rt: HostRuntime) -> Result<(), Fail> {
    key_is_read_back();
    key_of_what_it_names();
    new_is_planted();
    planted_is_buried();
    let rows = [
        (0, None),
        (255, None),
        (256, Some((Kind::Mr, 0, 0))),
        (511, Some((Kind::Mr, 0, 255))),
        (16_639, Some((Kind::Mr, 63, 255))),
        (16_640, None),
        (1_048_831, None),
        (1_048_832, Some((Kind::Mw, 0, 0))),
        (1_065_215, Some((Kind::Mw, 63, 255))),
        (1_065_216, None),
        (4_294_967_295, None),
    ];
    for (key, parts) in rows.iter() {
        assert_eq!(rt; of_key(*key), *parts);
    }
    Ok(())
}
