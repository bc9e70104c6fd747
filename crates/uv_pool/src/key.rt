//! The keys of regions and windows.

ghost use Rattle.std.specs.Prelude.{◌≡◌, ◌<◌, ◌-◌, ◌+◌, IsTrue};
ghost use Rattle.uv_num.specs.declared.limits.TheConstants.{CELLS};
ghost use Rattle.uv_pool.specs.Keys.{has_keys, first_pool_index, is_pool_index, key_number, key_parts, named};

use uv_num::{CELLS, FIRST_MR_INDEX, FIRST_MW_INDEX, KEY_VARIANTS, Kind};

/// The key of the region or window in a cell, at a generation: its pool index, and behind it 8 bits of the generation
/// (`rxe_mr.c`, `rxe_get_next_key`, whose 8 bits are random; that they are those of the generation is this project's
/// own). A region's local and remote key are the same.
pub fn key_of(kind: Kind, index: u32, generation: u32) -> u32
    requires kind { IsTrue (has_keys kind) }
    requires cell { index < CELLS }
    ensures { result ≡ key_number kind index generation }
{
    (first_pool_index(kind) + index) * KEY_VARIANTS + generation % KEY_VARIANTS
}

/// The kind, the cell and the variant that a key names. None exactly where its upper bits are no pool index of a region
/// or a window (`rxe_mr.c`, `lookup_mr`; `rxe_mw.c`, `rxe_lookup_mw`). The variant is the key's low 8 bits.
pub fn of_key(key: u32) -> Option<(Kind, u32, u32)>
    ensures { result ≡ key_parts key }
{
    named(key / KEY_VARIANTS, key % KEY_VARIANTS)
}

fn named(pool_index: u32, variant: u32) -> Option<(Kind, u32, u32)>
    ensures { result ≡ named pool_index variant }
{
    if is_pool_index(Kind::Mr, pool_index) {
        Some((Kind::Mr, pool_index - FIRST_MR_INDEX, variant))
    } else if is_pool_index(Kind::Mw, pool_index) {
        Some((Kind::Mw, pool_index - FIRST_MW_INDEX, variant))
    } else {
        None
    }
}

fn is_pool_index(kind: Kind, pool_index: u32) -> bool
    ensures { result ≡ is_pool_index kind pool_index }
{
    let first = first_pool_index(kind);
    first <= pool_index && pool_index < first + CELLS as u32
}

fn first_pool_index(kind: Kind) -> u32
    ensures first { result ≡ first_pool_index kind }
    ensures within { result < FIRST_MW_INDEX + 1 }
{
    match kind {
        Kind::Pd | Kind::Channel | Kind::Cq | Kind::Qp | Kind::Srq | Kind::Ah => 0,
        Kind::Mr => FIRST_MR_INDEX,
        Kind::Mw => FIRST_MW_INDEX,
    }
}
