//! Which regions are lent to a packet action, and how they come back.

ghost use Rattle.std.specs.Prelude.{◌≡◌, ◌<◌, ◌≤◌, length, None, slice_get};
ghost use Rattle.std.specs.FinMap as map;
ghost use Rattle.uv_num.specs.declared.limits.TheConstants.{LENT_REGIONS};
ghost use Rattle.uv_world.specs.Celled.{value_of_cell};
ghost use Rattle.uv_world.specs.Lending.{AreDifferent, Lending, bound_home, bound_reach, home_of, lend_all, lend_one, nothing_lent, reach_of, region_reach, return_all, return_one, value_by, window_home, window_of, window_reach};

use crate::cells::{Cell, fill, take};
use crate::content::{Bound, Windowed};
use crate::contents::region_id;
use uv_num::{KEY_VARIANTS, Kind, List};
use uv_pool::of_key;
use uv_region::{Region, Regions, Rights, Window};

/// Where a key leads: the cell of a region, and the window on the way.
#[derive(Clone, Copy, Debug, PartialEq)]
pub(crate) struct Reach {
    pub(crate) region: u32,
    pub(crate) window: Option<Window>,
}

/// A bound window, as an action comes through it.
fn window_of(window: Windowed, bound: Bound) -> Window
    ensures { result ≡ window_of window bound }
{
    Window {
        object: window.object,
        domain: window.domain,
        offset: bound.offset,
        length: bound.length,
        rights: Rights((bound.access % 256) as u8),
    }
}

/// The region that is reached by its own key.
fn region_reach(regions: &List<Cell<Region>>, at: u32, variant: u32) -> Option<Reach>
    ensures { result ≡ region_reach at (value_by variant (slice_get regions.now at)) }
{
    match regions.get(at as usize) {
        None => None,
        Some(cell) => {
            if cell.generation % KEY_VARIANTS == variant && cell.value.is_some() {
                Some(Reach {
                    region: at,
                    window: None,
                })
            } else {
                None
            }
        }
    }
}

/// The region that a window is bound to.
fn bound_reach(regions: &List<Cell<Region>>, window: Windowed) -> Option<Reach>
    ensures { result ≡ bound_reach regions.now window window.bound }
{
    match window.bound {
        None => None,
        Some(bound) => {
            if region_id(regions, bound.region) == bound.object {
                Some(Reach {
                    region: bound.region,
                    window: Some(window_of(window, bound)),
                })
            } else {
                None
            }
        }
    }
}

/// The region that is reached through a window.
fn window_reach(
    regions: &List<Cell<Region>>,
    windows: &List<Cell<Windowed>>,
    at: u32,
    variant: u32,
) -> Option<Reach>
    ensures { result ≡ window_reach regions.now (value_by variant (slice_get windows.now at)) }
{
    match windows.get(at as usize) {
        None => None,
        Some(cell) => {
            if cell.generation % KEY_VARIANTS == variant {
                match cell.value {
                    None => None,
                    Some(window) => bound_reach(regions, window),
                }
            } else {
                None
            }
        }
    }
}

/// Where a key leads, if all on the way is live.
fn reach_of(regions: &List<Cell<Region>>, windows: &List<Cell<Windowed>>, key: u32) -> Option<Reach>
    ensures { result ≡ reach_of regions.now windows.now key }
{
    match of_key(key) {
        None => None,
        Some((Kind::Mr, at, variant)) => region_reach(regions, at, variant),
        Some((Kind::Mw, at, variant)) => window_reach(regions, windows, at, variant),
        Some((Kind::Pd | Kind::Channel | Kind::Cq | Kind::Qp | Kind::Srq | Kind::Ah, _, _)) => None,
    }
}

fn lend_one(
    regions: &mut List<Cell<Region>>,
    windows: &List<Cell<Windowed>>,
    lent: &mut Regions,
    key: u32,
)
    requires room { map.len lent.old < LENT_REGIONS }
    requires apart { map.get lent.old key ≡ None }
    ensures regions { regions.new ≡ (lend_one windows.now (record { regions = regions.old; lent = lent.old }) key).regions }
    ensures lent { lent.new ≡ (lend_one windows.now (record { regions = regions.old; lent = lent.old }) key).lent }
{
    if let Some(reach) = reach_of(regions, windows, key) {
        if let Some(region) = take(regions, reach.region) {
            lent.put(key, region, reach.window);
        }
    }
}

/// Lends the regions that these keys lead to.
pub(crate) fn lend(
    regions: &mut List<Cell<Region>>,
    windows: &List<Cell<Windowed>>,
    keys: &[u32],
) -> Regions
    requires few { length keys.now ≤ LENT_REGIONS }
    requires different { AreDifferent keys.now }
    ensures regions { regions.new ≡ (lend_all windows.now (nothing_lent regions.old) keys.now).regions }
    ensures lent { result ≡ (lend_all windows.now (nothing_lent regions.old) keys.now).lent }
{
    let mut lent = Regions::new();
    for key in keys {
        lend_one(regions, windows, &mut lent, *key);
    }
    lent
}

/// The cell of the region that the window in a cell is bound to.
fn window_home(windows: &List<Cell<Windowed>>, at: u32) -> Option<u32>
    ensures { result ≡ window_home (value_of_cell windows.now at) }
{
    match windows.get(at as usize) {
        None => None,
        Some(cell) => match cell.value {
            None => None,
            Some(window) => match window.bound {
                None => None,
                Some(bound) => Some(bound.region),
            },
        },
    }
}

/// The cell that the region of a key was lent from.
fn home_of(windows: &List<Cell<Windowed>>, key: u32) -> Option<u32>
    ensures { result ≡ home_of windows.now key }
{
    match of_key(key) {
        None => None,
        Some((Kind::Mr, at, _)) => Some(at),
        Some((Kind::Mw, at, _)) => window_home(windows, at),
        Some((Kind::Pd | Kind::Channel | Kind::Cq | Kind::Qp | Kind::Srq | Kind::Ah, _, _)) => None,
    }
}

fn return_one(
    regions: &mut List<Cell<Region>>,
    windows: &List<Cell<Windowed>>,
    lent: &mut Regions,
    key: u32,
)
    ensures regions { regions.new ≡ (return_one windows.now (record { regions = regions.old; lent = lent.old }) key).regions }
    ensures lent { lent.new ≡ (return_one windows.now (record { regions = regions.old; lent = lent.old }) key).lent }
{
    if let Some(at) = home_of(windows, key) {
        if let Some((region, _)) = lent.take(key) {
            fill(regions, at, region);
        }
    }
}

/// Puts back what was lent by these keys, the last first.
pub(crate) fn give_back(
    regions: &mut List<Cell<Region>>,
    windows: &List<Cell<Windowed>>,
    lent: &mut Regions,
    keys: &[u32],
)
    ensures regions { regions.new ≡ (return_all windows.now (record { regions = regions.old; lent = lent.old }) keys.now).regions }
    ensures lent { lent.new ≡ (return_all windows.now (record { regions = regions.old; lent = lent.old }) keys.now).lent }
{
    for turn in 0..keys.len() {
        return_one(regions, windows, lent, keys[keys.len() - 1 - turn]);
    }
}
