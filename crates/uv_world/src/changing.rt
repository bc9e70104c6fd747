//! Acts on what a cell holds.

ghost use Rattle.std.specs.Prelude.{◌≡◌, Some, length, true};
ghost use Rattle.uv_num.specs.Ranges.{attrs_in_range};
ghost use Rattle.uv_world.specs.Celled.{cells_changed};
ghost use Rattle.uv_world.specs.Moving.{pair_modified, window_bound};
ghost use Rattle.uv_world.specs.Owing.{full_cells};

use crate::cells::Cell;
use crate::content::{Bound, Connected, Windowed};
use uv_num::{List, QpAttrs, QpState};

/// Takes the pair in a cell to another state, if one is there (`ib_modify_qp`, `core/verbs.c`).
pub(crate) fn modify(pairs: &mut List<Cell<Connected>>, at: u32, to: QpState, attrs: QpAttrs)
    requires { attrs_in_range attrs ≡ true }
    ensures cells { pairs.new ≡ cells_changed pairs.old at (pair_modified (Some to) attrs) }
    ensures count { full_cells pairs.new ≡ full_cells pairs.old }
    ensures places { length pairs.new ≡ length pairs.old }
{
    let at = at as usize;
    if at < pairs.len() {
        let cell = pairs.item_mut(at);
        if let Some(pair) = &mut cell.value {
            let _ = pair.qp.modify(to, &attrs);
        }
    }
}

/// Binds the window in a cell to a range, or to nothing, if one is there (`rxe_mw.c`, `rxe_do_bind_mw`).
pub(crate) fn bind(windows: &mut List<Cell<Windowed>>, at: u32, bound: Option<Bound>)
    ensures cells { windows.new ≡ cells_changed windows.old at (window_bound bound) }
{
    let at = at as usize;
    if at < windows.len() {
        let cell = windows.item_mut(at);
        if let Some(window) = &mut cell.value {
            window.bound = bound;
        }
    }
}
