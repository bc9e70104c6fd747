//! A script that was read.

ghost use Rattle.std.specs.Prelude.{◌≡◌, ◌<◌, Some, length, slice_get};

use crate::Line;
use std::marker::Model;
use uv_num::List;

/// A script, which contracts see as the list of its lines that say something, in their order.
#[derive(Debug, Drop)]
pub struct Script {
    lines: List<Line>,
}

impl Model for Script {
    ghost use Rattle.std.specs.Prelude.{List};
    ghost use Rattle.uv_script.specs.declared.form.Line.{Line};
    ghost use Rattle.uv_script.specs.Ranges.{AreLines};

    ghost Value = { List Line };

    ghost view = { λ s. s.lines };

    ghost invariant = { λ s. AreLines s.lines };
}

impl Script {
    ghost use Rattle.std.specs.Prelude.{◌≤◌};
    ghost use Rattle.uv_num.specs.declared.limits.TheConstants.{SCRIPT_LINES};
    ghost use Rattle.uv_script.specs.Ranges.{AreLines, IsInRange};

    /// The script of these lines.
    pub(crate) fn of(lines: List<Line>) -> Script
        requires { AreLines lines }
        ensures { result ≡ lines }
    {
        Script { lines }
    }

    /// How many lines say something.
    pub fn len(&self) -> u32
        ensures lines { result ≡ length self.now }
        ensures limit { result ≤ SCRIPT_LINES }
    {
        self.lines.len() as u32
    }

    /// The line at a place among those that say something, from 0.
    pub fn line(&self, place: u32) -> &Line
        requires { place < length self.now }
        ensures line { slice_get self.now place ≡ Some result.now }
        ensures ranges { IsInRange result.now }
    {
        &self.lines.as_slice()[place as usize]
    }
}
