//! Where a cut falls.
ghost use Rattle.std.specs.Prelude.{◌≡◌, ◌≤◌, length};
ghost use Rattle.stages.specs.Cutting.{keeps};

use crate::line::Line;

// How many of these lines a cut to `wanted` different neighbouring totals keeps.
pub(crate) fn leading(lines: &[Line], wanted: usize) -> usize
    ensures count { result ≡ keeps wanted lines.now }
    ensures within { result ≤ length lines.now }
{
    lines
        .chunk_by(|line, next| line.total == next.total)
        .take(wanted)
        .map(|same| same.len())
        .sum()
}
