//! When taking ends.
ghost use Rattle.std.specs.Prelude.{◌≡◌, true, Decides};
ghost use Rattle.ordered.specs.Ascending.{ascending};
ghost use Rattle.stages.specs.Lines.{earlier};
ghost use Rattle.stages.specs.Cutting.{neighbouring};
ghost use Rattle.ranking.specs.Totals.{different, totals};
ghost use Rattle.ranking.specs.Costing.{Ends, over};

use stages::Line;

/// How many different neighbouring totals these lines hold: in lines by ascending total, how many different totals.
pub fn different_totals(lines: &[Line]) -> usize
    ensures is { result ≡ neighbouring lines.now }
    ensures means { ascending earlier lines.now ≡ true → result ≡ different (totals lines.now) }
{
    let Some((_, later)) = lines.split_first() else {
        return 0;
    };
    lines.iter().zip(later).fold(1, |count, (line, next)| {
        count + usize::from(line.total != next.total)
    })
}

/// Whether taking ends before an offer of this floor, where these lines are gathered:
/// they hold as many different totals as wanted, and the floor exceeds them all.
pub fn taking_ends(lines: &[Line], wanted: usize, floor: u64) -> bool
    ensures is { result ≡ over wanted floor lines.now }
    ensures means { ascending earlier lines.now ≡ true → Decides result (Ends wanted (totals lines.now) floor) }
{
    wanted <= different_totals(lines) && lines.iter().all(|line| line.total < floor)
}
