ghost use Rattle.std.specs.Prelude.{List};
ghost use Rattle.qm_model.specs.declared.game.Problem.{Problem};
ghost use Rattle.qm_model.specs.declared.range.Range.{Range};
ghost use Rattle.qm_model.specs.Goals.{Goal};
ghost use Rattle.qm_search.specs.JudgeSteps.{IsBound, IsKnownPoint};
ghost use Rattle.qm_search.specs.PartSteps.{IsStart};

use qm_frac::Frac;
use qm_model::Range;
use qm_relax::BestPoint;

/// The whole number that is nearest to the fraction, or the one below it where that needs too many digits.
fn nearest(value: Frac) -> i128 {
    let half = Frac::of(1, 2).unwrap_or(Frac::whole(0));
    match value.add(half) {
        Ok(above) => above.floor(),
        Err(_) => value.floor(),
    }
}

/// The value of the range that is nearest to this number.
pub fn nearest_in(range: Range, near: i128) -> i64
    ensures { IsStart range result }
{
    if range.high <= range.low || near <= range.low as i128 {
        return range.low;
    }
    if near >= range.high as i128 {
        return range.high;
    }
    near as i64
}

/// The value of the range where a search for the best one begins: that of the point at this depth, where one is known.
pub fn likeliest(range: Range, point: &Option<BestPoint>, depth: usize) -> i64
    ensures { IsStart range result }
{
    match point {
        None => nearest_in(range, range.low as i128),
        Some(best) => match best.point.as_slice().get(depth) {
            None => nearest_in(range, range.low as i128),
            Some(value) => nearest_in(range, nearest(*value)),
        },
    }
}

/// The value of the range where a search for the worst one begins.
pub fn highest(range: Range) -> i64
    ensures { IsStart range result }
{
    nearest_in(range, range.high as i128)
}

/// The best point of a box, or else the one that was known before.
pub fn latest<'a>(
    best: &'a Option<BestPoint>,
    known: &'a Option<BestPoint>,
) -> &'a Option<BestPoint>
    ensures { (P : Problem) (bx : List Range) (G : Goal) → IsBound P bx G best.now → IsKnownPoint P known.now → IsKnownPoint P result.now }
{
    match best {
        Some(_) => best,
        None => known,
    }
}
