ghost use Rattle.stage_path.specs.Path.{StraightMeansRow, BentMeansRow};

use batch_ops::Operator;
use read_row::TreatRead;

/// A law: a path without an operator in its middle means its stages, one after another.
pub fn straight_path_is_row<S: TreatRead, B: Operator>()
    ensures { StraightMeansRow S.kind B.meaning.stands }
{}

/// A law: a path around an operator that means a stage means all its stages, one after another.
pub fn bent_path_is_row<S: TreatRead, W: Operator>()
    ensures { BentMeansRow S.kind W.meaning.stands }
{}
