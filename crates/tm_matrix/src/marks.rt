ghost use Rattle.std.specs.Prelude.{◌≡◌, ◌≤◌, All, IfOk, length};
ghost use Rattle.tm_base.specs.declared.limit.LimitKind.TheVariants.{MatrixTypes};
ghost use Rattle.tm_base.specs.Limits.{limit_number};
ghost use Rattle.tm_base.specs.Worlds.{IsTypeOver, tables_of};
ghost use Rattle.tm_layout.specs.Made.{IsMadeFor};
ghost use Rattle.tm_matrix.specs.Known.{IsKnown, grounds};
ghost use Rattle.tm_matrix.specs.Matrix.{AreCells, AreEnds, IsLine, IsMark, IsMatrix, question};

use crate::known::{Known, known_bytes, known_types};
use std::alloc::Global;
use tm_base::{Ask, AskYes, Assume, Ground, List, Memory, World};
use tm_layout::Layouts;

/// What a question without flags comes to.
#[derive(Clone, Copy, PartialEq, Eq, Debug)]
pub enum Mark {
    /// Each value of the source may be taken as one of the target.
    Yes,
    /// Both types are judged, and not each value may be.
    No,
    /// The source or the target isn't judged.
    Refused,
}

/// The marks of one type.
#[derive(Debug, Drop)]
pub struct Line {
    /// That of the question from an array of as many bytes as the type has to the type.
    pub from: Mark,
    /// That of the question from the type to that array.
    pub to: Mark,
    /// Those of the questions from the type to each type of the matrix, in order.
    pub cells: List<Mark>,
}

/// The mark of the question from one type to another.
fn mark_of<J: AskYes>(
    alloc: Global,
    judge: &mut J,
    src: &Known,
    dst: &Known,
) -> Result<Mark, Memory>
    requires source { IsKnown (J.told judge.old) src.now }
    requires target { IsKnown (J.told judge.old) dst.now }
    ensures mark { IfOk result
        (IsMark (J.told judge.old) (question src.now.ground dst.now.ground)) }
    ensures world { J.told judge.new ≡ J.told judge.old }
{
    if !(src.judged && dst.judged) {
        return Ok(Mark::Refused);
    }
    let ask = Ask {
        src: src.ground.copy(alloc)?,
        dst: dst.ground.copy(alloc)?,
        assume: Assume::NOTHING,
    };
    if judge.yes(alloc, &ask)? {
        Ok(Mark::Yes)
    } else {
        Ok(Mark::No)
    }
}

/// The marks of the questions from a type to each of some types.
fn cells<J: AskYes>(
    alloc: Global,
    judge: &mut J,
    src: &Known,
    types: &[Known],
) -> Result<List<Mark>, Memory>
    requires source { IsKnown (J.told judge.old) src.now }
    requires targets { All (IsKnown (J.told judge.old)) types.now }
    ensures cells { IfOk result (AreCells (J.told judge.old) (grounds types.now) src.now.ground) }
    ensures world { J.told judge.new ≡ J.told judge.old }
{
    let mut cells = List::new(alloc);
    for dst in types {
        cells.add(mark_of(alloc, judge, src, dst)?)?;
    }
    Ok(cells)
}

/// The marks of the questions from a type's bytes to the type, and back.
fn ends<J: AskYes>(
    alloc: Global,
    world: &World,
    layouts: &Layouts,
    judge: &mut J,
    known: &Known,
) -> Result<(Mark, Mark), Memory>
    requires told { J.told judge.old ≡ tables_of world.now }
    requires layouts_are { IsMadeFor (tables_of world.now) layouts.now }
    requires known { IsKnown (tables_of world.now) known.now }
    ensures ends { IfOk result (AreEnds (tables_of world.now) known.now.ground) }
    ensures world { J.told judge.new ≡ J.told judge.old }
{
    let bytes = match known_bytes(alloc, world, layouts, &known.ground)? {
        Some(bytes) => bytes,
        None => return Ok((Mark::Refused, Mark::Refused)),
    };
    let from = mark_of(alloc, judge, &bytes, known)?;
    let to = mark_of(alloc, judge, known, &bytes)?;
    Ok((from, to))
}

/// The line of a type, where the matrix has some types.
fn line_of<J: AskYes>(
    alloc: Global,
    world: &World,
    layouts: &Layouts,
    judge: &mut J,
    known: &Known,
    types: &[Known],
) -> Result<Line, Memory>
    requires told { J.told judge.old ≡ tables_of world.now }
    requires layouts_are { IsMadeFor (tables_of world.now) layouts.now }
    requires known { IsKnown (tables_of world.now) known.now }
    requires types { All (IsKnown (tables_of world.now)) types.now }
    ensures line { IfOk result (IsLine (tables_of world.now) (grounds types.now) known.now.ground) }
    ensures world { J.told judge.new ≡ J.told judge.old }
{
    let (from, to) = ends(alloc, world, layouts, judge, known)?;
    let cells = cells(alloc, judge, known, types)?;
    Ok(Line { from, to, cells })
}

/// The lines of all types of a matrix.
fn lines<J: AskYes>(
    alloc: Global,
    world: &World,
    layouts: &Layouts,
    judge: &mut J,
    types: &[Known],
) -> Result<List<Line>, Memory>
    requires told { J.told judge.old ≡ tables_of world.now }
    requires layouts_are { IsMadeFor (tables_of world.now) layouts.now }
    requires types { All (IsKnown (tables_of world.now)) types.now }
    ensures lines { IfOk result (IsMatrix (tables_of world.now) (grounds types.now)) }
    ensures world { J.told judge.new ≡ J.told judge.old }
{
    let mut lines = List::new(alloc);
    for known in types {
        lines.add(line_of(alloc, world, layouts, judge, known, types)?)?;
    }
    Ok(lines)
}

/// The lines of some types of the world, in order: for each type the marks of the questions between it and
/// its bytes, and of those from it to each type. No question has a flag.
///
/// `Memory`: there wasn't enough memory.
pub fn matrix<J: AskYes>(
    alloc: Global,
    world: &World,
    layouts: &Layouts,
    judge: &mut J,
    types: &List<Ground>,
) -> Result<List<Line>, Memory>
    requires told { J.told judge.old ≡ tables_of world.now }
    requires layouts_are { IsMadeFor (tables_of world.now) layouts.now }
    requires few { length types.now ≤ limit_number MatrixTypes }
    requires types_are { All (IsTypeOver (tables_of world.now)) types.now }
    ensures matrix { IfOk result (IsMatrix (tables_of world.now) types.now) }
    ensures world { J.told judge.new ≡ J.told judge.old }
{
    let known = known_types(alloc, world, layouts, types.as_slice())?;
    lines(alloc, world, layouts, judge, known.as_slice())
}
