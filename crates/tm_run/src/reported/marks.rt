ghost use Rattle.std.specs.Prelude.{◌≡◌, ◌≤◌, IfOk, length};
ghost use Rattle.std.specs.List.{flat_map, list_all};
ghost use Rattle.tm_base.specs.Worlds.{tables_of};
ghost use Rattle.tm_run.specs.Marks.{is_line_yes, is_mark_yes, mark_text, matrix_line, matrix_lines, row_text, types_of};

use std::alloc::Global;
use tm_base::{Ground, List, Memory, Text, World, text_of};
use tm_matrix::{Line, Mark};

/// The types that a world's questions go from, in order.
pub fn types(alloc: Global, world: &World) -> Result<List<Ground>, Memory>
    ensures { IfOk result (λ types. types ≡ types_of world.now.questions) }
{
    let mut types = List::new(alloc);
    for ask in world.questions.as_slice() {
        types.add(ask.src.copy(alloc)?)?;
    }
    Ok(types)
}

fn mark_text(mark: Mark) -> &'static str
    ensures { result.now ≡ mark_text mark }
{
    match mark {
        Mark::Yes => "y",
        Mark::No => "n",
        Mark::Refused => "-",
    }
}

/// Some marks, one behind the other.
fn marks_text(alloc: Global, marks: &[Mark]) -> Result<Text, Memory>
    ensures { IfOk result (λ text. text ≡ flat_map mark_text marks.now) }
{
    let mut text = Text::new(alloc);
    for mark in marks {
        text.push_str(mark_text(*mark))?;
    }
    Ok(text)
}

/// A line of a matrix, of its texts.
fn row_text(
    alloc: Global,
    number: u32,
    name: &str,
    from: &str,
    to: &str,
    cells: &str,
) -> Result<Text, Memory>
    ensures { IfOk result (λ text. text ≡ row_text number name.now from.now to.now cells.now) }
{
    let text = format!(in alloc; "{number}: {name} from {from} to {to} {cells}\n")?;
    Ok(Text::from(text))
}

/// The line of a type with a number, counted from 0.
fn matrix_line(
    alloc: Global,
    world: &World,
    number: u32,
    g: &Ground,
    line: &Line,
) -> Result<Text, Memory>
    ensures { IfOk result (λ text. text
        ≡ matrix_line (tables_of world.now) number g.now line.now) }
{
    let name = text_of(alloc, world, g)?;
    let from = mark_text(line.from);
    let to = mark_text(line.to);
    let cells = marks_text(alloc, line.cells.as_slice())?;
    row_text(alloc, number, name.as_str(), from, to, cells.as_str())
}

/// The line of each type, numbered from 0. There are lines for all of them.
pub fn matrix_lines(
    alloc: Global,
    world: &World,
    types: &[Ground],
    lines: &[Line],
) -> Result<Text, Memory>
    requires { length types.now ≤ 64 }
    ensures { IfOk result (λ text. text
        ≡ matrix_lines (tables_of world.now) 0 types.now lines.now) }
{
    let mut text = Text::new(alloc);
    for (number, g) in types.iter().enumerate() {
        let Some(line) = lines.get(number) else {
            return Ok(text);
        };
        text.push_str(matrix_line(alloc, world, number as u32, g, line)?.as_str())?;
    }
    Ok(text)
}

fn is_mark_yes(mark: Mark) -> bool
    ensures { result ≡ is_mark_yes mark }
{
    mark == Mark::Yes
}

fn are_marks_yes(marks: &[Mark]) -> bool
    ensures { result ≡ list_all is_mark_yes marks.now }
{
    marks.iter().all(|mark| is_mark_yes(*mark))
}

fn is_line_yes(line: &Line) -> bool
    ensures { result ≡ is_line_yes line.now }
{
    is_mark_yes(line.from) && is_mark_yes(line.to) && are_marks_yes(line.cells.as_slice())
}

/// Whether each mark is a yes.
pub fn all_yes(lines: &[Line]) -> bool
    ensures { result ≡ list_all is_line_yes lines.now }
{
    lines.iter().all(|line| is_line_yes(line))
}
