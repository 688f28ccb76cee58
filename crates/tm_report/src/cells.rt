ghost use Rattle.std.specs.Prelude.{◌≡◌, ◌+◌, ◌^◌, ◌<◌, ◌≤◌, ◌++◌, [], List, IfOk, OnOk, All, codes, string_bytes};
ghost use Rattle.tm_report.specs.Runs.{counted, unwritten};
ghost use Rattle.tm_report.specs.WordTexts.{IsCell, Piece, cell_before, cell_text, run_before, word_text};

use std::alloc::{AllocError, Global};
use tm_base::{Cell, Memory, Text};

/// Equal cells that stand together, none of them a reference's.
#[derive(Clone, Copy)]
struct Run {
    /// What each of them is.
    cell: Cell,
    /// How many they are; at least 1.
    count: usize,
}

/// From how many equal cells on a run is written as one piece.
const JOINED: usize = 4;

/// The text of a word, behind a space. Each number of a cell is told to be in the range of its type, so
/// that what is written can be shown to be read back.
///
/// `Memory`: there wasn't enough memory for the text.
pub fn spaced_word(alloc: Global, cells: &[Cell]) -> Result<Text, Memory>
    ensures text { IfOk result (λ text. text ≡ codes " " ++ word_text cells.now) }
    ensures numbers { OnOk result (All IsCell cells.now) }
{
    let mut text = String::new(alloc);
    let mut pending = None;
    for cell in cells {
        pending = take_up(pending, *cell, &mut text)?;
    }
    write_run(pending, &mut text)?;
    if text.is_empty() {
        text.push_str(" empty")?;
    }
    Ok(Text::from(text))
}

/// Takes up one more cell, and answers the run that isn't written yet. A reference is written at its
/// first cell.
fn take_up(pending: Option<Run>, cell: Cell, text: &mut String) -> Result<Option<Run>, AllocError>
    requires { counted pending + 1 < 2 ^ 64 }
    ensures written { IfOk result (λ after. (rest : List Piece) →
        string_bytes text.new ++ unwritten after rest
        ≡ string_bytes text.old ++ unwritten pending (cell_before cell rest)) }
    ensures numbers { OnOk result (IsCell cell) }
    ensures count { IfOk result (λ after. counted after ≤ counted pending + 1) }
{
    match cell {
        Cell::Byte(_) | Cell::Uninit => lengthen(pending, cell, text),
        Cell::Ptr(_, 0) => {
            write_run(pending, text)?;
            write_cell(cell, text)?;
            Ok(None)
        }
        Cell::Ptr(..) => Ok(pending),
    }
}

/// Counts one more cell to the run, or else writes the run and begins another.
fn lengthen(pending: Option<Run>, cell: Cell, text: &mut String) -> Result<Option<Run>, AllocError>
    requires { counted pending + 1 < 2 ^ 64 }
    ensures written { IfOk result (λ after. (rest : List Piece) →
        string_bytes text.new ++ unwritten after rest
        ≡ string_bytes text.old ++ unwritten pending (run_before 1 cell rest)) }
    ensures count { IfOk result (λ after. counted after ≤ counted pending + 1) }
{
    match pending {
        Some(run) if run.cell == cell => Ok(Some(Run {
            cell,
            count: run.count + 1,
        })),
        _ => {
            write_run(pending, text)?;
            Ok(Some(Run { cell, count: 1 }))
        }
    }
}

/// Writes a run, if there is one.
fn write_run(pending: Option<Run>, text: &mut String) -> Result<(), AllocError>
    ensures { OnOk result (string_bytes text.new ≡ string_bytes text.old ++ unwritten pending []) }
{
    let Some(run) = pending else {
        return Ok(());
    };
    if run.count >= JOINED {
        write_cell(run.cell, text)?;
        return write!(text, "*{}", run.count);
    }
    for _turn in 0..run.count {
        write_cell(run.cell, text)?;
    }
    Ok(())
}

/// Writes a cell behind a space.
fn write_cell(cell: Cell, text: &mut String) -> Result<(), AllocError>
    ensures { OnOk result (
        string_bytes text.new ≡ string_bytes text.old ++ (codes " " ++ cell_text cell)) }
{
    match cell {
        Cell::Byte(byte) => write!(text, " {byte:02x}"),
        Cell::Uninit => text.push_str(" --"),
        Cell::Ptr(id, _) => write!(text, " &{}", id.0),
    }
}
