ghost use Rattle.std.specs.Prelude.{◌≡◌, IfOk, length, map};
ghost use Rattle.tm_names.specs.Closures.{closure, joined_rows, next_row, next_rows};
ghost use Rattle.tm_names.specs.Held.{bit_at, has_news, have_news, row_at};

use crate::adding::add;
use std::alloc::Global;
use tm_base::{List, Memory};

/// The flag at a place, and `false` behind the last one.
pub fn bit(row: &[bool], place: usize) -> bool
    ensures { result ≡ bit_at row.now place }
{
    match row.get(place) {
        None => false,
        Some(flag) => *flag,
    }
}

/// The flags of a row, joined with those of another one if `joins` holds.
fn next_row(alloc: Global, joins: bool, row: &[bool], other: &[bool]) -> Result<List<bool>, Memory>
    ensures { IfOk result (λ next. next ≡ next_row joins row.now other.now) }
{
    let mut next = List::new(alloc);
    for (place, flag) in row.iter().enumerate() {
        let flag = *flag || joins && bit(other, place);
        add(&mut next, flag)?;
    }
    Ok(next)
}

/// The row at a place, and the empty one behind the last.
pub fn row_at(rows: &[List<bool>], place: usize) -> &[bool]
    ensures { result.now ≡ row_at rows.now place }
{
    match rows.get(place) {
        None => &[],
        Some(row) => row.as_slice(),
    }
}

/// Rows, each joined with the one at the same place.
pub fn joined_rows(
    alloc: Global,
    rows: &[List<bool>],
    others: &[List<bool>],
) -> Result<List<List<bool>>, Memory>
    ensures { IfOk result (λ joined. joined ≡ joined_rows rows.now others.now) }
{
    let mut joined = List::new(alloc);
    for (place, row) in rows.iter().enumerate() {
        let row = next_row(alloc, true, row.as_slice(), row_at(others, place))?;
        add(&mut joined, row)?;
    }
    Ok(joined)
}

/// Whether a flag that isn't set is in another row.
fn has_news(row: &[bool], other: &[bool]) -> bool
    ensures { result ≡ has_news row.now other.now }
{
    for (place, flag) in row.iter().enumerate() {
        if !*flag && bit(other, place) {
            return true;
        }
    }
    false
}

/// Whether some row has news in the one at the same place.
pub fn have_news(rows: &[List<bool>], others: &[List<bool>]) -> bool
    ensures { result ≡ have_news rows.now others.now }
{
    for (place, row) in rows.iter().enumerate() {
        if has_news(row.as_slice(), row_at(others, place)) {
            return true;
        }
    }
    false
}

/// A row that leads on from a number where it reaches that, which another row tells.
fn led_on(
    alloc: Global,
    row: List<bool>,
    through: usize,
    other: &[bool],
) -> Result<List<bool>, Memory>
    ensures { IfOk result (λ next. next ≡ next_row (bit_at row through) row other.now) }
{
    if bit(row.as_slice(), through) {
        return next_row(alloc, true, row.as_slice(), other);
    }
    Ok(row)
}

/// All rows, of which those lead on from a number that reach it. The others stay as they are.
fn all_led_on(
    alloc: Global,
    rows: Vec<List<bool>>,
    through: usize,
    other: &[bool],
) -> Result<Vec<List<bool>>, Memory>
    ensures { IfOk result (λ next. next.items ≡ map
        (λ row. next_row (bit_at row through) row other.now) rows.items) }
{
    let mut next = Vec::new(alloc);
    for row in rows {
        let row = led_on(alloc, row, through, other)?;
        next.push(row)?;
    }
    Ok(next)
}

/// For each two numbers whether a way leads from the first to the second, also through a further number.
fn next_rows(
    alloc: Global,
    through: usize,
    rows: Vec<List<bool>>,
) -> Result<Vec<List<bool>>, Memory>
    ensures { IfOk result (λ next. next.items ≡ next_rows through rows.items) }
{
    let other = next_row(alloc, false, row_at(rows.as_slice(), through), &[])?;
    all_led_on(alloc, rows, through, other.as_slice())
}

/// For each two numbers whether a way leads from the first to the second, where the rows say it of ways of
/// one step.
pub fn closure(alloc: Global, rows: Vec<List<bool>>) -> Result<Vec<List<bool>>, Memory>
    ensures { IfOk result (λ closed. closed.items ≡ closure 0 (length rows.items) rows.items) }
{
    let mut closed = rows;
    for through in 0..closed.as_slice().len() {
        closed = next_rows(alloc, through, closed)?;
    }
    Ok(closed)
}

/// Whether a way leads from a number back to it.
pub fn is_cyclic(closed: &[List<bool>], number: usize) -> bool
    ensures { result ≡ bit_at (row_at closed.now number) number }
{
    bit(row_at(closed, number), number)
}
