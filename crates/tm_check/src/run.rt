//! Runs of cells.
ghost use Rattle.std.specs.Prelude.{◌≡◌, ◌==◌, nat_le, length, take, drop};
ghost use Rattle.std.specs.List.{list_all};
ghost use Rattle.tm_base.specs.Cells.{fit};
ghost use Rattle.tm_base.specs.ValidTest.{is_free};
ghost use Rattle.tm_check.specs.Runs.{word_of};

use tm_base::Cell;

/// Cells that stand one behind another, and so many uninitialised ones behind them.
#[derive(Clone, Copy, Debug)]
pub struct Run<'a> {
    pub told: &'a [Cell],
    pub uninit: usize,
}

impl<'a> Run<'a> {
    /// What so many bytes hold where the word was written: its first cells, and uninitialised ones behind its end.
    pub fn fit(word: &'a [Cell], count: usize) -> Run<'a>
        ensures { word_of result ≡ fit word.now count }
    {
        let told = &word[..count.min(word.len())];
        Run {
            told,
            uninit: count - told.len(),
        }
    }

    /// The cells themselves.
    pub fn of(cells: &'a [Cell]) -> Run<'a>
        ensures { word_of result ≡ cells.now }
    {
        Run {
            told: cells,
            uninit: 0,
        }
    }

    /// Whether there are no more than so many cells.
    pub fn is_within(self, most: usize) -> bool
        ensures { result ≡ nat_le (length (word_of self.entry)) most }
    {
        match most.checked_sub(self.told.len()) {
            Some(left) => self.uninit <= left,
            None => false,
        }
    }

    /// Whether there are so many cells.
    pub fn has(self, count: usize) -> bool
        ensures { result ≡ (length (word_of self.entry) == count) }
    {
        count.checked_sub(self.told.len()) == Some(self.uninit)
    }

    /// Whether there is no cell.
    pub fn is_empty(self) -> bool
        ensures { result ≡ (length (word_of self.entry) == 0) }
    {
        self.told.is_empty() && self.uninit == 0
    }

    /// So many of the first cells, or all where there are fewer.
    pub fn front(self, count: usize) -> Run<'a>
        ensures { word_of result ≡ take count (word_of self.entry) }
    {
        let end = count.min(self.told.len());
        Run {
            told: &self.told[..end],
            uninit: self.uninit.min(count - end),
        }
    }

    /// The cells behind so many of the first.
    pub fn behind(self, count: usize) -> Run<'a>
        ensures { word_of result ≡ drop count (word_of self.entry) }
    {
        let end = count.min(self.told.len());
        Run {
            told: &self.told[end..],
            uninit: self.uninit.saturating_sub(count - end),
        }
    }

    /// Whether each cell is one that nothing is asked of.
    pub fn is_free(self) -> bool
        ensures { result ≡ list_all is_free (word_of self.entry) }
    {
        are_free(self.told)
    }
}

/// Whether nothing is asked of the cell: it is no reference's.
fn is_free(cell: Cell) -> bool
    ensures { result ≡ is_free cell }
{
    match cell {
        Cell::Byte(_) | Cell::Uninit => true,
        Cell::Ptr(_, _) => false,
    }
}

/// Whether nothing is asked of each cell.
fn are_free(cells: &[Cell]) -> bool
    ensures { result ≡ list_all is_free cells.now }
{
    cells.iter().all(|cell| is_free(*cell))
}
