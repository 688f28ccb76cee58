//! Where a type refuses cells.
ghost use Rattle.std.specs.Prelude.{◌≡◌, ◌↔◌, [], IsTrue, true, false, length};
ghost use Rattle.std.specs.List.{list_all};
ghost use Rattle.tm_base.specs.Faults.{has_no_layout};
ghost use Rattle.tm_base.specs.Layout.{size_of};
ghost use Rattle.tm_base.specs.Tables.{expanded_in};
ghost use Rattle.tm_base.specs.ValidTest.{is_free};
ghost use Rattle.tm_base.specs.Worlds.{IsTypeOver, tables_of};
ghost use Rattle.tm_layout.specs.Made.{IsMadeFor};
ghost use Rattle.tm_validate.specs.Matched.{GoesOn, IsLast, IsMatch};

use crate::matching::Fits;
use tm_base::{Cell, Equal, Ground, World};
use tm_check::{valid, viable};
use tm_layout::Layouts;

/// The type that cells are matched with.
#[derive(Drop)]
pub struct Target<'a> {
    pub world: &'a World,
    pub layouts: &'a Layouts,
    /// Private types keep their values.
    pub keep_private: bool,
    pub g: &'a Ground,
    // The layouts are those of the world, the type is one over it, and has a layout.
    pub ghost made: { IsMadeFor (tables_of world.now) layouts.now },
    pub ghost over: { IsTypeOver (tables_of world.now) g.now },
    pub ghost judged: { has_no_layout (expanded_in (tables_of world.now) g.now) ≡ false },
}

impl Target<'_> {
    /// What as many cells are to the type as it has bytes.
    pub fn match_cells(&self, cells: &[Cell], size: u32) -> Fits
        requires free { list_all is_free cells.now ≡ true }
        requires sized { size
            ≡ size_of (expanded_in (tables_of self.now.world.now) self.now.g.now) }
        requires long { length cells.now ≡ size }
        ensures { let t = expanded_in (tables_of self.now.world.now) self.now.g.now in
            IsMatch self.now.keep_private t cells.now result }
    {
        if valid(
            self.world,
            self.layouts,
            &Equal,
            self.keep_private,
            self.g,
            cells,
        ) {
            return Fits::Valid;
        }
        if !self.goes_on(&[]) {
            return Fits::NoWord;
        }
        Fits::RefusedAt(self.last(cells, size))
    }

    /// Whether some value of the type begins with the cells, where a reference may also hold itself.
    fn goes_on(&self, cells: &[Cell]) -> bool
        ensures { let t = expanded_in (tables_of self.now.world.now) self.now.g.now in
            IsTrue result ↔ GoesOn self.now.keep_private t cells.now }
    {
        viable(
            self.world,
            self.layouts,
            &Equal,
            self.keep_private,
            self.g,
            cells,
        )
    }

    /// How many of the cells, counted from the first, begin a value with which one more doesn't: it is looked for
    /// between none of them and all, and half of what is left is ruled out each time.
    fn last(&self, cells: &[Cell], size: u32) -> u32
        requires long { length cells.now ≡ size }
        requires none { let t = expanded_in (tables_of self.now.world.now) self.now.g.now in
            GoesOn self.now.keep_private t [] }
        requires all { let t = expanded_in (tables_of self.now.world.now) self.now.g.now in
            ¬ GoesOn self.now.keep_private t cells.now }
        ensures { let t = expanded_in (tables_of self.now.world.now) self.now.g.now in
            IsLast self.now.keep_private t cells.now result }
    {
        let mut goes: u32 = 0;
        let mut stops = size;
        while stops - goes > 1 {
            let middle = goes + (stops - goes) / 2;
            if self.goes_on(&cells[..middle as usize]) {
                goes = middle;
            } else {
                stops = middle;
            }
        }
        goes
    }
}
