//! Which types are judged.
ghost use Rattle.std.specs.Prelude.{◌≡◌, ◌↔◌, IsTrue, IfOk};
ghost use Rattle.tm_base.specs.Reaches.{IsJudged};
ghost use Rattle.tm_base.specs.Worlds.{IsTypeOver, tables_of};
ghost use Rattle.tm_layout.specs.Made.{IsMadeFor};
ghost use Rattle.tm_refute.specs.Judged.{AreJudgedRefs, judged_at};

use std::alloc::Global;
use tm_base::{Ground, Memory, RefId, World};
use tm_layout::{Layouts, first_refused};

/// Whether no type that a type reaches is at fault.
pub fn is_judged(
    alloc: Global,
    world: &World,
    layouts: &Layouts,
    g: &Ground,
) -> Result<bool, Memory>
    requires made { IsMadeFor (tables_of world.now) layouts.now }
    requires over { IsTypeOver (tables_of world.now) g.now }
    ensures { IfOk result (λ judged. IsTrue judged ↔ IsJudged (tables_of world.now) g.now) }
{
    Ok(first_refused(alloc, world, layouts, g)?.is_none())
}

/// Which references of a world have judged pointees.
#[derive(Debug, Drop)]
pub struct Judged {
    /// One for each reference of the world.
    pub items: Vec<bool>,
}

impl Judged {
    /// Those of a world.
    pub fn new(alloc: Global, world: &World, layouts: &Layouts) -> Result<Judged, Memory>
        requires made { IsMadeFor (tables_of world.now) layouts.now }
        ensures { IfOk result (λ judged. AreJudgedRefs (tables_of world.now) judged.items.items) }
    {
        let mut items = Vec::new(alloc);
        for row in world.refs.as_slice() {
            items.push(is_judged(alloc, world, layouts, &row.pointee)?)?;
        }
        Ok(Judged { items })
    }

    /// Whether the pointee of a reference is judged. `false` where the world has no such reference.
    pub fn has(&self, id: RefId) -> bool
        ensures { result ≡ judged_at self.now.items.items id.0 }
    {
        self.items.get(id.0 as usize) == Some(&true)
    }
}
