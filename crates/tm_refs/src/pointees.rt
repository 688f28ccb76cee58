ghost use Rattle.std.specs.Prelude.{◌≡◌, IfOk, is_some};
ghost use Rattle.std.specs.Option.{option_copied};
ghost use Rattle.tm_base.specs.Worlds.{IsTypeOver, tables_of};
ghost use Rattle.tm_layout.specs.Made.{IsMadeFor};
ghost use Rattle.tm_refs.specs.Pointees.{ArePointees, IsPointeeAnswer, pointee_at};

use crate::automaton::automaton_of;
use std::alloc::Global;
use tm_auto::Auto;
use tm_base::{Assume, Ground, Memory, RefId, World};
use tm_layout::{Layouts, first_refused};

/// The values of a judged type.
#[derive(Drop)]
pub struct Pointee {
    /// Those that may be there: private types keep theirs.
    pub source: Auto,
    /// Those that may be made: where safety isn't assumed, private types have none.
    pub target: Auto,
}

/// The pointees of a world's references, each built once; nothing stands for one that isn't judged.
#[derive(Drop)]
pub struct Pointees {
    pub items: Vec<Option<Pointee>>,
}

impl Pointees {
    /// Those of a world's references under some assumptions.
    pub fn new(
        alloc: Global,
        world: &World,
        layouts: &Layouts,
        assume: Assume,
    ) -> Result<Pointees, Memory>
        requires made { IsMadeFor (tables_of world.now) layouts.now }
        ensures { IfOk result (λ pointees.
            ArePointees (tables_of world.now) assume pointees.items.items) }
    {
        let mut items = Vec::new(alloc);
        for row in world.refs.as_slice() {
            items.push(pointee_of(alloc, world, layouts, assume, &row.pointee)?)?;
        }
        Ok(Pointees { items })
    }

    /// Whether the pointee of a reference is judged.
    pub fn is_judged(&self, id: RefId) -> bool
        ensures { result ≡ is_some (pointee_at self.now.items.items id.0) }
    {
        self.get(id).is_some()
    }

    /// The pointee of a reference, where it is judged.
    pub fn get(&self, id: RefId) -> Option<&Pointee>
        ensures { option_copied result ≡ pointee_at self.now.items.items id.0 }
    {
        match self.items.get(id.0 as usize) {
            Some(Some(pointee)) => Some(pointee),
            _ => None,
        }
    }
}

/// The values of a type, where it is judged.
fn pointee_of(
    alloc: Global,
    world: &World,
    layouts: &Layouts,
    assume: Assume,
    g: &Ground,
) -> Result<Option<Pointee>, Memory>
    requires made { IsMadeFor (tables_of world.now) layouts.now }
    requires over { IsTypeOver (tables_of world.now) g.now }
    ensures { IfOk result (IsPointeeAnswer (tables_of world.now) assume g.now) }
{
    if first_refused(alloc, world, layouts, g)?.is_some() {
        return Ok(None);
    }
    Ok(Some(Pointee {
        source: automaton_of(alloc, world, layouts, g, true)?,
        target: automaton_of(alloc, world, layouts, g, assume.safety)?,
    }))
}
