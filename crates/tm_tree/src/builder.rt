//! What trees are built from.
ghost use Rattle.std.specs.Prelude.{◌≡◌, ◌∷◌, [], IfOk, IsTrue};
ghost use Rattle.tm_base.specs.Integers.{fits_integer, is_integer};
ghost use Rattle.tm_base.specs.Layout.{size_of, tag_layout};
ghost use Rattle.tm_base.specs.Tables.{expanded_in};
ghost use Rattle.tm_base.specs.Worlds.{tables_of};
ghost use Rattle.tm_layout.specs.Made.{IsMadeFor};
ghost use Rattle.tm_niche.specs.Forms.{tag_form};
ghost use Rattle.tm_layout.specs.LaidOut.{IsLaidOut};
ghost use Rattle.tm_tree.specs.LaidOut.{tag_type};

use crate::rows::{Row, one};
use std::alloc::Global;
use tm_base::{Ground, Memory, Primitive, World};
use tm_layout::Layouts;
use tm_niche::tag_tree;

/// What the trees of a world's types are built from.
#[derive(Drop)]
pub struct Builder<'a> {
    pub alloc: Global,
    pub world: &'a World,
    pub layouts: &'a Layouts,
    // The layouts are those of the world.
    pub ghost made: { IsMadeFor (tables_of world.now) layouts.now },
}

impl Builder<'_> {
    /// The size of a type, in bytes.
    pub fn size(&self, g: &Ground) -> u32
        requires { IsLaidOut (tables_of self.now.world.now) g.now }
        ensures { result ≡ size_of (expanded_in (tables_of self.now.world.now) g.now) }
    {
        match self.layouts.of(g) {
            Ok(layout) => layout.size,
            Err(_) => unreachable!(),
        }
    }

    /// The tag of a variant in a row of its own.
    pub fn tag(&self, tag: Option<Primitive>, value: i128) -> Result<Row, Memory>
        requires integer { IsTrue (is_integer (tag_type tag)) }
        requires fits { IsTrue (fits_integer self.now.world.now.profile (tag_type tag) value) }
        ensures { let profile = self.now.world.now.profile in
            let size = (tag_layout profile tag).size in
            IfOk result (λ row. row
            ≡ record { parts = tag_form profile size value ∷ []; end = size }) }
    {
        let p = tag.unwrap_or(Primitive::I32);
        let tree = tag_tree(self.alloc, self.world.profile, p, value)?;
        Ok(Row {
            parts: one(self.alloc, tree)?,
            end: self.size(&Ground::Prim(p)),
        })
    }
}
