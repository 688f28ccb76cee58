//! What stands in a row.
ghost use Rattle.std.specs.Prelude.{◌≡◌, ◌+◌, ◌-◌, ◌≤◌, ◌<◌, ◌^◌, ◌++◌, ◌∷◌, [], IfOk, OnOk};
ghost use Rattle.tm_niche.specs.Forms.{repeated};
ghost use Rattle.tm_tree.specs.Parts.{pads};

use std::alloc::Global;
use tm_base::{Memory, Tree};
use tm_niche::Members;

/// One tree.
pub fn one(alloc: Global, tree: Tree) -> Result<Members, Memory>
    ensures { IfOk result (λ parts. parts ≡ tree ∷ []) }
{
    let mut parts = Members::new(alloc);
    parts.push(tree)?;
    Ok(parts)
}

/// So many turns of a tree.
pub fn repeated(alloc: Global, count: u32, tree: Tree) -> Result<Members, Memory>
    ensures { IfOk result (λ parts. parts ≡ repeated count tree) }
{
    let mut parts = Members::new(alloc);
    parts.repeat(alloc, count, tree)?;
    Ok(parts)
}

/// Trees in a row, and where the last of them ends, in bytes from the first of the type that they are in.
#[derive(Debug, Drop)]
pub struct Row {
    pub parts: Members,
    pub end: u32,
}

impl Row {
    /// No trees.
    pub fn new(alloc: Global) -> Row
        ensures { result ≡ record { parts = []; end = 0 } }
    {
        Row {
            parts: Members::new(alloc),
            end: 0,
        }
    }

    /// Adds padding up to a place.
    pub fn pad_to(&mut self, alloc: Global, place: u32) -> Result<(), Memory>
        requires { self.old.end ≤ place }
        ensures { let gap = place - self.old.end in
            OnOk result (self.new ≡ record { parts = self.old.parts ++ pads gap; end = place }) }
    {
        self.parts.repeat(alloc, place - self.end, Tree::Pad)?;
        self.end = place;
        Ok(())
    }

    /// Adds other trees, which have so many bytes.
    pub fn add(&mut self, parts: Members, size: u32) -> Result<(), Memory>
        requires { self.old.end + size < 2 ^ 32 }
        ensures { let end = self.old.end + size in
            OnOk result (self.new ≡ record { parts = self.old.parts ++ parts; end = end }) }
    {
        self.parts.append(parts)?;
        self.end += size;
        Ok(())
    }
}
