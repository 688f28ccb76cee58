ghost use Rattle.std.specs.Prelude.{◌≡◌, ◌↔◌, ◌≤◌, ◌+◌, ◌⊎◌, ℕ, Bool, IfOk, replicate};
ghost use Rattle.tm_base.specs.declared.cell.Cell.TheVariants.{Byte};
ghost use Rattle.tm_base.specs.Cells.{Word};
ghost use Rattle.tm_base.specs.Shapes.{leaves_of, HasNoPrivate, HasSize};
ghost use Rattle.tm_base.specs.Transmutes.{holds};
ghost use Rattle.tm_base.specs.Trees.{TreeWord};
ghost use Rattle.tm_niche.specs.Forms.{null_form};

use crate::members::Members;
use std::alloc::Global;
use tm_base::{Memory, Tree};

/// The tree of a listed `Option`: `size` bytes 00, or a word of the tree of its argument, which has `size`
/// cells. `Memory`: there wasn't enough memory.
pub fn null_or(alloc: Global, tree: Tree, size: u32) -> Result<Tree, Memory>
    requires { (pointer : ℕ) × HasSize pointer size tree }
    ensures form { IfOk result (λ made. made ≡ null_form size tree) }
    ensures words { IfOk result (λ made. (pointer : ℕ) (A : ℕ → ℕ → Bool) (keep : Bool) (w : Word)
        → TreeWord pointer (holds A) keep made w
        ↔ ((w ≡ replicate size (Byte 0)) ⊎ TreeWord pointer (holds A) keep tree w)) }
    ensures leaves { IfOk result
        (λ made. (pointer : ℕ) → leaves_of pointer made ≤ leaves_of pointer tree + size) }
    ensures public { HasNoPrivate tree → IfOk result (λ made. HasNoPrivate made) }
{
    let mut zeros = Members::new(alloc);
    zeros.repeat(alloc, size, Tree::Range(0, 0))?;
    let mut ways = Members::new(alloc);
    ways.push(zeros.in_turn(alloc)?)?;
    ways.push(tree)?;
    ways.one_of(alloc)
}
