ghost use Rattle.std.specs.Prelude.{◌≡◌, ◌↔◌, ◌≤◌, ℕ, Bool, IfOk};
ghost use Rattle.tm_base.specs.declared.ground.Primitive.TheVariants.{Char};
ghost use Rattle.tm_base.specs.Cells.{Word};
ghost use Rattle.tm_base.specs.Shapes.{leaves_of, HasNoPrivate};
ghost use Rattle.tm_base.specs.Transmutes.{holds};
ghost use Rattle.tm_base.specs.Trees.{TreeWord};
ghost use Rattle.tm_base.specs.Valid.{PrimValid};
ghost use Rattle.tm_niche.specs.Forms.{char_form, scalars};

use crate::members::Members;
use std::alloc::Global;
use tm_base::{Memory, Profile, Tree};

/// The characters whose least byte is any, whose next two are in these ranges, and whose greatest is 00.
fn scalars(
    alloc: Global,
    profile: Profile,
    second: (u8, u8),
    third: (u8, u8),
) -> Result<Tree, Memory>
    ensures { IfOk result (λ tree. tree ≡ scalars profile second.0 second.1 third.0 third.1) }
{
    let mut bytes = Members::new(alloc);
    bytes.push(Tree::Range(0, 255))?;
    bytes.push(Tree::Range(second.0, second.1))?;
    bytes.push(Tree::Range(third.0, third.1))?;
    bytes.push(Tree::Range(0, 0))?;
    bytes.order_for(profile);
    bytes.in_turn(alloc)
}

/// The tree of `char`: the numbers up to D7FF, those from E000 to FFFF, and those from 10000 to 10FFFF.
/// `Memory`: there wasn't enough memory.
pub fn char_tree(alloc: Global, profile: Profile) -> Result<Tree, Memory>
    ensures form { IfOk result (λ tree. tree ≡ char_form profile) }
    ensures words { IfOk result (λ tree. (pointer : ℕ) (A : ℕ → ℕ → Bool) (keep : Bool) (w : Word)
        → TreeWord pointer (holds A) keep tree w ↔ PrimValid profile Char w) }
    ensures leaves { IfOk result (λ tree. (pointer : ℕ) → leaves_of pointer tree ≤ 64) }
    ensures public { IfOk result (λ tree. HasNoPrivate tree) }
{
    let mut ways = Members::new(alloc);
    ways.push(scalars(alloc, profile, (0, 0xd7), (0, 0))?)?;
    ways.push(scalars(alloc, profile, (0xe0, 0xff), (0, 0))?)?;
    ways.push(scalars(alloc, profile, (0, 0xff), (1, 0x10))?)?;
    ways.one_of(alloc)
}
