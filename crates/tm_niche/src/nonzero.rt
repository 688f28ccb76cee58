ghost use Rattle.std.specs.Prelude.{◌≡◌, ◌↔◌, ◌≤◌, ◌<◌, ◌+◌, ◌-◌, ◌*◌, ◌⊎◌, ℕ, Bool, IfOk};
ghost use Rattle.tm_base.specs.declared.profile.Profile.{Profile};
ghost use Rattle.tm_base.specs.Cells.{Word};
ghost use Rattle.tm_base.specs.Profiles.{number_of};
ghost use Rattle.tm_base.specs.Shapes.{leaves_of, HasNoPrivate};
ghost use Rattle.tm_base.specs.Transmutes.{holds};
ghost use Rattle.tm_base.specs.Trees.{TreeWord};
ghost use Rattle.tm_base.specs.Valid.{AreBytes};
ghost use Rattle.tm_niche.specs.Forms.{first_nonzero, nonzero_form, IsIntegerSize};

use crate::members::Members;
use std::alloc::Global;
use tm_base::{Memory, Tree};

/// So many bytes 00, one that isn't, and so many of any kind.
fn first_nonzero(alloc: Global, before: u32, behind: u32) -> Result<Tree, Memory>
    ensures { IfOk result (λ tree. tree ≡ first_nonzero before behind) }
{
    let mut bytes = Members::new(alloc);
    bytes.repeat(alloc, before, Tree::Range(0, 0))?;
    bytes.push(Tree::Range(1, 255))?;
    bytes.repeat(alloc, behind, Tree::Range(0, 255))?;
    bytes.in_turn(alloc)
}

/// The tree of `NonZero`: `size` bytes, which is 1, 2, 4, 8 or 16, one of them not 00.
/// `Memory`: there wasn't enough memory.
pub fn nonzero_tree(alloc: Global, size: u32) -> Result<Tree, Memory>
    requires { IsIntegerSize size }
    ensures form { IfOk result (λ tree. tree ≡ nonzero_form size) }
    ensures words { IfOk result
        (λ tree. (profile : Profile) (pointer : ℕ) (A : ℕ → ℕ → Bool) (keep : Bool) (w : Word)
        → TreeWord pointer (holds A) keep tree w ↔ (AreBytes size w × (0 < number_of profile w))) }
    ensures leaves { IfOk result (λ tree. (pointer : ℕ) → leaves_of pointer tree ≤ 256) }
    ensures public { IfOk result (λ tree. HasNoPrivate tree) }
{
    let mut ways = Members::new(alloc);
    for before in 0..size {
        ways.push(first_nonzero(alloc, before, size - 1 - before)?)?;
    }
    ways.one_of(alloc)
}
