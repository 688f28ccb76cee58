ghost use Rattle.std.specs.Prelude.{◌≡◌, ◌↔◌, ◌≤◌, ℕ, Bool, IfOk};
ghost use Rattle.tm_base.specs.Cells.{Word};
ghost use Rattle.tm_base.specs.Shapes.{leaves_of, HasNoChoice, HasNoPrivate};
ghost use Rattle.tm_base.specs.Transmutes.{holds};
ghost use Rattle.tm_base.specs.Trees.{TreeWord};
ghost use Rattle.tm_tree.specs.Pruned.{all_pruned, pruned};

use crate::rows::repeated;
use std::alloc::Global;
use tm_base::{Memory, Tree};
use tm_niche::Members;

/// A tree without private parts, which has the words of the given one where these keep theirs, as
/// `keep_private` says, or have none. `Memory`: there wasn't enough memory. The tree is spent in either case.
pub fn prune(alloc: Global, tree: Tree, keep_private: bool) -> Result<Tree, Memory>
    ensures public { IfOk result (λ made. HasNoPrivate made) }
    ensures words { IfOk result (λ made. (pointer : ℕ) (A : ℕ → ℕ → Bool) (keep : Bool) (w : Word)
        → TreeWord pointer (holds A) keep made w ↔ TreeWord pointer (holds A) keep_private tree w) }
    ensures leaves { IfOk result
        (λ made. (pointer : ℕ) → leaves_of pointer made ≤ leaves_of pointer tree) }
    ensures single { HasNoChoice tree → IfOk result (λ made. HasNoChoice made) }
{
    pruned(alloc, &tree, keep_private)
}

/// The tree without its private parts.
#[cycle(pruning)]
fn pruned(alloc: Global, tree: &Tree, keep: bool) -> Result<Tree, Memory>
    ensures { IfOk result (λ made. made ≡ pruned keep tree.now) }
{
    match tree {
        Tree::Never => Ok(Tree::Never),
        Tree::Range(low, high) => Ok(Tree::Range(*low, *high)),
        Tree::Pad => Ok(Tree::Pad),
        Tree::Ref(id) => Ok(Tree::Ref(*id)),
        Tree::Seq(trees) => all_pruned(alloc, trees.as_slice(), keep)?.in_turn(alloc),
        Tree::Alt(trees) => all_pruned(alloc, trees.as_slice(), keep)?.one_of(alloc),
        Tree::Repeat(count, part) => {
            let part = pruned(alloc, part.get(), keep)?;
            repeated(alloc, *count, part)?.in_turn(alloc)
        }
        Tree::Private(part) => {
            if keep {
                pruned(alloc, part.get(), keep)
            } else {
                Ok(Tree::Never)
            }
        }
    }
}

/// Trees without their private parts, in order.
#[cycle(pruning)]
fn all_pruned(alloc: Global, trees: &[Tree], keep: bool) -> Result<Members, Memory>
    ensures { IfOk result (λ made. made ≡ all_pruned keep trees.now) }
{
    let mut made = Members::new(alloc);
    for tree in trees {
        made.push(pruned(alloc, tree, keep)?)?;
    }
    Ok(made)
}
