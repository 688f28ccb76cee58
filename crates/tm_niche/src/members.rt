ghost use Rattle.std.specs.Prelude.{◌≡◌, ◌∷◌, ◌++◌, [], IfNone, IfOk, OnOk, length};
ghost use Rattle.std.specs.List.{list_any};
ghost use Rattle.tm_niche.specs.Forms.{in_order, is_never, joined, living, one_of, only_of, repeated, turns};

use std::alloc::Global;
use std::marker::Model;
use tm_base::{Boxed, List, Memory, Profile, Tree};

/// Whether a tree is the one that says that it has no word.
fn is_never(tree: &Tree) -> bool
    ensures { result ≡ is_never tree.now }
{
    matches!(tree, Tree::Never)
}

/// So many turns of a tree, of which there is one at least.
fn turns(alloc: Global, count: u32, tree: Tree) -> Result<Tree, Memory>
    ensures { IfOk result (λ made. made ≡ turns count tree) }
{
    if count == 1 || is_never(&tree) {
        Ok(tree)
    } else {
        Ok(Tree::Repeat(count, Boxed::new(alloc, tree)?))
    }
}

/// Trees of which a sequence or an alternative is made. Contracts see them as a list, in order.
#[derive(Debug, Drop)]
pub struct Members {
    trees: Vec<Tree>,
}

impl Model for Members {
    ghost use Rattle.std.specs.Prelude.{List};
    ghost use Rattle.std.specs.Coded.{codes};
    ghost use Rattle.tm_base.specs.declared.tree.Tree.{Tree};
    ghost use Rattle.tm_base.specs.contracts.tree.Tree as tree;

    ghost Value = { List Tree };

    ghost coded = { Prim.hlevel (codes, tree.the_row.coded) };

    ghost view = { λ members. members.trees.items };
}

impl Members {
    /// No trees. It takes no memory.
    pub fn new(alloc: Global) -> Members
        ensures { result ≡ [] }
    {
        Members {
            trees: Vec::new(alloc),
        }
    }

    /// How many trees there are.
    pub fn len(&self) -> usize
        ensures { result ≡ length self.now }
    {
        self.trees.len()
    }

    /// Adds a tree at the end.
    pub fn push(&mut self, tree: Tree) -> Result<(), Memory>
        ensures { OnOk result (self.new ≡ self.old ++ tree ∷ []) }
    {
        self.trees.push(tree)?;
        Ok(())
    }

    /// Adds other trees behind these.
    pub fn append(&mut self, others: Members) -> Result<(), Memory>
        ensures { OnOk result (self.new ≡ self.old ++ others) }
    {
        for tree in others.trees {
            self.push(tree)?;
        }
        Ok(())
    }

    /// Adds so many turns of a tree: nothing for none, and the tree itself for one.
    pub fn repeat(&mut self, alloc: Global, count: u32, tree: Tree) -> Result<(), Memory>
        ensures { OnOk result (self.new ≡ self.old ++ repeated count tree) }
    {
        if count == 0 {
            Ok(())
        } else {
            self.push(turns(alloc, count, tree)?)
        }
    }

    /// Turns the bytes of a number, of which the least is first, into the order that they have in memory.
    pub(crate) fn order_for(&mut self, profile: Profile)
        ensures { self.new ≡ in_order profile self.old }
    {
        match profile {
            Profile::Le64 | Profile::Le32 => {}
            Profile::Be64 => self.trees.reverse(),
        }
    }

    /// Whether one of the trees is `Never`.
    fn has_never(&self) -> bool
        ensures { result ≡ list_any is_never self.now }
    {
        self.trees.iter().any(|tree| is_never(tree))
    }

    /// The one tree, taken out, where there is no other.
    fn take_only(&mut self) -> Option<Tree>
        ensures only { result ≡ only_of self.old }
        ensures kept { IfNone result (self.new ≡ self.old) }
    {
        if self.trees.len() == 1 {
            self.trees.pop()
        } else {
            None
        }
    }

    /// The trees as the list that a tree has.
    fn into_list(self, alloc: Global) -> Result<List<Tree>, Memory>
        ensures { IfOk result (λ list. list ≡ self) }
    {
        let mut list = List::new(alloc);
        for tree in self.trees {
            list.add(tree)?;
        }
        Ok(list)
    }

    /// The trees but those that say that they have no word.
    fn into_living(self, alloc: Global) -> Result<Members, Memory>
        ensures { IfOk result (λ members. members ≡ living self) }
    {
        let mut living = Members::new(alloc);
        for tree in self.trees {
            if !is_never(&tree) {
                living.push(tree)?;
            }
        }
        Ok(living)
    }

    /// A tree that has a word of each of these in turn. It is `Never` where one of them is, and no sequence
    /// of one.
    pub fn in_turn(mut self, alloc: Global) -> Result<Tree, Memory>
        ensures { IfOk result (λ tree. tree ≡ joined self) }
    {
        if self.has_never() {
            return Ok(Tree::Never);
        }
        match self.take_only() {
            Some(tree) => Ok(tree),
            None => Ok(Tree::Seq(self.into_list(alloc)?)),
        }
    }

    /// A tree that has the words of each of these. It is no alternative of one, and of none of which one is
    /// `Never`.
    pub fn one_of(self, alloc: Global) -> Result<Tree, Memory>
        ensures { IfOk result (λ tree. tree ≡ one_of self) }
    {
        let mut living = self.into_living(alloc)?;
        if living.len() == 0 {
            return Ok(Tree::Never);
        }
        match living.take_only() {
            Some(tree) => Ok(tree),
            None => Ok(Tree::Alt(living.into_list(alloc)?)),
        }
    }
}
