//! The builder. It goes from the end of the words to their beginning: in front of a state, the target,
//! it puts the words of a tree.
ghost use Rattle.std.specs.Prelude.{◌≡◌, ◌+◌, ◌^◌, ◌<◌, ◌≤◌, ◌++◌, [], IfOk, IfNone, IfSome, OnOk, length};
ghost use Rattle.tm_base.specs.declared.tree.Tree.{Ref, Seq, Alt, Repeat};
ghost use Rattle.tm_auto.specs.Builds.{edges_by, CanBegin, CanGrow, MakesTree, IsPlacedTree, HasNoLoose, IsAdded, IsSealed};

use crate::edge::{Edge, Label};
use crate::extent::Extent;
use std::alloc::Global;
use tm_base::{Memory, RefId, Tree};

/// A way on to a state. It leaves no state yet.
#[derive(Clone, Copy, PartialEq, Eq, Debug)]
pub(crate) struct Way {
    pub(crate) label: Label,
    pub(crate) to: u32,
}

/// An automaton that is being built. The states are the numbers below `states`, and 0 is the end. The
/// ways of `head` wait for a state that they leave. A reference has `pointer` cells.
#[derive(Drop)]
pub(crate) struct Building {
    pub(crate) edges: Vec<Edge>,
    pub(crate) states: u32,
    pub(crate) head: Vec<Way>,
    pub(crate) pointer: u8,
}

impl Building {
    /// The end alone.
    pub(crate) fn new(alloc: Global, pointer: u8) -> Building
        ensures edges { result.edges.items ≡ [] }
        ensures states { result.states ≡ 1 }
        ensures head { result.head.items ≡ [] }
        ensures pointer { result.pointer ≡ pointer }
    {
        Building {
            edges: Vec::new(alloc),
            states: 1,
            head: Vec::new(alloc),
            pointer,
        }
    }

    /// Puts a whole tree in front of the end, and answers the state at which its words begin; `None`
    /// where it has none.
    pub(crate) fn whole(&mut self, tree: &Tree) -> Result<Option<u32>, Memory>
        requires { CanBegin tree.now self.old }
        ensures start { IfOk result
            (λ start. IfSome start (λ state. IsPlacedTree tree.now 0 self.old self.new state)) }
        ensures none { IfOk result (λ start. IfNone start (HasNoLoose self.old.pointer tree.now)) }
    {
        match Extent::of(tree) {
            Extent::Dead => Ok(None),
            Extent::Empty => Ok(Some(0)),
            Extent::Long => {
                self.grow(tree, 0)?;
                let start = self.seal(0, 0)?;
                Ok(Some(start))
            }
        }
    }

    // Puts a tree in front of the target: the ways by which its words begin are added to the head.
    #[cycle(grow)]
    fn grow(&mut self, tree: &Tree, target: u32) -> Result<(), Memory>
        requires { CanGrow tree.now target self.old }
        ensures { OnOk result (MakesTree tree.now target self.old self.new) }
    {
        match tree {
            Tree::Never => Ok(()),
            Tree::Range(low, high) => self.add(Label::Bytes(*low, *high), target),
            Tree::Pad => self.add(Label::Free, target),
            Tree::Ref(reference) => self.grow_ref(*reference, target),
            Tree::Seq(trees) => self.grow_in_turn(trees.as_slice(), target),
            Tree::Alt(trees) => self.grow_one_of(trees.as_slice(), target),
            Tree::Repeat(count, part) => self.grow_times(*count, part.get(), target),
            Tree::Private(_) => Ok(()),
        }
    }

    // One tree after another, the last one first. A tree of the empty word alone is passed by.
    #[cycle(grow)]
    fn grow_in_turn(&mut self, trees: &[Tree], target: u32) -> Result<(), Memory>
        requires { CanGrow (Seq trees.now) target self.old }
        ensures { OnOk result (MakesTree (Seq trees.now) target self.old self.new) }
    {
        let mark = self.head.len();
        let mut next = target;
        for at in (0..trees.len()).rev() {
            let tree = &trees[at];
            match Extent::of(tree) {
                Extent::Long => {
                    next = self.seal(mark, next)?;
                    self.grow(tree, next)?;
                }
                Extent::Empty => {}
                Extent::Dead => {}
            }
        }
        Ok(())
    }

    // One tree or another: their ways leave one state. A tree without words is passed by.
    #[cycle(grow)]
    fn grow_one_of(&mut self, trees: &[Tree], target: u32) -> Result<(), Memory>
        requires { CanGrow (Alt trees.now) target self.old }
        ensures { OnOk result (MakesTree (Alt trees.now) target self.old self.new) }
    {
        for tree in trees {
            match Extent::of(tree) {
                Extent::Long => self.grow(tree, target)?,
                Extent::Empty => {}
                Extent::Dead => {}
            }
        }
        Ok(())
    }

    // A tree so many times, the last turn first.
    #[cycle(grow)]
    fn grow_times(&mut self, count: u32, part: &Tree, target: u32) -> Result<(), Memory>
        requires { CanGrow (Repeat count part.now) target self.old }
        ensures { OnOk result (MakesTree (Repeat count part.now) target self.old self.new) }
    {
        let mark = self.head.len();
        let mut next = target;
        for turn in 0..count {
            next = self.seal(mark, next)?;
            self.grow(part, next)?;
        }
        Ok(())
    }

    // The bytes of a reference, the last one first.
    fn grow_ref(&mut self, reference: RefId, target: u32) -> Result<(), Memory>
        requires { CanGrow (Ref reference) target self.old }
        ensures { OnOk result (MakesTree (Ref reference) target self.old self.new) }
    {
        let mark = self.head.len();
        let mut next = target;
        for place in (0..self.pointer).rev() {
            next = self.seal(mark, next)?;
            self.add(Label::Leaf(reference, place), next)?;
        }
        Ok(())
    }

    // Gives the ways behind the first `mark` a state, and answers it; where there are none, words go on
    // at `next`.
    fn seal(&mut self, mark: usize, next: u32) -> Result<u32, Memory>
        requires mark { mark ≤ length self.old.head.items }
        requires room { mark < length self.old.head.items → self.old.states + 1 ≤ 2 ^ 31 }
        ensures { IfOk result (λ state. IsSealed mark next self.old self.new state) }
    {
        if mark == self.head.len() {
            return Ok(next);
        }
        let state = self.states;
        leave(&mut self.edges, state, &self.head[mark..])?;
        self.head.truncate(mark);
        self.states = state + 1;
        Ok(state)
    }

    // One more way to the target.
    fn add(&mut self, label: Label, target: u32) -> Result<(), Memory>
        ensures { OnOk result (IsAdded label target self.old self.new) }
    {
        match self.head.push(Way { label, to: target }) {
            Ok(()) => Ok(()),
            Err(_) => Err(Memory),
        }
    }
}

// Puts edges from the state, one for each way.
fn leave(edges: &mut Vec<Edge>, from: u32, ways: &[Way]) -> Result<(), Memory>
    ensures { OnOk result (edges.new.items ≡ edges.old.items ++ edges_by from ways.now) }
{
    for way in ways {
        let edge = Edge {
            from,
            to: way.to,
            label: way.label,
        };
        match edges.push(edge) {
            Ok(()) => {}
            Err(_) => return Err(Memory),
        }
    }
    Ok(())
}
