ghost use Rattle.std.specs.Prelude.{◌≡◌, [], ◌∷◌, ◌++◌, IfOk, OnOk, OnErr};
ghost use Rattle.tm_base.specs.declared.cell.Cell.{Cell};
ghost use Rattle.tm_base.specs.Transmutes.{is_itself};
ghost use Rattle.tm_auto.specs.Automata.{AreStates, reached};
ghost use Rattle.tm_auto.specs.Classes.{TakesFrom};
ghost use Rattle.tm_walk.specs.Words.{IsWithLeast};

use std::alloc::Global;
use tm_auto::{Auto, StateSet, Symbol, least_step};
use tm_base::{Cell, Equal, List, Memory, Word};

/// A source word as far as it is read, with the states that it reaches.
#[derive(Drop)]
pub struct Reading<'a> {
    pub src: &'a Auto,
    pub word: Word,
    pub set: StateSet,
    pub ghost reached: { set ≡ reached is_itself src.now word },
    pub ghost states: { AreStates src.now set },
}

impl<'a> Reading<'a> {
    /// Nothing is read yet.
    pub fn new(alloc: Global, src: &'a Auto) -> Result<Reading<'a>, Memory>
        ensures src { IfOk result (λ reading. reading.src.now ≡ src.now) }
        ensures word { IfOk result (λ reading. reading.word ≡ []) }
    {
        let set = src.start(alloc)?;
        Ok(Reading {
            src,
            word: List::new(alloc),
            set,
        })
    }

    /// Reads a cell.
    pub fn read(&mut self, alloc: Global, cell: Cell) -> Result<(), Memory>
        ensures src { self.new.src.now ≡ self.old.src.now }
        ensures word { OnOk result (self.new.word ≡ self.old.word ++ cell ∷ []) }
    {
        let set = self.src.step(alloc, &Equal, &self.set, Symbol::of(cell))?;
        self.word.add(cell)?;
        self.set = set;
        Ok(())
    }

    /// Reads the least cell that may come next.
    pub fn read_least(&mut self, alloc: Global) -> Result<(), Memory>
        requires { ((c : Cell) × TakesFrom self.old.src.now self.old.set c) }
        ensures src { self.new.src.now ≡ self.old.src.now }
        ensures word { OnOk result (IsWithLeast
            self.old.src.now self.old.set self.old.word self.new.word) }
    {
        let step = least_step(alloc, self.src, &self.set)?;
        self.word.add(step.cell)?;
        self.set = step.set;
        Ok(())
    }
}
