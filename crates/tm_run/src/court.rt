ghost use Rattle.std.specs.Prelude.{◌≡◌, ◌<◌, ◌≤◌, IfErr, IfNone, IfOk, IfSome};
ghost use Rattle.tm_base.specs.Answers.{IsAnswer};
ghost use Rattle.tm_base.specs.Worlds.{IsTypeOver, tables_of};
ghost use Rattle.tm_layout.specs.Made.{IsMadeFor};
ghost use Rattle.tm_refute.specs.Chosen.{IsRefutable, IsRefutationOf};
ghost use Rattle.tm_refute.specs.TextForms.{cells_of, most_cells_together};
ghost use Rattle.tm_refute.specs.declared.refutation.Refutation.{Refutation};
ghost use Rattle.tm_refute.specs.declared.stop.RefuteErr.TheVariants.{TooLong};

mod solved;

use crate::court::solved::place_for;
use crate::kinds::is_yes;
use std::alloc::Global;
use std::marker::Model;
use std::sync::ledger::{Blank, Ledger};
use tm_base::{Answer, Ask, AskYes, Memory, Steps, World};
use tm_judge::{judge_values, refusal};
use tm_layout::Layouts;
use tm_refs::{Compat, holds_reference};
use tm_refute::{Refutation, RefuteErr, refute};
use tm_region::Order;

/// All that the questions of a world are judged by. Contracts see it as the world's tables.
#[derive(Drop)]
pub struct Court<'a, L: Ledger> {
    world: &'a World,
    layouts: &'a Layouts,
    order: Order,
    /// Tables of the world's references, each made when it was first asked for.
    solved: Vec<Compat>,
    steps: Steps<L>,
}

impl<'a, L: Ledger> Model for Court<'a, L> {
    ghost use Rattle.std.specs.Coded.{codes};
    ghost use Rattle.tm_base.specs.contracts.ground.Ground as ground;
    ghost use Rattle.tm_base.specs.Tables.{Tables};
    ghost use Rattle.tm_base.specs.Worlds.{tables_of};
    ghost use Rattle.tm_run.specs.Courts.{IsCourt};

    ghost Value = { Tables };

    ghost coded = { Prim.hlevel (codes, ground.the_row.coded) };

    ghost view = { λ court. tables_of court.world.now };

    ghost invariant = { λ court. IsCourt (tables_of court.world.now) court.layouts.now court.order
        court.solved.items };
}

impl<'a, L: Ledger> Court<'a, L> {
    /// The court of a world, whose steps are counted from a blank.
    pub fn new(
        alloc: Global,
        world: &'a World,
        layouts: &'a Layouts,
        blank: Blank,
    ) -> Result<Court<'a, L>, Memory>
        requires made { IsMadeFor (tables_of world.now) layouts.now }
        requires name { blank.name ≡ L.name }
        requires parts { blank.parts ≡ L.parts }
        requires some { 0 < L.parts }
        ensures { IfOk result (λ court. court ≡ tables_of world.now) }
    {
        Ok(Court {
            world,
            layouts,
            order: Order::new(alloc, world)?,
            solved: Vec::new(alloc),
            steps: Steps::new(blank),
        })
    }

    /// The answer to a question. Only where it isn't refused, and its target holds a reference, is
    /// there a table of references.
    pub fn answer(&mut self, alloc: Global, ask: &Ask) -> Result<Answer, Memory>
        requires source { IsTypeOver self.old ask.now.src }
        requires target { IsTypeOver self.old ask.now.dst }
        ensures answer { IfOk result (IsAnswer self.old ask.now) }
        ensures world { self.new ≡ self.old }
    {
        if let Some(answer) = refusal(alloc, self.world, self.layouts, ask)? {
            return Ok(answer);
        }
        if !holds_reference(self.world, &ask.dst) {
            let empty = Compat::empty(alloc, ask.assume);
            return judge_values(
                alloc,
                self.world,
                self.layouts,
                &empty,
                ask,
                &mut self.steps,
            );
        }
        let place = place_for(
            alloc,
            self.world,
            self.layouts,
            &self.order,
            &mut self.solved,
            ask.assume,
            &mut self.steps,
        )?;
        judge_values(
            alloc,
            self.world,
            self.layouts,
            &self.solved[place],
            ask,
            &mut self.steps,
        )
    }
}

impl<'a, L: Ledger> Court<'a, L> {
    /// The refutation of a question; `None` where it has none.
    pub fn refutation(&mut self, alloc: Global, ask: &Ask) -> Result<Option<Refutation>, RefuteErr>
        requires source { IsTypeOver self.old ask.now.src }
        requires target { IsTypeOver self.old ask.now.dst }
        ensures some { IfOk result (λ found. IfSome found (IsRefutationOf self.old ask.now)) }
        ensures short { IfOk result
            (λ found. IfSome found (λ x. cells_of x ≤ most_cells_together)) }
        ensures none { IfOk result (λ found. IfNone found (¬ IsRefutable self.old ask.now)) }
        ensures long { IfErr result (λ error. error ≡ TooLong
            → (x : Refutation) × IsRefutationOf self.old ask.now x
            × (most_cells_together < cells_of x)) }
        ensures world { self.new ≡ self.old }
    {
        let place = place_for(
            alloc,
            self.world,
            self.layouts,
            &self.order,
            &mut self.solved,
            ask.assume,
            &mut self.steps,
        )?;
        refute(
            alloc,
            self.world,
            self.layouts,
            &self.order,
            &self.solved[place],
            ask,
        )
    }
}

impl<'a, L: Ledger> AskYes for Court<'a, L> {
    ghost told = { λ court. court };

    fn yes(&mut self, alloc: Global, ask: &Ask) -> Result<bool, Memory> {
        let answer = self.answer(alloc, ask)?;
        Ok(is_yes(&answer))
    }
}
