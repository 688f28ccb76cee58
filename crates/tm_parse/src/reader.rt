ghost use Rattle.std.specs.Prelude.{◌≡◌, ◌∷◌, []};
ghost use Rattle.tm_parse.specs.Combinators.{starts, to};
ghost use Rattle.tm_parse.specs.Counting.{none_yet};
ghost use Rattle.tm_parse.specs.Reads.{Begins, Reads};
ghost use Rattle.tm_parse.specs.Shapes.{any, is_there, optional, the};

mod attributes;
mod definitions;
mod fields;
mod items;
mod names;
mod numbers;
mod parameters;
mod questions;
mod rule;
mod type_lists;
mod types;
mod variants;

use crate::class::Class;
use crate::counts::Counts;
use crate::mark::Mark;
use crate::stop::Stop;
use crate::terminal::Terminal;
use std::alloc::Global;
use tm_base::LimitKind;

/// A place in a file, from which the rules of the grammar are read.
///
/// `counts` is what was counted before it, and `rest` the terminals behind it. A rule that was read moves
/// the reader behind its last terminal; one that wasn't leaves it at the terminal where it stopped.
#[derive(Drop)]
pub struct Reader<'a> {
    pub alloc: Global,
    pub counts: Counts,
    pub rest: &'a [Terminal],
}

impl<'a> Reader<'a> {
    /// A reader at the beginning of a file.
    pub fn new(alloc: Global, terminals: &'a [Terminal]) -> Reader<'a>
        ensures counts { result.counts ≡ none_yet }
        ensures rest { result.rest.now ≡ terminals.now }
    {
        Reader {
            alloc,
            counts: Counts::none_yet(),
            rest: terminals,
        }
    }

    /// Whether a terminal of this class comes next.
    pub fn is_next(&self, class: Class) -> bool
        ensures { result ≡ starts (class ∷ []) self.now.rest.now }
    {
        self.is_any_next(&[class])
    }

    /// Whether a terminal of one of these classes comes next.
    pub fn is_any_next(&self, classes: &[Class]) -> bool
        ensures { result ≡ starts classes.now self.now.rest.now }
    {
        match self.rest {
            [] => false,
            [terminal, ..] => terminal.class.is_among(classes),
        }
    }

    /// One terminal of this class.
    pub fn take(&mut self, class: Class) -> Result<Terminal, Stop>
        ensures { Reads (the class) self.old self.new result }
    {
        self.take_any(&[class])
    }

    /// One terminal of any of these classes.
    #[tactic(auto, unfolding(crate::specs::Counting::step))]
    pub fn take_any(&mut self, classes: &[Class]) -> Result<Terminal, Stop>
        ensures { Reads (any classes.now) self.old self.new result }
    {
        match self.rest {
            [] => Err(Stop::Stuck),
            [terminal, rest @ ..] => {
                if !terminal.class.is_among(classes) {
                    return Err(Stop::Stuck);
                }
                if terminal.is_name_too_long() {
                    return Err(Stop::Passed(LimitKind::NameBytes));
                }
                self.rest = rest;
                Ok(*terminal)
            }
        }
    }

    /// One terminal of this class where one comes next: whether it was there.
    pub fn accept(&mut self, class: Class) -> Result<bool, Stop>
        ensures { Reads (to is_there (optional (the class))) self.old self.new result }
    {
        if !self.is_next(class) {
            return Ok(false);
        }
        self.take(class)?;
        Ok(true)
    }

    /// Counts what begins here, if it does.
    pub fn begin(&mut self, begins: bool, mark: Mark) -> Result<(), Stop>
        ensures { Begins begins mark self.old self.new result }
    {
        if !begins {
            return Err(Stop::Stuck);
        }
        match self.counts.with(mark) {
            Ok(counts) => {
                self.counts = counts;
                Ok(())
            }
            Err(kind) => Err(Stop::Passed(kind)),
        }
    }
}
