//! Whether cells are a value, whether they begin one, and whether an answer's bytes bear it out.
ghost use Rattle.std.specs.Prelude.{◌≡◌, ◌↔◌, IsTrue, false};
ghost use Rattle.tm_base.specs.Faults.{has_no_layout};
ghost use Rattle.tm_base.specs.Tables.{expanded_in};
ghost use Rattle.tm_base.specs.Transmutes.{Fits, IsSourceWord, holds};
ghost use Rattle.tm_base.specs.Valid.{Valid};
ghost use Rattle.tm_base.specs.Viable.{RefusesAt, Viable};
ghost use Rattle.tm_base.specs.Worlds.{IsTypeOver, tables_of};
ghost use Rattle.tm_check.specs.Checked.{IsBorneOut, IsRefused, IsTaken};
ghost use Rattle.tm_layout.specs.LaidOut.{IsLaidOut};
ghost use Rattle.tm_check.specs.Runs.{word_of};
ghost use Rattle.tm_layout.specs.Made.{IsMadeFor};

use crate::matcher::Matcher;
use crate::own::OrOwn;
use crate::run::Run;
use tm_base::{Answer, Ask, Cell, Equal, Ground, RefTest, World};
use tm_layout::Layouts;

impl<M: RefTest> Matcher<'_, M> {
    /// Whether the cells are a value of the type.
    fn takes(&self, g: &Ground, run: Run<'_>) -> bool
        requires { IsLaidOut (tables_of self.now.world.now) g.now }
        ensures { let t = expanded_in (tables_of self.now.world.now) g.now in
            IsTrue result
            ↔ Valid (holds (M.test self.now.refs.now)) self.now.keep_private t (word_of run.entry) }
    {
        run.has(self.size(g) as usize) && self.begins(g, run)
    }

    /// Whether some value of the type begins with the cells, where a reference may also hold itself.
    fn goes_on(&self, g: &Ground, run: Run<'_>) -> bool
        requires { IsLaidOut (tables_of self.now.world.now) g.now }
        ensures { let t = expanded_in (tables_of self.now.world.now) g.now in
            IsTrue result
            ↔ Viable (holds (M.test self.now.refs.now)) self.now.keep_private t
            (word_of run.entry) }
    {
        let matcher = Matcher {
            world: self.world,
            layouts: self.layouts,
            refs: &OrOwn { refs: self.refs },
            keep_private: self.keep_private,
        };
        run.is_within(self.size(g) as usize) && matcher.begins(g, run)
    }

    /// Whether the word, fitted to the size of the type, is a value of it.
    fn takes_fitted(&self, g: &Ground, word: &[Cell]) -> bool
        requires { IsLaidOut (tables_of self.now.world.now) g.now }
        ensures { let t = expanded_in (tables_of self.now.world.now) g.now in
            IsTrue result ↔ Fits
            (holds (M.test self.now.refs.now)) self.now.keep_private t word.now }
    {
        self.takes(g, Run::fit(word, self.size(g) as usize))
    }

    /// Whether the type, as a target, goes along with so many cells of the word, fitted, and not with one more.
    fn refuses_at(&self, g: &Ground, word: &[Cell], offset: u32) -> bool
        requires { IsLaidOut (tables_of self.now.world.now) g.now }
        ensures { let t = expanded_in (tables_of self.now.world.now) g.now in
            IsTrue result
            ↔ RefusesAt (holds (M.test self.now.refs.now)) self.now.keep_private t word.now offset }
    {
        if offset >= self.size(g) {
            return false;
        }
        let goes = offset as usize;
        self.goes_on(g, Run::fit(word, goes)) && !self.goes_on(g, Run::fit(word, goes + 1))
    }
}

/// Whether the cells are a value of the type as a source, whose references hold themselves.
fn is_value(world: &World, layouts: &Layouts, g: &Ground, word: &[Cell]) -> bool
    requires made { IsMadeFor (tables_of world.now) layouts.now }
    requires laid_out { IsLaidOut (tables_of world.now) g.now }
    ensures { IsTrue result ↔ IsSourceWord (expanded_in (tables_of world.now) g.now) word.now }
{
    let source = Matcher {
        world,
        layouts,
        refs: &Equal,
        keep_private: true,
    };
    source.takes(g, Run::of(word))
}

impl<M: RefTest> Matcher<'_, M> {
    /// Whether the word is one of the question's source, and the target takes it.
    fn accepts(&self, ask: &Ask, word: &[Cell]) -> bool
        requires source { IsLaidOut (tables_of self.now.world.now) ask.now.src }
        requires target { IsLaidOut (tables_of self.now.world.now) ask.now.dst }
        requires safety { self.now.keep_private ≡ ask.now.assume.safety }
        ensures { IsTrue result
            ↔ IsTaken (holds (M.test self.now.refs.now)) (tables_of self.now.world.now)
            ask.now word.now }
    {
        is_value(self.world, self.layouts, &ask.src, word) && self.takes_fitted(&ask.dst, word)
    }

    /// Whether the word is one of the question's source, and the target refuses it at the offset.
    fn refuses(&self, ask: &Ask, word: &[Cell], offset: u32) -> bool
        requires source { IsLaidOut (tables_of self.now.world.now) ask.now.src }
        requires target { IsLaidOut (tables_of self.now.world.now) ask.now.dst }
        requires safety { self.now.keep_private ≡ ask.now.assume.safety }
        ensures { IsTrue result
            ↔ IsRefused (holds (M.test self.now.refs.now)) (tables_of self.now.world.now)
            ask.now word.now offset }
    {
        is_value(self.world, self.layouts, &ask.src, word)
            && self.refuses_at(&ask.dst, word, offset)
    }
}

/// Whether the cells are a value of the type, where `refs` says which values its references may hold, and private
/// types keep theirs or have none.
pub fn valid<M: RefTest>(
    world: &World,
    layouts: &Layouts,
    refs: &M,
    keep_private: bool,
    g: &Ground,
    cells: &[Cell],
) -> bool
    requires made { IsMadeFor (tables_of world.now) layouts.now }
    requires over { IsTypeOver (tables_of world.now) g.now }
    requires judged { has_no_layout (expanded_in (tables_of world.now) g.now) ≡ false }
    ensures exact { let t = expanded_in (tables_of world.now) g.now in
        IsTrue result ↔ Valid (holds (M.test refs.now)) keep_private t cells.now }
{
    let matcher = Matcher {
        world,
        layouts,
        refs,
        keep_private,
    };
    matcher.takes(g, Run::of(cells))
}

/// Whether some value of the type begins with the cells, where a reference may also hold itself, as a place that no
/// source fills yet.
pub fn viable<M: RefTest>(
    world: &World,
    layouts: &Layouts,
    refs: &M,
    keep_private: bool,
    g: &Ground,
    prefix: &[Cell],
) -> bool
    requires made { IsMadeFor (tables_of world.now) layouts.now }
    requires over { IsTypeOver (tables_of world.now) g.now }
    requires judged { has_no_layout (expanded_in (tables_of world.now) g.now) ≡ false }
    ensures exact { let t = expanded_in (tables_of world.now) g.now in
        IsTrue result ↔ Viable (holds (M.test refs.now)) keep_private t prefix.now }
{
    let matcher = Matcher {
        world,
        layouts,
        refs,
        keep_private,
    };
    matcher.goes_on(g, Run::of(prefix))
}

/// Whether the bytes of an answer bear it out, where `refs` says which references of the source may be taken as which
/// of the target: its word is one of the source, and the target takes it, or refuses it at the offset. An answer
/// without bytes has nothing to check.
pub fn check<M: RefTest>(
    world: &World,
    layouts: &Layouts,
    refs: &M,
    ask: &Ask,
    answer: &Answer,
) -> bool
    requires made { IsMadeFor (tables_of world.now) layouts.now }
    requires source_over { IsTypeOver (tables_of world.now) ask.now.src }
    requires target_over { IsTypeOver (tables_of world.now) ask.now.dst }
    requires source_judged { let part = expanded_in (tables_of world.now) in
        has_no_layout (part ask.now.src) ≡ false }
    requires target_judged { let part = expanded_in (tables_of world.now) in
        has_no_layout (part ask.now.dst) ≡ false }
    ensures exact { IsTrue result
        ↔ IsBorneOut (holds (M.test refs.now)) (tables_of world.now) ask.now answer.now }
{
    let target = Matcher {
        world,
        layouts,
        refs,
        keep_private: ask.assume.safety,
    };
    match answer {
        Answer::YesBecause(word) => { ask.assume.validity && target.accepts(ask, word.as_slice()) }
        Answer::NoAt(_, offset, word, _) => {
            !ask.assume.validity && target.refuses(ask, word.as_slice(), *offset)
        }
        _ => true,
    }
}
