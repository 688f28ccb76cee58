//! Types and cells, side by side.
ghost use Rattle.std.specs.Prelude.{◌≡◌};
ghost use Rattle.tm_base.specs.Layout.{size_of};
ghost use Rattle.tm_base.specs.Tables.{expanded_in};
ghost use Rattle.tm_base.specs.Worlds.{tables_of};
ghost use Rattle.tm_check.specs.Begins.{begins, times_begin};
ghost use Rattle.tm_layout.specs.LaidOut.{IsLaidOut};
ghost use Rattle.tm_check.specs.Runs.{word_of};
ghost use Rattle.tm_layout.specs.Made.{IsMadeFor};

use crate::number::{nonzero, primitive};
use crate::reference::reference;
use crate::run::Run;
use crate::wrappers::takes_besides;
use tm_base::{Ground, RefTest, World, Wrapper};
use tm_layout::Layouts;

/// What the cells of a world's types are matched by.
#[derive(Drop)]
pub struct Matcher<'a, M> {
    pub world: &'a World,
    pub layouts: &'a Layouts,
    pub refs: &'a M,
    /// Private types keep their values.
    pub keep_private: bool,
    // The layouts are those of the world.
    pub ghost made: { IsMadeFor (tables_of world.now) layouts.now },
}

impl<M: RefTest> Matcher<'_, M> {
    /// The size of a type, in bytes.
    pub fn size(&self, g: &Ground) -> u32
        requires { IsLaidOut (tables_of self.now.world.now) g.now }
        ensures { result ≡ size_of (expanded_in (tables_of self.now.world.now) g.now) }
    {
        match self.layouts.of(g) {
            Ok(layout) => layout.size,
            Err(_) => unreachable!(),
        }
    }

    /// Whether cells begin a value of the type, where there are no more of them than it has bytes.
    #[cycle(matching)]
    pub fn begins(&self, g: &Ground, run: Run<'_>) -> bool
        requires { IsLaidOut (tables_of self.now.world.now) g.now }
        ensures { let part = expanded_in (tables_of self.now.world.now) in
            result ≡ begins (M.test self.now.refs.now) self.now.keep_private
            (part g.now) (word_of run.entry) }
    {
        match g {
            Ground::Never => false,
            Ground::Tuple(_) => false,
            Ground::Unit => true,
            Ground::Prim(p) => primitive(self.world.profile, *p, self.size(g), run),
            Ground::NonZero(_) => nonzero(self.world.profile, self.size(g), run),
            Ground::Ref(id) => reference(self.refs, *id, self.size(g), run),
            Ground::Array(element, count) => self.array(element.get(), *count, run),
            Ground::Wrap(wrapper, argument) => match *wrapper {
                Wrapper::PhantomData => true,
                other => {
                    takes_besides(other, self.size(g), run) || self.begins(argument.get(), run)
                }
            },
            Ground::Named(id) => self.named(*id, run),
        }
    }

    /// Whether cells begin so many elements, one behind another. Of the elements that no cell reaches one is asked
    /// for all.
    #[cycle(matching)]
    fn array(&self, element: &Ground, count: u32, run: Run<'_>) -> bool
        requires { IsLaidOut (tables_of self.now.world.now) element.now }
        ensures { let t = expanded_in (tables_of self.now.world.now) element.now in
            let test = begins (M.test self.now.refs.now) self.now.keep_private t in
            result ≡ times_begin count (size_of t) test (word_of run.entry) }
    {
        let size = self.size(element) as usize;
        let mut left = count;
        let mut rest = run;
        while left > 0 && !rest.is_empty() {
            if !self.begins(element, rest.front(size)) {
                return false;
            }
            left -= 1;
            rest = rest.behind(size);
        }
        left == 0 || self.begins(element, rest)
    }
}
