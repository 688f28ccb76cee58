ghost use Rattle.std.specs.Prelude.{◌≡◌, IfOk};
ghost use Rattle.std.specs.List.{list_any};
ghost use Rattle.tm_ground.specs.Depths.{TellDepths, TellsDepth, TellsNext, flag_at, is_ask_deep, is_deep, is_row_deep, is_some_deep, next_flag, passes_by, row_passes};
ghost use Rattle.tm_ground.specs.Limits.{depth_limit};
ghost use Rattle.tm_ground.specs.Found.{AreRowsOfAll};
ghost use Rattle.tm_names.specs.declared.resolved.Resolved.{Resolved};
ghost use Rattle.tm_ground.specs.Occurs.{is_holding};

use crate::limits::depth_limit;
use crate::rows::Rows;
use std::alloc::Global;
use tm_base::{Ask, Ground, List, Memory, NamedRow, Wrapper};

/// Whether a wrapper holds its argument by value.
fn is_holding(wrapper: Wrapper) -> bool
    ensures { result ≡ is_holding wrapper }
{
    match wrapper {
        Wrapper::PhantomData => false,
        Wrapper::Option | Wrapper::MaybeUninit | Wrapper::ManuallyDrop => true,
        Wrapper::Wrapping | Wrapper::Cell | Wrapper::UnsafeCell => true,
    }
}

/// How deep the named types are.
///
/// The table at a number says of each whether its depth passes one more than the number. Past the last table none does.
#[derive(Drop)]
struct Depths {
    tables: List<List<bool>>,
}

impl Depths {
    /// The depths of the types of these rows, by tables up to the first that says `false` of all of them.
    fn of(alloc: Global, named: &[NamedRow]) -> Result<Depths, Memory>
        ensures { IfOk result (λ depths. TellDepths named.now depth_limit depths.tables) }
    {
        let mut depths = Depths {
            tables: List::new(alloc),
        };
        for number in 0..depth_limit() {
            let table = depths.next_table(alloc, number, named)?;
            if !table.as_slice().contains(&true) {
                return Ok(depths);
            }
            depths.tables.add(table)?;
        }
        Ok(depths)
    }

    /// The next table: whether the depth of each named type passes one more than a number.
    fn next_table(
        &self,
        alloc: Global,
        number: usize,
        named: &[NamedRow],
    ) -> Result<List<bool>, Memory>
        requires { TellDepths named.now number self.now.tables }
        ensures { IfOk result (TellsNext named.now number) }
    {
        let mut table = List::new(alloc);
        for row in named {
            let flag = self.next_flag(number, table.len(), row);
            table.add(flag)?;
        }
        Ok(table)
    }

    /// The flag of a named type in the next table. A type whose depth doesn't pass the number itself isn't looked at.
    fn next_flag(&self, number: usize, place: usize, row: &NamedRow) -> bool
        ensures { result ≡ next_flag self.now.tables number place row.now }
    {
        (number == 0 || self.flag(number - 1, place)) && self.some_field_passes(number, row)
    }

    /// What the table at a place says of a named type; `false` where there is no such table.
    fn flag(&self, place: usize, named: usize) -> bool
        ensures { result ≡ flag_at self.now.tables place named }
    {
        let Some(table) = self.tables.get(place) else {
            return false;
        };
        table.get(named) == Some(&true)
    }

    /// Whether the depth by value of a field of a named type passes a number.
    fn some_field_passes(&self, number: usize, row: &NamedRow) -> bool
        ensures { result ≡ row_passes self.now.tables number row.now }
    {
        row.types
            .as_slice()
            .iter()
            .any(|types| self.some_passes(number, types.as_slice()))
    }

    /// Whether the depth by value of a type passes a number.
    #[cycle(passes)]
    fn passes(&self, number: usize, ty: &Ground) -> bool
        ensures { result ≡ passes_by self.now.tables number ty.now }
    {
        if number == 0 {
            return true;
        }
        match ty {
            Ground::Tuple(elements) => self.some_passes(number - 1, elements.as_slice()),
            Ground::Array(element, _) => self.passes(number - 1, element.get()),
            Ground::Wrap(wrapper, argument) => {
                is_holding(*wrapper) && self.passes(number - 1, argument.get())
            }
            Ground::Named(id) => self.flag(number - 1, id.0 as usize),
            Ground::Prim(_) | Ground::Never | Ground::Unit => false,
            Ground::NonZero(_) | Ground::Ref(_) => false,
        }
    }

    /// Whether the depth by value of one of some types passes a number.
    #[cycle(passes)]
    fn some_passes(&self, number: usize, types: &[Ground]) -> bool
        ensures { result ≡ list_any (passes_by self.now.tables number) types.now }
    {
        for ty in types {
            if self.passes(number, ty) {
                return true;
            }
        }
        false
    }

    /// Whether a type, or one that is written in it, is deeper than a type may be.
    #[cycle(is_deep)]
    fn is_deep(&self, ty: &Ground) -> bool
        ensures { result ≡ is_deep self.now.tables ty.now }
    {
        if self.passes(depth_limit(), ty) {
            return true;
        }
        match ty {
            Ground::Tuple(elements) => self.are_deep(elements.as_slice()),
            Ground::Array(part, _) | Ground::Wrap(_, part) => self.is_deep(part.get()),
            Ground::Prim(_) | Ground::Never | Ground::Unit => false,
            Ground::Named(_) | Ground::NonZero(_) | Ground::Ref(_) => false,
        }
    }

    /// Whether one of some types, or one that is written in them, is deeper than a type may be.
    #[cycle(is_deep)]
    fn are_deep(&self, types: &[Ground]) -> bool
        ensures { result ≡ list_any (is_deep self.now.tables) types.now }
    {
        for ty in types {
            if self.is_deep(ty) {
                return true;
            }
        }
        false
    }

    /// Whether an argument or a field of a named type is so.
    fn is_row_deep(&self, row: &NamedRow) -> bool
        ensures { result ≡ is_row_deep self.now.tables row.now }
    {
        self.are_deep(row.args.as_slice())
            || row
                .types
                .as_slice()
                .iter()
                .any(|types| self.are_deep(types.as_slice()))
    }

    /// Whether a side of a question is so.
    fn is_ask_deep(&self, ask: &Ask) -> bool
        ensures { result ≡ is_ask_deep self.now.tables ask.now }
    {
        self.is_deep(&ask.src) || self.is_deep(&ask.dst)
    }

    /// Whether one of the types of some rows and questions is so.
    fn is_some_deep(&self, rows: &Rows) -> bool
        ensures { result
            ≡ is_some_deep self.now.tables rows.now.named rows.now.refs rows.now.questions }
    {
        let named = rows.named.as_slice();
        let refs = rows.refs.as_slice();
        let questions = rows.questions.as_slice();
        named.iter().any(|row| self.is_row_deep(row))
            || refs.iter().any(|row| self.is_deep(&row.pointee))
            || questions.iter().any(|ask| self.is_ask_deep(ask))
    }
}

/// Whether some type that occurs is deeper than a type may be, by the rows of all that occur.
pub fn is_too_deep(alloc: Global, rows: &Rows) -> Result<bool, Memory>
    ensures { IfOk result (λ deep.
        (resolved : Resolved) → AreRowsOfAll resolved rows.now → TellsDepth resolved deep) }
{
    let depths = Depths::of(alloc, rows.named.as_slice())?;
    Ok(depths.is_some_deep(rows))
}
