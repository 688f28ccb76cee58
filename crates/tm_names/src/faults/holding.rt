ghost use Rattle.std.specs.Prelude.{◌≡◌, ◌++◌, IfOk, OnOk, Some, filter_map, flat_map};
ghost use Rattle.std.specs.List.{enumerate_from};
ghost use Rattle.tm_names.specs.Held.{argument_held, decl_held, definition_flags, definition_number, flags_of, held_in, is_number_among, is_open, parameter_flags, parameter_number, variant_held};
ghost use Rattle.tm_names.specs.Holding.{is_holder};
ghost use Rattle.tm_names.specs.Source.{names_in};

use crate::adding::add;
use crate::faults::closure::{bit, row_at};
use crate::file::File;
use crate::meaning::Meaning;
use std::alloc::Global;
use tm_base::{List, Memory, Wrapper};
use tm_parse::{Decl, DeclVariant, Expr};

/// Whether a wrapper holds its argument.
fn is_holder(wrapper: Wrapper) -> bool
    ensures { result ≡ is_holder wrapper }
{
    !matches!(wrapper, Wrapper::PhantomData)
}

/// Whether a definition is meant that holds its own parameter of a number.
fn is_open(own: &[List<bool>], meaning: Meaning, number: usize) -> bool
    ensures { result ≡ is_open own.now (Some meaning) number }
{
    match meaning {
        Meaning::Definition(definition) => bit(row_at(own, definition), number),
        Meaning::Parameter(_) => false,
    }
}

/// What tells which types hold what: a file, the flags that tell which definition holds which of its own
/// parameters, and the type parameters in sight.
#[derive(Clone, Copy)]
struct Holding<'d, 'a> {
    file: File<'d, 'a>,
    own: &'d [List<bool>],
    types: &'d [u32],
}

impl Holding<'_, '_> {
    /// Puts what a type holds behind the rest.
    #[cycle(holding)]
    #[tactic(auto, unfolding(crate::specs::Held::held_in))]
    fn add_held(&self, found: &mut List<Meaning>, ty: &Expr) -> Result<(), Memory>
        ensures { OnOk result (found.new ≡ found.old ++ held_in (names_in self.now.file.source)
            self.now.file.definitions.now.decls.now self.now.own.now self.now.types.now ty.now) }
    {
        match ty {
            Expr::Prim(_) => Ok(()),
            Expr::Never => Ok(()),
            Expr::Tuple(elements) => self.add_parts(found, elements.as_slice()),
            Expr::Array(element, _) => self.add_held(found, element.get()),
            Expr::NonZero(_) => Ok(()),
            Expr::Wrap(wrapper, argument) => {
                if !is_holder(*wrapper) {
                    return Ok(());
                }
                self.add_held(found, argument.get())
            }
            Expr::Named(place, _, arguments) => {
                let Some(meaning) = self.file.meaning(self.types, *place) else {
                    return Ok(());
                };
                add(found, meaning)?;
                self.add_arguments(found, meaning, arguments.as_slice())
            }
            Expr::Ref(_, _, _) => Ok(()),
        }
    }

    /// Puts what a type's parts hold behind the rest.
    #[cycle(holding)]
    fn add_parts(&self, found: &mut List<Meaning>, parts: &[Expr]) -> Result<(), Memory>
        ensures { OnOk result (found.new ≡ found.old ++ flat_map (held_in
            (names_in self.now.file.source) self.now.file.definitions.now.decls.now
            self.now.own.now self.now.types.now) parts.now) }
    {
        for part in parts {
            self.add_held(found, part)?;
        }
        Ok(())
    }

    /// Puts what those arguments hold behind the rest that are given to a parameter which its definition
    /// holds.
    #[cycle(holding)]
    fn add_arguments(
        &self,
        found: &mut List<Meaning>,
        meaning: Meaning,
        arguments: &[Expr],
    ) -> Result<(), Memory>
        ensures { OnOk result (found.new ≡ found.old ++ flat_map (argument_held
            (names_in self.now.file.source) self.now.file.definitions.now.decls.now
            self.now.own.now self.now.types.now (Some meaning))
            (enumerate_from 0 arguments.now)) }
    {
        for (number, argument) in arguments.iter().enumerate() {
            if is_open(self.own, meaning, number) {
                self.add_held(found, argument)?;
            }
        }
        Ok(())
    }

    /// Puts what the types of a variant's fields hold behind the rest.
    fn add_variant(&self, found: &mut List<Meaning>, variant: &DeclVariant) -> Result<(), Memory>
        ensures { OnOk result (found.new ≡ found.old ++ variant_held
            (names_in self.now.file.source) self.now.file.definitions.now.decls.now
            self.now.own.now self.now.types.now variant.now) }
    {
        for field in variant.fields.as_slice() {
            self.add_held(found, &field.ty)?;
        }
        Ok(())
    }
}

/// The numbers of the definitions among these.
fn definition_numbers(alloc: Global, held: &[Meaning]) -> Result<List<usize>, Memory>
    ensures { IfOk result (λ numbers. numbers ≡ filter_map definition_number held.now) }
{
    let mut numbers = List::new(alloc);
    for meaning in held {
        if let Meaning::Definition(number) = *meaning {
            add(&mut numbers, number)?;
        }
    }
    Ok(numbers)
}

/// The numbers of the parameters among these.
fn parameter_numbers(alloc: Global, held: &[Meaning]) -> Result<List<usize>, Memory>
    ensures { IfOk result (λ numbers. numbers ≡ filter_map parameter_number held.now) }
{
    let mut numbers = List::new(alloc);
    for meaning in held {
        if let Meaning::Parameter(number) = *meaning {
            add(&mut numbers, number)?;
        }
    }
    Ok(numbers)
}

/// Whether a number is one of these.
fn is_number_among(numbers: &[usize], number: usize) -> bool
    ensures { result ≡ is_number_among numbers.now number }
{
    for other in numbers {
        if *other == number {
            return true;
        }
    }
    false
}

/// For each number below a size whether it is one of these.
pub fn flags(alloc: Global, numbers: &[usize], size: usize) -> Result<List<bool>, Memory>
    ensures { IfOk result (λ row. row ≡ flags_of numbers.now size) }
{
    let mut row = List::new(alloc);
    for number in 0..size {
        let held = is_number_among(numbers, number);
        add(&mut row, held)?;
    }
    Ok(row)
}

impl File<'_, '_> {
    /// What the types of a definition's fields hold, where these flags tell which definition holds which of
    /// its own parameters.
    fn held(&self, own: &[List<bool>], decl: &Decl) -> Result<List<Meaning>, Memory>
        ensures { IfOk result (λ found. found ≡ decl_held (names_in self.now.source)
            self.now.definitions.now.decls.now own.now decl.now) }
    {
        let holding = Holding {
            file: *self,
            own,
            types: decl.type_params.as_slice(),
        };
        let mut found = List::new(self.alloc);
        for variant in decl.variants.as_slice() {
            holding.add_variant(&mut found, variant)?;
        }
        Ok(found)
    }

    /// For each parameter of a definition whether the types of its fields hold it.
    pub fn parameter_flags(&self, own: &[List<bool>], decl: &Decl) -> Result<List<bool>, Memory>
        ensures { IfOk result (λ row. row ≡ parameter_flags (names_in self.now.source)
            self.now.definitions.now.decls.now own.now decl.now) }
    {
        if decl.type_params.len() == 0 {
            return Ok(List::new(self.alloc));
        }
        let held = self.held(own, decl)?;
        let numbers = parameter_numbers(self.alloc, held.as_slice())?;
        flags(self.alloc, numbers.as_slice(), decl.type_params.len())
    }

    /// For each definition whether the types of this one's fields hold it.
    pub fn definition_flags(&self, own: &[List<bool>], decl: &Decl) -> Result<List<bool>, Memory>
        ensures { IfOk result (λ row. row ≡ definition_flags (names_in self.now.source)
            self.now.definitions.now.decls.now own.now decl.now) }
    {
        let held = self.held(own, decl)?;
        let numbers = definition_numbers(self.alloc, held.as_slice())?;
        flags(self.alloc, numbers.as_slice(), self.definitions.decls.len())
    }
}
