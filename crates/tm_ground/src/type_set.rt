ghost use Rattle.std.specs.Prelude.{◌≡◌, ◌∷◌, ◌++◌, [], Some, map};
ghost use Rattle.std.specs.Prelude.{Contains, IfSome, IfNone, IfOk, OnOk, slice_get};
ghost use Rattle.tm_base.specs.Whole.{AreDistinct};
ghost use Rattle.tm_ground.specs.Closed.{closed, put_in};
ghost use Rattle.tm_ground.specs.Codes.{code_of};
ghost use Rattle.tm_ground.specs.Growing.{Adding};
ghost use Rattle.tm_ground.specs.Sets.{closed_types};

use crate::code::Code;
use crate::regions::fixed;
use crate::stop::Stop;
use indexmap::IndexSet;
use std::alloc::Global;
use std::marker::Model;
use tm_base::{List, Memory, RegionId};
use tm_names::Open;

/// Closed types, each once, in the order in which they came. Contracts see the list of them.
///
/// The code of each type stands at its place among the keys.
#[derive(Debug, Drop)]
pub struct TypeSet {
    keys: IndexSet<Code>,
    types: List<Open>,
}

impl Model for TypeSet {
    ghost use Rattle.std.specs.Coded.{codes};
    ghost use Rattle.std.specs.Prelude.{List};
    ghost use Rattle.tm_names.specs.contracts.resolved.Open as written;
    ghost use Rattle.tm_names.specs.declared.resolved.Open.{Open};
    ghost use Rattle.tm_ground.specs.Codes.{AreCodes};
    ghost use Rattle.tm_ground.specs.Sets.{closed_types};

    ghost Value = { List Open };

    ghost coded = { Prim.hlevel (codes, written.the_row.coded) };

    ghost view = { λ set. set.types };

    ghost invariant = { λ set. AreCodes set.keys.keys (closed_types set.types) };
}

impl TypeSet {
    /// No types.
    pub fn new(alloc: Global) -> TypeSet
        ensures { closed_types result ≡ [] }
    {
        TypeSet {
            keys: IndexSet::new(alloc),
            types: List::new(alloc),
        }
    }

    /// The types, in their order.
    pub fn types(&self) -> &[Open]
        ensures { closed_types result.now ≡ closed_types self.now }
    {
        self.types.as_slice()
    }

    /// Where the type of a code stands; `None` exactly where it isn't among these.
    fn place(&self, code: &Code) -> Option<usize>
        ensures found { IfSome result (λ place.
            slice_get (map code_of (closed_types self.now)) place ≡ Some code.now.numbers.items) }
        ensures absent { IfNone result
            (¬ Contains (map code_of (closed_types self.now)) code.now.numbers.items) }
    {
        self.keys.get_index_of(code)
    }

    /// Where a type with its regions and arguments put in stands; `None` exactly where it isn't among these.
    pub fn place_of(
        &self,
        alloc: Global,
        regions: &[RegionId],
        args: &[Open],
        ty: &Open,
    ) -> Result<Option<usize>, Memory>
        ensures found { IfOk result (λ place. IfSome place (λ k. slice_get (closed_types self.now) k
            ≡ Some (put_in regions.now (closed_types args.now) ty.now))) }
        ensures absent { IfOk result (λ place. IfNone place
            (¬ Contains (closed_types self.now)
            (put_in regions.now (closed_types args.now) ty.now))) }
    {
        let code = Code::of(alloc, regions, args, ty)?;
        Ok(self.place(&code))
    }

    /// Adds a type where it isn't among these, as long as there are no more than so many.
    pub fn insert(&mut self, alloc: Global, limit: usize, ty: &Open) -> Result<(), Stop>
        ensures { Adding limit (closed_types self.old) (closed ty.now ∷ [])
            (closed_types self.new) result }
    {
        let Ok(code) = Code::of(alloc, &[], &[], ty) else {
            return Err(Stop::Memory);
        };
        match self.place(&code) {
            Some(_) => return Ok(()),
            None => {}
        }
        if self.types.len() == limit {
            return Err(Stop::Full);
        }
        let Ok(copy) = fixed(alloc, &[], &[], ty) else {
            return Err(Stop::Memory);
        };
        match self.push(code, copy) {
            Ok(()) => Ok(()),
            Err(_) => Err(Stop::Memory),
        }
    }

    /// Puts a type with its code behind the others, where it isn't among these. Where memory is wanting,
    /// the types stay as they were.
    fn push(&mut self, code: Code, ty: Open) -> Result<(), Memory>
        requires code { code.numbers.items ≡ code_of (closed ty) }
        requires absent { ¬ Contains (map code_of (closed_types self.old)) code.numbers.items }
        ensures { OnOk result (closed_types self.new ≡ closed_types self.old ++ closed ty ∷ []) }
    {
        self.keys.insert(code)?;
        match self.types.push(ty) {
            Ok(()) => Ok(()),
            Err(_) => {
                self.keys.pop();
                Err(Memory)
            }
        }
    }

    /// Types of which no two are one, in this order.
    pub fn of(alloc: Global, types: List<Open>) -> Result<TypeSet, Memory>
        requires { AreDistinct (closed_types types) }
        ensures { IfOk result (λ set. closed_types set ≡ closed_types types) }
    {
        let mut keys = IndexSet::new(alloc);
        for ty in types.as_slice() {
            keys.insert(Code::of(alloc, &[], &[], ty)?)?;
        }
        Ok(TypeSet { keys, types })
    }
}
