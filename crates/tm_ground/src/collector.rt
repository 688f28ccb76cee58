ghost use Rattle.std.specs.Prelude.{◌≡◌, ◌∷◌, [], true, map};
ghost use Rattle.tm_ground.specs.Closed.{closed, put_in};
ghost use Rattle.tm_ground.specs.Collecting.{AreSmall, Closing, Collecting, Finding, IsEmpty};
ghost use Rattle.tm_ground.specs.Limits.{is_named, is_ref};
ghost use Rattle.tm_ground.specs.Occurs.{all_fields, asked_in, inside_of, is_small, sides_of};
ghost use Rattle.tm_ground.specs.Sets.{closed_types};

use crate::fields::written_fields;
use crate::found::Found;
use crate::limits::{ref_limit, type_limit};
use crate::nodes::is_small;
use crate::regions::{fixed, regions};
use crate::stop::Stop;
use crate::type_set::TypeSet;
use crate::written::{is_named, is_ref, parts};
use std::alloc::Global;
use tm_base::{List, RegionId};
use tm_names::{Open, OpenAsk, Resolved};

/// The types found so far, and which limits are passed.
#[derive(Debug, Drop)]
pub struct Collector {
    /// The named types, and the reference types.
    pub found: Found,
    /// Some type has more nodes than a type may have.
    pub big: bool,
    /// There are more reference types than there may be.
    pub many_refs: bool,
}

impl Collector {
    /// Nothing is found.
    pub fn new(alloc: Global) -> Collector
        ensures { IsEmpty result }
    {
        Collector {
            found: Found {
                named: TypeSet::new(alloc),
                refs: TypeSet::new(alloc),
            },
            big: false,
            many_refs: false,
        }
    }

    /// Adds a reference type, or notes that there are more of them than may be.
    fn add_ref(&mut self, alloc: Global, ty: &Open) -> Result<(), Stop>
        requires { is_ref (closed ty.now) ≡ true }
        ensures { Finding (closed ty.now) self.old self.new result }
    {
        if self.many_refs {
            return Ok(());
        }
        match self.found.refs.insert(alloc, ref_limit(), ty) {
            Ok(()) => Ok(()),
            Err(Stop::Full) => {
                self.many_refs = true;
                Ok(())
            }
            Err(Stop::Memory) => Err(Stop::Memory),
        }
    }

    /// Adds a type itself, where it is a named type or a reference type.
    fn add_own(&mut self, alloc: Global, ty: &Open) -> Result<(), Stop>
        requires { is_small (closed ty.now) ≡ true }
        ensures { Finding (closed ty.now) self.old self.new result }
    {
        if is_ref(ty) {
            return self.add_ref(alloc, ty);
        }
        if is_named(ty) {
            return self.found.named.insert(alloc, type_limit(), ty);
        }
        Ok(())
    }

    /// Adds what is written in a type that has no more nodes than it may.
    #[cycle(add_written)]
    fn add_written(&mut self, alloc: Global, ty: &Open) -> Result<(), Stop>
        requires { is_small (closed ty.now) ≡ true }
        ensures { Collecting (closed ty.now ∷ []) self.old self.new result }
    {
        match self.add_own(alloc, ty) {
            Ok(()) => self.add_all_written(alloc, parts(ty)),
            Err(stop) => Err(stop),
        }
    }

    /// Adds what is written in types that have no more nodes than they may.
    #[cycle(add_written)]
    fn add_all_written(&mut self, alloc: Global, types: &[Open]) -> Result<(), Stop>
        requires { AreSmall (closed_types types.now) }
        ensures { Collecting (closed_types types.now) self.old self.new result }
    {
        for item in types {
            match self.add_written(alloc, item) {
                Ok(()) => {}
                Err(stop) => return Err(stop),
            }
        }
        Ok(())
    }

    /// Adds what is written in a type with its regions and arguments put in, or notes that it has too many
    /// nodes.
    fn add(
        &mut self,
        alloc: Global,
        regions: &[RegionId],
        args: &[Open],
        written: &Open,
    ) -> Result<(), Stop>
        ensures { Collecting (put_in regions.now (closed_types args.now) written.now ∷ [])
            self.old self.new result }
    {
        if !is_small(args, written) {
            self.big = true;
            return Ok(());
        }
        let Ok(ty) = fixed(alloc, regions, args, written) else {
            return Err(Stop::Memory);
        };
        self.add_written(alloc, &ty)
    }

    /// Adds what is written in types with their regions and arguments put in.
    fn add_all(
        &mut self,
        alloc: Global,
        regions: &[RegionId],
        args: &[Open],
        types: &[Open],
    ) -> Result<(), Stop>
        ensures { Collecting (map (put_in regions.now (closed_types args.now)) types.now)
            self.old self.new result }
    {
        for item in types {
            match self.add(alloc, regions, args, item) {
                Ok(()) => {}
                Err(stop) => return Err(stop),
            }
        }
        Ok(())
    }

    /// Adds what is written in the fields of variants with their regions and arguments put in.
    fn add_fields(
        &mut self,
        alloc: Global,
        regions: &[RegionId],
        args: &[Open],
        variants: &[List<Open>],
    ) -> Result<(), Stop>
        ensures { Collecting (all_fields regions.now (closed_types args.now) variants.now)
            self.old self.new result }
    {
        for types in variants {
            match self.add_all(alloc, regions, args, types.as_slice()) {
                Ok(()) => {}
                Err(stop) => return Err(stop),
            }
        }
        Ok(())
    }

    /// Adds what is written in both sides of a question.
    fn add_sides(&mut self, alloc: Global, ask: &OpenAsk) -> Result<(), Stop>
        ensures { Collecting (sides_of ask.now) self.old self.new result }
    {
        match self.add(alloc, &[], &[], &ask.src) {
            Ok(()) => self.add(alloc, &[], &[], &ask.dst),
            Err(stop) => Err(stop),
        }
    }

    /// Adds what is written in the sides of questions.
    fn add_asked(&mut self, alloc: Global, asks: &[OpenAsk]) -> Result<(), Stop>
        ensures { Collecting (asked_in asks.now) self.old self.new result }
    {
        for ask in asks {
            match self.add_sides(alloc, ask) {
                Ok(()) => {}
                Err(stop) => return Err(stop),
            }
        }
        Ok(())
    }

    /// Adds what is written in the arguments and in the fields of a named type.
    #[tactic(auto, using(crate::proofs::forms::OpenLemmas::put_ins))]
    fn add_inside(&mut self, alloc: Global, resolved: &Resolved, ty: &Open) -> Result<(), Stop>
        requires { is_named (closed ty.now) ≡ true }
        ensures { Collecting (inside_of resolved.now (closed ty.now)) self.old self.new result }
    {
        match ty {
            Open::Named(def, lives, args) => {
                match self.add_all(alloc, &[], &[], args.as_slice()) {
                    Ok(()) => {}
                    Err(stop) => return Err(stop),
                }
                let Ok(regions) = regions(alloc, lives.as_slice()) else {
                    return Err(Stop::Memory);
                };
                let variants = written_fields(resolved, *def);
                self.add_fields(alloc, regions.as_slice(), args.as_slice(), variants)
            }
            Open::Prim(_) | Open::Never | Open::Tuple(_) | Open::Array(_, _) => unreachable!(),
            Open::NonZero(_) | Open::Wrap(_, _) | Open::Ref(_, _, _) => unreachable!(),
            Open::Param(_) => unreachable!(),
        }
    }

    /// Adds what occurs in a file, where nothing was found before: the sides of the questions, and of each
    /// named type that is found its arguments and its fields.
    pub fn close(&mut self, alloc: Global, resolved: &Resolved) -> Result<(), Stop>
        requires { IsEmpty self.old }
        ensures { Closing resolved.now self.new result }
    {
        match self.add_asked(alloc, resolved.asks.as_slice()) {
            Ok(()) => {}
            Err(stop) => return Err(stop),
        }
        for place in 0..type_limit() {
            let Some(ty) = self.found.named.types().get(place) else {
                return Ok(());
            };
            let Ok(ty) = fixed(alloc, &[], &[], ty) else {
                return Err(Stop::Memory);
            };
            match self.add_inside(alloc, resolved, &ty) {
                Ok(()) => {}
                Err(stop) => return Err(stop),
            }
        }
        Ok(())
    }
}
