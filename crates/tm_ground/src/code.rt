ghost use Rattle.std.specs.Prelude.{◌≡◌, ◌++◌, ◌∷◌, [], map, IfOk, OnOk};
ghost use Rattle.tm_ground.specs.Closed.{put_in, region_of};
ghost use Rattle.tm_ground.specs.Codes.{code_of, codes_of, codes_of_regions};
ghost use Rattle.tm_ground.specs.Codes.{number_of_flag, number_of_primitive, number_of_wrapper};
ghost use Rattle.tm_ground.specs.Sets.{closed_types};

use crate::regions::region;
use std::alloc::Global;
use tm_base::{Memory, Primitive, RegionId, Wrapper};
use tm_names::{Life, Open};

/// The code of a closed type: numbers that no other has.
#[derive(PartialEq, Eq, Hash, Debug, Drop)]
pub struct Code {
    numbers: Vec<u32>,
}

/// The number of a primitive.
fn number_of_primitive(primitive: Primitive) -> u32
    ensures { result ≡ number_of_primitive primitive }
{
    primitive as u32
}

/// The number of a wrapper.
fn number_of_wrapper(wrapper: Wrapper) -> u32
    ensures { result ≡ number_of_wrapper wrapper }
{
    wrapper as u32
}

/// The number of a flag.
fn number_of_flag(flag: bool) -> u32
    ensures { result ≡ number_of_flag flag }
{
    if flag { 1 } else { 0 }
}

impl Code {
    /// The code of a type with its regions and arguments put in.
    pub fn of(alloc: Global, regions: &[RegionId], args: &[Open], ty: &Open) -> Result<Code, Memory>
        ensures { IfOk result (λ code. code.numbers.items
            ≡ code_of (put_in regions.now (closed_types args.now) ty.now)) }
    {
        // Most codes have no more numbers than this.
        let mut code = Code {
            numbers: Vec::with_capacity(alloc, 8)?,
        };
        code.add(regions, args, ty)?;
        Ok(code)
    }

    /// Adds some numbers.
    fn add_numbers(&mut self, numbers: &[u32]) -> Result<(), Memory>
        ensures { OnOk result (self.new.numbers.items ≡ self.old.numbers.items ++ numbers.now) }
    {
        self.numbers.extend_from_slice(numbers)?;
        Ok(())
    }

    /// Adds the regions that lifetimes stand for, and an end.
    fn add_lives(&mut self, regions: &[RegionId], lives: &[Life]) -> Result<(), Memory>
        ensures { OnOk result (self.new.numbers.items
            ≡ self.old.numbers.items ++ codes_of_regions (map (region_of regions.now) lives.now)) }
    {
        for life in lives {
            self.add_numbers(&[1, region(regions, *life).0])?;
        }
        self.add_numbers(&[0])
    }

    /// Adds the code of a type with its regions and arguments put in.
    #[cycle(add)]
    fn add(&mut self, regions: &[RegionId], args: &[Open], ty: &Open) -> Result<(), Memory>
        ensures { OnOk result (self.new.numbers.items ≡ self.old.numbers.items
            ++ code_of (put_in regions.now (closed_types args.now) ty.now)) }
    {
        match ty {
            Open::Prim(primitive) => self.add_numbers(&[0, number_of_primitive(*primitive)]),
            Open::Never => self.add_numbers(&[1]),
            Open::Tuple(elements) => {
                self.add_numbers(&[2])?;
                self.add_all(regions, args, elements.as_slice())
            }
            Open::Array(element, length) => {
                self.add_numbers(&[3, *length])?;
                self.add(regions, args, element.get())
            }
            Open::NonZero(primitive) => self.add_numbers(&[4, number_of_primitive(*primitive)]),
            Open::Wrap(wrapper, argument) => {
                self.add_numbers(&[5, number_of_wrapper(*wrapper)])?;
                self.add(regions, args, argument.get())
            }
            Open::Named(def, lives, given) => {
                self.add_numbers(&[6, def.0])?;
                self.add_lives(regions, lives.as_slice())?;
                self.add_all(regions, args, given.as_slice())
            }
            Open::Ref(life, mutable, pointee) => {
                let region = region(regions, *life);
                self.add_numbers(&[7, region.0, number_of_flag(*mutable)])?;
                self.add(regions, args, pointee.get())
            }
            Open::Param(place) => match args.get(*place as usize) {
                Some(arg) => self.add(&[], &[], arg),
                None => self.add_numbers(&[1]),
            },
        }
    }

    /// Adds the codes of types with their regions and arguments put in, and an end.
    #[cycle(add)]
    fn add_all(&mut self, regions: &[RegionId], args: &[Open], types: &[Open]) -> Result<(), Memory>
        ensures { OnOk result (self.new.numbers.items
            ≡ self.old.numbers.items
            ++ codes_of (map (put_in regions.now (closed_types args.now)) types.now)) }
    {
        for item in types {
            self.add(regions, args, item)?;
        }
        self.add_numbers(&[8])
    }
}
