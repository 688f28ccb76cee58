//! Cells of worked types against the matcher. Private types keep their values, and each reference is
//! compatible with itself alone.
ghost use Rattle.std.specs.Prelude.{◌≡◌, false};
ghost use Rattle.tm_base.specs.Faults.{has_no_layout};
ghost use Rattle.tm_base.specs.Tables.{expanded_in};
ghost use Rattle.tm_base.specs.Worlds.{IsTypeOver, tables_of};
ghost use Rattle.tm_layout.specs.Made.{IsMadeFor};

use crate::worlds::{has_layout, question, world_for};
use Cell::{Byte, Ptr, Uninit};
use Match::{Front, Neither, Value};
use std::alloc::Global;
use tm_base::{Cell, Equal, Ground, Profile, RefId, World};
use tm_check::{valid, viable};
use tm_layout::Layouts;

/// What cells are to a type.
#[derive(Clone, Copy, PartialEq, Eq, Debug)]
pub enum Match {
    /// One of its values.
    Value,
    /// The front of one.
    Front,
    /// Neither.
    Neither,
}

/// What cells are to a type.
fn match_cells(world: &World, layouts: &Layouts, g: &Ground, cells: &[Cell]) -> Match
    requires made { IsMadeFor (tables_of world.now) layouts.now }
    requires over { IsTypeOver (tables_of world.now) g.now }
    requires judged { has_no_layout (expanded_in (tables_of world.now) g.now) ≡ false }
{
    if valid(world, layouts, &Equal, true, g, cells) {
        return Value;
    }
    if viable(world, layouts, &Equal, true, g, cells) {
        return Front;
    }
    Neither
}

/// What cells are to the source of a file's first question.
pub fn matched(alloc: Global, profile: Profile, file: &str, cells: &[Cell]) -> Option<Match> {
    let world = world_for(alloc, file, profile)?;
    let Ok(layouts) = Layouts::new(alloc, &world) else {
        return None;
    };
    let g = &question(&world, 0)?.src;
    if !has_layout(&world, &layouts, g) {
        return None;
    }
    Some(match_cells(&world, &layouts, g, cells))
}

/// The byte of a file's first reference.
fn of_reference(byte: u8) -> Cell {
    Ptr(RefId(0), byte)
}

const PADDED: &str = "#[repr(C)] struct S { pub a: u8, pub b: u16 } ask S => ();";

const TAGGED: &str = "#[repr(C)] enum E { A(u8), B(u16) } ask E => ();";

const JOINED: &str = "#[repr(u8)] enum P { Z = 0 } #[repr(u8)] enum Q { O = 1 } \
    #[repr(C)] union U { pub p: P, pub q: Q } ask U => ();";

#[test]
fn bytes_are_matched(rt: HostRuntime) {
    let is = |file: &str, cells: &[Cell]| matched(rt.alloc(), Profile::Le64, file, cells);
    assert_eq!(rt; is("ask bool => ();", &[Byte(1)]), Some(Value));
    assert_eq!(rt; is("ask bool => ();", &[Byte(2)]), Some(Neither));
    assert_eq!(rt; is("ask char => ();", &[Byte(0), Byte(0xD8)]), Some(Front));
    assert_eq!(rt;
        is("ask char => ();", &[Byte(0), Byte(0xD8), Byte(0)]),
        Some(Neither)
    );
    assert_eq!(rt; is("ask NonZero<u16> => ();", &[Byte(0)]), Some(Front));
    assert_eq!(rt;
        is("ask NonZero<u16> => ();", &[Byte(0), Byte(0)]),
        Some(Neither)
    );
    assert_eq!(rt;
        is("ask [bool; 3] => ();", &[Byte(1), Byte(1)]),
        Some(Front)
    );
    assert_eq!(rt;
        is("ask [bool; 3] => ();", &[Byte(1), Byte(1), Byte(2)]),
        Some(Neither)
    );
    assert_eq!(rt; is("ask () => ();", &[]), Some(Value));
    assert_eq!(rt; is("ask () => ();", &[Byte(0)]), Some(Neither));
    assert_eq!(rt; is("ask ! => ();", &[]), Some(Neither));
}

#[test]
fn gaps_and_tags_are_matched(rt: HostRuntime) {
    let is = |file: &str, cells: &[Cell]| matched(rt.alloc(), Profile::Le64, file, cells);
    assert_eq!(rt; is(PADDED, &[Byte(0), Uninit]), Some(Front));
    assert_eq!(rt;
        is(PADDED, &[Byte(0), Uninit, Byte(0), Byte(0)]),
        Some(Value)
    );
    assert_eq!(rt; is(PADDED, &[Byte(0), Uninit, Uninit]), Some(Neither));
    assert_eq!(rt; is(PADDED, &[Byte(0), of_reference(0)]), Some(Neither));
    let first = [
        Byte(0),
        Byte(0),
        Byte(0),
        Byte(0),
        Byte(0),
        Uninit,
        Uninit,
        Byte(0),
    ];
    assert_eq!(rt; is(TAGGED, &first), Some(Value));
    assert_eq!(rt;
        is(
            TAGGED,
            &[Byte(1), Byte(0), Byte(0), Byte(0), Byte(0), Uninit]
        ),
        Some(Neither)
    );
    assert_eq!(rt; is(TAGGED, &[Byte(2)]), Some(Neither));
    assert_eq!(rt; is(JOINED, &[Byte(1)]), Some(Value));
    assert_eq!(rt; is(JOINED, &[Byte(2)]), Some(Neither));
    assert_eq!(rt;
        is("ask MaybeUninit<[u8; 2]> => ();", &[Uninit, Byte(0)]),
        Some(Value)
    );
}

#[test]
fn bytes_of_references_are_matched(rt: HostRuntime) {
    let is = |file: &str, cells: &[Cell]| matched(rt.alloc(), Profile::Le64, file, cells);
    let nulls = [
        Byte(0),
        Byte(0),
        Byte(0),
        Byte(0),
        Byte(0),
        Byte(0),
        Byte(0),
        Byte(0),
    ];
    let reference = "ask &'static u8 => ();";
    assert_eq!(rt;
        is(reference, &[of_reference(0), of_reference(1)]),
        Some(Front)
    );
    assert_eq!(rt;
        is(reference, &[of_reference(0), of_reference(0)]),
        Some(Neither)
    );
    assert_eq!(rt; is(reference, &[of_reference(1)]), Some(Neither));
    assert_eq!(rt; is(reference, &nulls), Some(Neither));
    let option = "ask Option<&'static u8> => ();";
    assert_eq!(rt; is(option, &nulls), Some(Value));
    assert_eq!(rt; is(option, &[Byte(0), of_reference(1)]), Some(Neither));
}

#[test]
fn the_greatest_byte_first(rt: HostRuntime) {
    let is = |file: &str, cells: &[Cell]| matched(rt.alloc(), Profile::Be64, file, cells);
    assert_eq!(rt;
        is(
            "ask char => ();",
            &[Byte(0), Byte(0x10), Byte(0xFF), Byte(0xFF)]
        ),
        Some(Value)
    );
    assert_eq!(rt;
        is("ask char => ();", &[Byte(0), Byte(0), Byte(0xD8)]),
        Some(Neither)
    );
    assert_eq!(rt; is("ask char => ();", &[Byte(1)]), Some(Neither));
    let tag = "#[repr(u16)] enum E { A = 1 } ask E => ();";
    assert_eq!(rt; is(tag, &[Byte(0), Byte(1)]), Some(Value));
    assert_eq!(rt; is(tag, &[Byte(1)]), Some(Neither));
}

#[test]
fn addresses_of_four_bytes(rt: HostRuntime) {
    let is = |file: &str, cells: &[Cell]| matched(rt.alloc(), Profile::Le32, file, cells);
    let whole = [
        of_reference(0),
        of_reference(1),
        of_reference(2),
        of_reference(3),
    ];
    assert_eq!(rt; is("ask &'static u8 => ();", &whole), Some(Value));
    assert_eq!(rt;
        is("ask usize => ();", &[Byte(7), Byte(7), Byte(7), Byte(7)]),
        Some(Value)
    );
    let tag = "#[repr(usize)] enum E { A = 1 } ask E => ();";
    assert_eq!(rt; is(tag, &[Byte(1), Byte(0), Byte(0), Byte(0)]), Some(Value));
    assert_eq!(rt; is(tag, &[Byte(0)]), Some(Neither));
}
