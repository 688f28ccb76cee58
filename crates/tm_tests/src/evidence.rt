//! The evidence of answers, read by the matcher: from types and cells alone.
ghost use Rattle.std.specs.Prelude.{◌≡◌, ◌<◌};
ghost use Rattle.tm_base.specs.Worlds.{IsTypeOver, tables_of};
ghost use Rattle.tm_layout.specs.Made.{IsMadeFor};
ghost use Rattle.tm_region.specs.Order.{IsOrderOf};

use crate::worlds::{has_layout, question, world_for};
use std::alloc::Global;
use std::marker::Brand;
use std::sync::ledger::{Blank, Ledger};
use tm_base::{Answer, Ask, Memory, Profile, Steps, World};
use tm_check::check;
use tm_gen::generate;
use tm_judge::judge;
use tm_layout::Layouts;
use tm_refs::Compat;
use tm_region::Order;

/// What the matcher says of an answer.
#[derive(Clone, Copy, PartialEq, Eq, Debug)]
enum Evidence {
    /// There is none: the answer has no bytes.
    Without,
    /// The bytes bear the answer out.
    True,
    /// They don't.
    False,
}

/// Judges a question, and reads the answer's bytes.
fn evidence_of<L: Ledger>(
    alloc: Global,
    world: &World,
    layouts: &Layouts,
    order: &Order,
    ask: &Ask,
    steps: &mut Steps<L>,
) -> Result<Evidence, Memory>
    requires made { IsMadeFor (tables_of world.now) layouts.now }
    requires order { IsOrderOf world.now.bounds order.now }
    requires source { IsTypeOver (tables_of world.now) ask.now.src }
    requires target { IsTypeOver (tables_of world.now) ask.now.dst }
{
    let compat = Compat::solve(alloc, world, layouts, order, ask.assume, steps)?;
    let answer = judge(alloc, world, layouts, order, &compat, ask, steps)?;
    if !matches!(&answer, Answer::YesBecause(_) | Answer::NoAt(_, _, _, _)) {
        return Ok(Evidence::Without);
    }
    if !has_layout(world, layouts, &ask.src) || !has_layout(world, layouts, &ask.dst) {
        return Ok(Evidence::False);
    }
    if check(world, layouts, &compat, ask, &answer) {
        Ok(Evidence::True)
    } else {
        Ok(Evidence::False)
    }
}

/// How many answers to a world's questions have bytes, where all of those are borne out.
fn borne_out_in<L: Ledger>(alloc: Global, world: &World, blank: Blank) -> Option<u32>
    requires name { blank.name ≡ L.name }
    requires parts { blank.parts ≡ L.parts }
    requires some { 0 < L.parts }
{
    let mut steps: Steps<L> = Steps::new(blank);
    let layouts = Layouts::new(alloc, world).ok()?;
    let order = Order::new(alloc, world).ok()?;
    let mut count: u32 = 0;
    for number in 0..world.questions.len() {
        let ask = question(world, number as usize)?;
        match evidence_of(alloc, world, &layouts, &order, ask, &mut steps).ok()? {
            Evidence::Without => {}
            Evidence::True => count = count.saturating_add(1),
            Evidence::False => return None,
        }
    }
    Some(count)
}

/// The same of a file.
fn borne_out(alloc: Global, profile: Profile, file: &str) -> Option<u32> {
    let world = world_for(alloc, file, profile)?;
    borne_out_in::<Brand>(alloc, &world, Blank::new(1))
}

/// The same of the file that a number determines.
fn borne_out_of(alloc: Global, profile: Profile, number: u64) -> Option<u32> {
    let bytes = generate(alloc, number).ok()?;
    let file = str::from_utf8(bytes.as_slice()).ok()?;
    borne_out(alloc, profile, file)
}

/// Of each file, whether so many of its answers have bytes and all of those are borne out.
fn are_borne_out(alloc: Global, profile: Profile, files: &[(&str, u32)]) -> bool {
    files.iter().all(|(file, count)| borne_out(alloc, profile, file) == Some(*count))
}

#[test]
fn evidence_of_bytes_is_true(rt: HostRuntime) {
    let files = [
        ("ask u8 => bool;", 1),
        ("ask bool => u8; ask bool => u8 assume validity;", 1),
        (
            "#[repr(C)] struct S { pub a: u8, pub b: u16 } ask S => [u8; 4];",
            1,
        ),
        ("ask u8 => u16;", 1),
        ("ask u32 => char;", 1),
        ("ask [u8; 2] => NonZero<u16>;", 1),
        ("ask () => u8; ask () => () assume validity;", 2),
        ("ask [u8; 4096] => [bool; 4096];", 1),
        ("ask [u16; 2] => u32; ask u32 => [bool; 4];", 1),
        ("#[repr(C)] struct S { a: u8 } ask S => bool;", 1),
    ];
    assert!(rt; are_borne_out(rt.alloc(), Profile::Le64, &files));
}

#[test]
fn evidence_of_alternatives_is_true(rt: HostRuntime) {
    let files = [
        (
            "#[repr(u8)] enum E { X = 2 } ask bool => E; ask bool => E assume validity;",
            1,
        ),
        (
            "#[repr(u8)] enum E { X = 2 } ask E => u8; ask E => bool; ask ! => bool; ask u8 => !;",
            1,
        ),
        ("#[repr(C)] enum E { A(u8), B(u16) } ask E => [u8; 8];", 1),
        (
            "#[repr(u8)] enum P { Z = 0 } #[repr(u8)] enum Q { O = 1 } \
            #[repr(C)] union U { pub p: P, pub q: Q } ask bool => U; ask bool => P; ask bool => Q;",
            2,
        ),
        (
            "#[repr(u8)] enum P { Z = 0 } #[repr(u8)] enum Q { O = 1 } \
            #[repr(C)] union U { pub p: P, pub q: Q } \
            #[repr(C)] union V { pub a: [P; 2], pub b: [Q; 2] } \
            ask [bool; 2] => V; ask [bool; 64] => [U; 64];",
            1,
        ),
    ];
    assert!(rt; are_borne_out(rt.alloc(), Profile::Le64, &files));
}

#[test]
fn evidence_of_references_is_true(rt: HostRuntime) {
    let files = [
        ("lifetime 'a; ask &'a mut bool => &'a mut u8;", 1),
        (
            "lifetime 'a; ask &'a [u8; 2] => &'a u16; \
            ask &'a [u8; 2] => &'a u16 assume alignment;",
            1,
        ),
        ("lifetime 'a; ask &'a &'a u8 => &'a &'a bool;", 1),
        (
            "lifetime 'a; ask &'a u8 => usize; ask usize => &'static u8;",
            2,
        ),
        (
            "lifetime 'a; ask Option<&'a u8> => &'a u8; ask &'a u8 => Option<&'a u8>;",
            1,
        ),
        ("lifetime 'a; ask &'a Cell<u8> => &'a Cell<u8>;", 1),
        (
            "lifetime 'a; ask &'a u8 => [MaybeUninit<u8>; 4]; ask &'a u8 => (); \
            ask &'a u8 => MaybeUninit<&'a u8>;",
            1,
        ),
        (
            "lifetime 'a; #[repr(C)] struct P<'x> { pub n: u64, pub r: &'x u8 } \
            #[repr(C)] struct Q<'x> { pub n: u64, pub r: &'x bool } ask P<'a> => Q<'a>;",
            1,
        ),
        (
            "lifetime 'a; lifetime 'b; outlives 'a: 'b; \
            ask &'b u8 => &'a u8; ask &'a u8 => &'b u8;",
            1,
        ),
        (
            "lifetime 'a; lifetime 'b; outlives 'a: 'b; \
            ask &'a mut &'a u8 => &'a mut &'b u8;",
            1,
        ),
    ];
    assert!(rt; are_borne_out(rt.alloc(), Profile::Le64, &files));
}

#[test]
fn evidence_of_wire_formats_is_true(rt: HostRuntime) {
    let files = [(
        "lifetime 'a; \
        #[repr(C)] pub struct Header { pub version: u8, pub flags: u8, pub length: u16, pub id: u32 } \
        #[repr(C)] pub struct Padded { pub kind: u8, pub length: u32 } \
        #[repr(u8)] pub enum Message { Ping = 1, Data(u16), Stop { code: u8 } = 9 } \
        #[repr(transparent)] pub struct Port(NonZeroU16); \
        pub struct Plain { pub a: u8, pub b: u32 } \
        ask [u8; 8] => Header; ask Header => [u8; 8]; \
        ask Padded => [u8; 8]; ask Padded => MaybeUninit<[u8; 8]>; \
        ask [u8; 4] => Message; ask [u8; 4] => Message assume validity; ask Message => [u8; 4]; \
        ask u16 => Port; ask u16 => Port assume safety; \
        ask Plain => [u8; 8]; \
        ask &'a Header => &'a [u8; 8]; ask &'a [u8; 8] => &'a Header;",
        6,
    )];
    assert!(rt; are_borne_out(rt.alloc(), Profile::Le64, &files));
}

#[test]
fn evidence_of_each_profile_is_true(rt: HostRuntime) {
    let greatest_first = [
        ("ask u32 => char;", 1),
        (
            "#[repr(u16)] enum E { A = 1 } ask u16 => E; ask E => u16;",
            1,
        ),
    ];
    assert!(rt; are_borne_out(rt.alloc(), Profile::Be64, &greatest_first));
    let four_bytes = [("ask u32 => usize; ask usize => &'static u8;", 1)];
    assert!(rt; are_borne_out(rt.alloc(), Profile::Le32, &four_bytes));
}

#[test]
fn evidence_of_generated_files_is_true(rt: HostRuntime) {
    for number in 0..8 {
        for profile in [Profile::Le64, Profile::Be64, Profile::Le32] {
            assert!(rt;
                matches!(borne_out_of(rt.alloc(), profile, number), Some(1..)),
                "at {number}"
            );
        }
    }
}
