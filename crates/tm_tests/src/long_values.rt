//! Long values against the matcher. `bench/matching.sh` counts what each of these tests costs.
use crate::matches::{Match, matched};
use std::test::Fail;
use tm_base::{Cell, Profile};

/// Whether so many bytes 01 are a value of the source of the file's first question.
fn are_a_value(rt: &HostRuntime, file: &str, count: u32) -> Result<bool, Fail> {
    let mut cells = Vec::new(rt.alloc());
    for _ in 0..count {
        cells.push(Cell::Byte(1))?;
    }
    let found = matched(rt.alloc(), Profile::Le64, file, cells.as_slice());
    Ok(found == Some(Match::Value))
}

#[test]
fn elements_4096(rt: HostRuntime) -> Result<(), Fail> {
    assert!(rt; are_a_value(&rt, "ask [bool; 4096] => ();", 4096)?);
    Ok(())
}

#[test]
fn elements_65536(rt: HostRuntime) -> Result<(), Fail> {
    assert!(rt; are_a_value(&rt, "ask [bool; 65536] => ();", 65536)?);
    Ok(())
}

#[test]
fn elements_65536_of_one_more_level(rt: HostRuntime) -> Result<(), Fail> {
    assert!(rt; are_a_value(&rt, "ask [[bool; 1]; 65536] => ();", 65536)?);
    Ok(())
}

const NESTED: &str = "#[repr(C)] struct A { pub a: [bool; 16384], pub b: [bool; 16384] } \
    #[repr(C)] struct B { pub a: A, pub b: bool } #[repr(C)] struct C { pub a: B, pub b: bool } \
    #[repr(C)] struct D { pub a: C, pub b: bool } #[repr(C)] struct E { pub a: D, pub b: bool } ";

#[test]
fn structs_of_32768_bytes(rt: HostRuntime) -> Result<(), Fail> {
    let file = format!(in rt.alloc(); "{NESTED} ask A => ();")?;
    assert!(rt; are_a_value(&rt, file.as_str(), 32768)?);
    Ok(())
}

#[test]
fn structs_of_32768_bytes_four_levels_deeper(rt: HostRuntime) -> Result<(), Fail> {
    let file = format!(in rt.alloc(); "{NESTED} ask E => ();")?;
    assert!(rt; are_a_value(&rt, file.as_str(), 32772)?);
    Ok(())
}
