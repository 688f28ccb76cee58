ghost use Rattle.std.specs.Prelude.{◌≡◌, ◌∷◌, [], IfOk};

use std::alloc::Global;
use std::test::Fail;
use tm_auto::{Auto, StateSet, Symbol};
use tm_base::{Boxed, Equal, List, Memory, Profile, RefId, Tree};
use tm_niche::char_tree;

fn two(alloc: Global, first: Tree, second: Tree) -> Result<List<Tree>, Memory>
    ensures { IfOk result (λ trees. trees ≡ first ∷ second ∷ []) }
{
    let mut trees = List::new(alloc);
    if trees.push(first).is_err() || trees.push(second).is_err() {
        return Err(Memory);
    }
    Ok(trees)
}

// Twice the byte 0 or 2, then one of two references of four cells.
fn sample(alloc: Global) -> Result<Auto, Memory> {
    let byte = two(alloc, Tree::Range(0, 0), Tree::Range(2, 2))?;
    let turn = Boxed::new(alloc, Tree::Alt(byte))?;
    let last = two(alloc, Tree::Ref(RefId(5)), Tree::Ref(RefId(6)))?;
    let whole = two(alloc, Tree::Repeat(2, turn), Tree::Alt(last))?;
    Auto::build(alloc, &Tree::Seq(whole), 6, 4)
}

// The states that a list of symbols reaches.
fn after(alloc: Global, auto: &Auto, symbols: &[Symbol]) -> Result<StateSet, Memory> {
    let mut set = auto.start(alloc)?;
    for symbol in symbols {
        set = auto.step(alloc, &Equal, &set, *symbol)?;
    }
    Ok(set)
}

#[test]
fn reads_cells(rt: HostRuntime) -> Result<(), Fail> {
    let auto = sample(rt.alloc())?;
    let byte = Symbol::Bytes(2, 2);
    let pointer = Symbol::Ptr(RefId(6), 0);
    let mixed = [byte, byte, pointer, Symbol::Ptr(RefId(5), 1)];
    let word = [
        byte,
        byte,
        pointer,
        Symbol::Ptr(RefId(6), 1),
        Symbol::Ptr(RefId(6), 2),
        Symbol::Ptr(RefId(6), 3),
    ];
    assert_eq!(rt; after(rt.alloc(), &auto, &[])?.as_slice(), [9].as_slice());
    assert_eq!(rt; after(rt.alloc(), &auto, &word)?.as_slice(), [0].as_slice());
    assert_eq!(rt; after(rt.alloc(), &auto, &mixed)?.as_slice(), [].as_slice());
    Ok(())
}

// `char`, its least byte first.
fn character(alloc: Global) -> Result<Auto, Memory> {
    let tree = char_tree(alloc, Profile::Le64)?;
    Auto::build(alloc, &tree, 4, 8)
}

fn byte(value: u8) -> Symbol {
    Symbol::Bytes(value, value)
}

#[test]
fn reads_characters(rt: HostRuntime) -> Result<(), Fail> {
    let auto = character(rt.alloc())?;
    let last_before_surrogates = [byte(0xFF), byte(0xD7), byte(0x00), byte(0x00)];
    let last = [byte(0xFF), byte(0xFF), byte(0x10), byte(0x00)];
    let first_of_surrogate = [byte(0x00), byte(0xD8)];
    let surrogate = [byte(0x00), byte(0xD8), byte(0x00)];
    assert!(rt;
        !after(rt.alloc(), &auto, &last_before_surrogates)?
            .as_slice()
            .is_empty()
    );
    assert!(rt; !after(rt.alloc(), &auto, &last)?.as_slice().is_empty());
    assert!(rt;
        !after(rt.alloc(), &auto, &first_of_surrogate)?
            .as_slice()
            .is_empty()
    );
    assert!(rt; after(rt.alloc(), &auto, &surrogate)?.as_slice().is_empty());
    Ok(())
}
