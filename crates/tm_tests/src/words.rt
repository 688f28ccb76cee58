use std::alloc::Global;
use std::test::Fail;
use tm_base::{Cell, List, Memory, RefId, Word};
use tm_witness::{fit, less};

fn word(alloc: Global, cells: &[Cell]) -> Result<Word, Memory> {
    let mut word = List::new(alloc);
    for cell in cells {
        word.add(*cell)?;
    }
    Ok(word)
}

#[test]
fn words_are_fitted(rt: HostRuntime) -> Result<(), Fail> {
    let alloc = rt.alloc();
    let cells = [Cell::Byte(7), Cell::Uninit];
    let word = word(alloc, &cells)?;
    assert_eq!(rt;
        fit(alloc, &word, 1)?.as_slice(),
        [Cell::Byte(7)].as_slice()
    );
    assert_eq!(rt;
        fit(alloc, &word, 3)?.as_slice(),
        [Cell::Byte(7), Cell::Uninit, Cell::Uninit].as_slice()
    );
    Ok(())
}

#[test]
fn words_are_ordered(rt: HostRuntime) -> Result<(), Fail> {
    let alloc = rt.alloc();
    let rising = [
        word(alloc, &[])?,
        word(alloc, &[Cell::Byte(1)])?,
        word(alloc, &[Cell::Byte(1), Cell::Byte(0)])?,
        word(alloc, &[Cell::Byte(2)])?,
        word(alloc, &[Cell::Uninit])?,
        word(alloc, &[Cell::Ptr(RefId(0), 1)])?,
        word(alloc, &[Cell::Ptr(RefId(1), 0)])?,
    ];
    for (i, first) in rising.iter().enumerate() {
        for (j, second) in rising.iter().enumerate() {
            assert_eq!(rt; less(first, second), i < j, "{i} {j}");
        }
    }
    Ok(())
}
