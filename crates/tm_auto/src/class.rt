//! Classes of symbols: by each of them two sets of states are walked at once.
ghost use Rattle.std.specs.Prelude.{◌≡◌, ◌<◌, ◌≤◌, ◌++◌, ◌∷◌, [], IfOk, OnOk};
ghost use Rattle.tm_auto.specs.Automata.{AreStates};
ghost use Rattle.tm_auto.specs.Classes.{AreClasses, IsUncut, AreUncut, AreRanges, passes_some, labels_in, labels_from, with_ids, uninit_of, places_of, references_of};

use crate::auto::Auto;
use crate::edge::{Edge, Label, Symbol};
use crate::set::StateSet;
use smallvec::SmallVec;
use std::alloc::Global;
use tm_base::{Equal, List, Memory, RefId};

// The labels of some edges: most often one or two, for which no memory is taken.
type Labels = SmallVec<Label, 4>;

/// The symbols by which two sets are walked together, in the order of cells and apart from each other:
/// each cell that the source's set can take is in exactly one, and each cell of a symbol passes the same
/// edges of both sets.
pub fn classes(
    alloc: Global,
    src: &Auto,
    from: &StateSet,
    dst: &Auto,
    to: &StateSet,
) -> Result<List<Symbol>, Memory>
    requires from { AreStates src.now from.now }
    requires to { AreStates dst.now to.now }
    ensures { IfOk result (λ symbols. AreClasses src.now from.now dst.now to.now symbols) }
{
    src.law();
    let source = labels_of(alloc, src, from)?;
    let target = labels_of(alloc, dst, to)?;
    let mut symbols = List::new(alloc);
    add_ranges(&mut symbols, source.as_slice(), target.as_slice())?;
    add_uninit(&mut symbols, source.as_slice())?;
    add_references(alloc, &mut symbols, source.as_slice())?;
    Ok(symbols)
}

// The labels of the edges that leave the states.
fn labels_of(alloc: Global, auto: &Auto, states: &StateSet) -> Result<Labels, Memory>
    requires { AreStates auto.now states.now }
    ensures { IfOk result (λ labels. labels.items ≡ labels_from auto.now.edges states.now) }
{
    let mut labels = Labels::new(alloc);
    for state in states.as_slice() {
        add_labels(&mut labels, auto.edges(*state))?;
    }
    Ok(labels)
}

// Adds those of some edges.
fn add_labels(labels: &mut Labels, edges: &[Edge]) -> Result<(), Memory>
    ensures { OnOk result (labels.new.items ≡ labels.old.items ++ labels_in edges.now) }
{
    for edge in edges {
        match labels.push(edge.label) {
            Ok(()) => {}
            Err(_) => return Err(Memory),
        }
    }
    Ok(())
}

// Adds the classes of bytes: the least bytes first, each as far as no label cuts it.
fn add_ranges(symbols: &mut List<Symbol>, src: &[Label], dst: &[Label]) -> Result<(), Memory>
    requires { symbols.old ≡ [] }
    ensures { OnOk result (AreRanges src.now dst.now 256 symbols.new) }
{
    let mut at: u16 = 0;
    while at < 256 {
        let end = uncut_to(dst, at, uncut_to(src, at, 256));
        let first = at as u8;
        if passes_any(src, Symbol::Bytes(first, first)) {
            add(symbols, Symbol::Bytes(first, (end - 1) as u8))?;
        }
        at = end;
    }
    Ok(())
}

// How far, at most to `end`, the labels treat the bytes from a place on alike.
fn uncut_to(labels: &[Label], at: u16, end: u16) -> u16
    requires { at < end }
    ensures past { at < result }
    ensures most { result ≤ end }
    ensures uncut { AreUncut labels.now at result }
{
    let mut least = end;
    for label in labels {
        least = cut(*label, at, least);
    }
    least
}

/// How far one label does.
pub(crate) fn cut(label: Label, at: u16, end: u16) -> u16
    requires { at < end }
    ensures past { at < result }
    ensures most { result ≤ end }
    ensures uncut { IsUncut label at result }
{
    match label {
        Label::Bytes(low, high) => {
            let end = nearer(at, u16::from(low), end);
            nearer(at, u16::from(high) + 1, end)
        }
        Label::Free => end,
        Label::Leaf(_, _) => end,
    }
}

// The place, where it lies between, and else the end.
fn nearer(at: u16, place: u16, end: u16) -> u16
    requires { at < end }
    ensures past { at < result }
    ensures most { result ≤ end }
    ensures place { at < place → result ≤ place }
{
    if at < place && place < end {
        place
    } else {
        end
    }
}

// Whether one of the labels passes the symbol, where each reference holds itself alone.
fn passes_any(labels: &[Label], symbol: Symbol) -> bool
    ensures { result ≡ passes_some labels.now symbol }
{
    for label in labels {
        if label.takes(&Equal, symbol) {
            return true;
        }
    }
    false
}

// Adds a symbol at the end.
fn add(symbols: &mut List<Symbol>, symbol: Symbol) -> Result<(), Memory>
    ensures { OnOk result (symbols.new ≡ symbols.old ++ symbol ∷ []) }
{
    match symbols.push(symbol) {
        Ok(()) => Ok(()),
        Err(_) => Err(Memory),
    }
}

// Adds the uninitialised byte, where a label takes it.
fn add_uninit(symbols: &mut List<Symbol>, labels: &[Label]) -> Result<(), Memory>
    ensures { OnOk result (symbols.new ≡ symbols.old ++ uninit_of labels.now) }
{
    if passes_any(labels, Symbol::Uninit) {
        add(symbols, Symbol::Uninit)?;
    }
    Ok(())
}

// Adds the bytes of references that the labels take, in order. A reference has at most 8.
fn add_references(alloc: Global, symbols: &mut List<Symbol>, labels: &[Label]) -> Result<(), Memory>
    ensures { OnOk result
        (symbols.new ≡ symbols.old ++ references_of labels.now (with_ids labels.now [])) }
{
    let ids = ids_of(alloc, labels)?;
    for id in ids.as_slice() {
        add_places(symbols, labels, *id)?;
    }
    Ok(())
}

// Adds the bytes of one reference, from its first place on.
fn add_places(symbols: &mut List<Symbol>, labels: &[Label], id: u32) -> Result<(), Memory>
    ensures { OnOk result (symbols.new ≡ symbols.old ++ places_of labels.now id 8) }
{
    for place in 0..8 {
        let byte = Symbol::Ptr(RefId(id), place);
        if passes_any(labels, byte) {
            add(symbols, byte)?;
        }
    }
    Ok(())
}

// The numbers of the references that labels have a byte of.
fn ids_of(alloc: Global, labels: &[Label]) -> Result<StateSet, Memory>
    ensures { IfOk result (λ ids. ids ≡ with_ids labels.now []) }
{
    let mut ids = StateSet::new(alloc);
    for label in labels {
        match *label {
            Label::Leaf(reference, _) => ids.insert(reference.0)?,
            Label::Bytes(_, _) => {}
            Label::Free => {}
        }
    }
    Ok(ids)
}
