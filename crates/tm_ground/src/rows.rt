ghost use Rattle.std.specs.Prelude.{◌≡◌, map, true, All, IfOk};
ghost use Rattle.std.specs.List.{AllZip};
ghost use Rattle.tm_ground.specs.Closed.{closed, put_in};
ghost use Rattle.tm_ground.specs.Found.{AreFieldsIn, AreRowsIn, HasNumbersIn, HaveNumbersIn, IsAllOf, IsAskIn, IsNamedRowIn, IsRefRowIn};
ghost use Rattle.tm_ground.specs.Limits.{is_named, is_ref};
ghost use Rattle.tm_ground.specs.Occurs.{all_fields, parts_of, sides_of};
ghost use Rattle.tm_ground.specs.Sets.{closed_types};

use crate::fields::written_fields;
use crate::found::Found;
use crate::numbering::{all_numbered, numbered};
use crate::regions::{region, regions};
use std::alloc::Global;
use tm_base::{Ask, Ground, List, Memory, NamedRow, RefRow, RegionId};
use tm_names::{Open, OpenAsk, Resolved};

/// The rows of the types that a file's questions lead to, and the questions, with the numbers of their types.
#[derive(Debug, Drop)]
pub struct Rows {
    /// The rows of the named types, in the order of their numbers.
    pub named: List<NamedRow>,
    /// The rows of the reference types, in the order of their numbers.
    pub refs: List<RefRow>,
    /// The questions, in their order.
    pub questions: List<Ask>,
}

/// The types of the fields of some variants, with their numbers.
fn numbered_fields(
    alloc: Global,
    found: &Found,
    regions: &[RegionId],
    args: &[Open],
    variants: &[List<Open>],
) -> Result<List<List<Ground>>, Memory>
    requires { HaveNumbersIn found.now
        (all_fields regions.now (closed_types args.now) variants.now) }
    ensures { IfOk result (AreFieldsIn found.now
        (map (map (put_in regions.now (closed_types args.now))) variants.now)) }
{
    let mut all = List::new(alloc);
    for types in variants {
        all.add(all_numbered(alloc, found, regions, args, types.as_slice())?)?;
    }
    Ok(all)
}

/// The row of a named type.
#[tactic(auto, using(crate::proofs::forms::OpenLemmas::put_ins))]
fn named_row(
    alloc: Global,
    resolved: &Resolved,
    found: &Found,
    ty: &Open,
) -> Result<NamedRow, Memory>
    requires kind { is_named (closed ty.now) ≡ true }
    requires numbers { HaveNumbersIn found.now (parts_of resolved.now (closed ty.now)) }
    ensures { IfOk result (IsNamedRowIn found.now resolved.now (closed ty.now)) }
{
    match ty {
        Open::Named(def, lives, args) => {
            let regions = regions(alloc, lives.as_slice())?;
            let args = args.as_slice();
            let variants = written_fields(resolved, *def);
            Ok(NamedRow {
                def: *def,
                args: all_numbered(alloc, found, &[], &[], args)?,
                types: numbered_fields(alloc, found, regions.as_slice(), args, variants)?,
                regions,
            })
        }
        Open::Prim(_) | Open::Never | Open::Tuple(_) | Open::Array(_, _) => unreachable!(),
        Open::NonZero(_) | Open::Wrap(_, _) | Open::Ref(_, _, _) => unreachable!(),
        Open::Param(_) => unreachable!(),
    }
}

/// The row of a reference type.
#[tactic(auto, using(crate::proofs::forms::OpenLemmas::put_ins))]
fn ref_row(alloc: Global, found: &Found, ty: &Open) -> Result<RefRow, Memory>
    requires kind { is_ref (closed ty.now) ≡ true }
    requires numbers { HasNumbersIn found.now (closed ty.now) }
    ensures { IfOk result (IsRefRowIn found.now (closed ty.now)) }
{
    match ty {
        Open::Ref(life, mutable, pointee) => Ok(RefRow {
            mutable: *mutable,
            region: region(&[], *life),
            pointee: numbered(alloc, found, &[], &[], pointee.get())?,
        }),
        Open::Prim(_) | Open::Never | Open::Tuple(_) | Open::Array(_, _) => unreachable!(),
        Open::NonZero(_) | Open::Wrap(_, _) | Open::Named(_, _, _) => unreachable!(),
        Open::Param(_) => unreachable!(),
    }
}

/// A question with the numbers of its types.
fn numbered_ask(alloc: Global, found: &Found, ask: &OpenAsk) -> Result<Ask, Memory>
    requires { HaveNumbersIn found.now (sides_of ask.now) }
    ensures { IfOk result (IsAskIn found.now ask.now) }
{
    Ok(Ask {
        src: numbered(alloc, found, &[], &[], &ask.src)?,
        dst: numbered(alloc, found, &[], &[], &ask.dst)?,
        assume: ask.assume,
    })
}

/// The rows of the named types, in their order.
fn named_rows(alloc: Global, resolved: &Resolved, found: &Found) -> Result<List<NamedRow>, Memory>
    requires { IsAllOf found.now resolved.now }
    ensures { IfOk result
        (AllZip (IsNamedRowIn found.now resolved.now) (closed_types found.now.named)) }
{
    let mut rows = List::new(alloc);
    for ty in found.named.types() {
        rows.add(named_row(alloc, resolved, found, ty)?)?;
    }
    Ok(rows)
}

/// The rows of the reference types, in their order.
fn ref_rows(alloc: Global, found: &Found) -> Result<List<RefRow>, Memory>
    requires kind { All (λ c. is_ref c ≡ true) (closed_types found.now.refs) }
    requires numbers { HaveNumbersIn found.now (closed_types found.now.refs) }
    ensures { IfOk result (AllZip (IsRefRowIn found.now) (closed_types found.now.refs)) }
{
    let mut rows = List::new(alloc);
    for ty in found.refs.types() {
        rows.add(ref_row(alloc, found, ty)?)?;
    }
    Ok(rows)
}

/// The questions of a file with the numbers of their types.
fn questions(alloc: Global, resolved: &Resolved, found: &Found) -> Result<List<Ask>, Memory>
    requires { IsAllOf found.now resolved.now }
    ensures { IfOk result (AllZip (IsAskIn found.now) resolved.now.asks) }
{
    let mut all = List::new(alloc);
    for ask in resolved.asks.as_slice() {
        all.add(numbered_ask(alloc, found, ask)?)?;
    }
    Ok(all)
}

/// The rows of all that is found, and the questions of the file.
pub fn rows_of(alloc: Global, resolved: &Resolved, found: &Found) -> Result<Rows, Memory>
    requires { IsAllOf found.now resolved.now }
    ensures { IfOk result (AreRowsIn found.now resolved.now) }
{
    Ok(Rows {
        named: named_rows(alloc, resolved, found)?,
        refs: ref_rows(alloc, found)?,
        questions: questions(alloc, resolved, found)?,
    })
}
