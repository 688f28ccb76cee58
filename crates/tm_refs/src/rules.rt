ghost use Rattle.std.specs.Prelude.{◌≡◌, ◌<◌, ◌↔◌, Some, IsTrue, length, slice_get};
ghost use Rattle.tm_base.specs.Compatible.{Keeps};
ghost use Rattle.tm_base.specs.Tables.{OnRows};
ghost use Rattle.tm_base.specs.Worlds.{tables_of};
ghost use Rattle.tm_layout.specs.Made.{IsMadeFor};
ghost use Rattle.tm_layout.specs.LaidOut.{IsLaidOut};
ghost use Rattle.tm_refs.specs.Local.{AreJudged, IsLocalAnswer};
ghost use Rattle.tm_region.specs.Order.{IsOrderOf};

use crate::laid_out::layout;
use tm_base::{Assume, LocalRule, RefId, RefRow, World};
use tm_layout::Layouts;
use tm_region::Order;

/// The local rules in the order in which they are asked.
const RULES: [LocalRule; 5] = [
    LocalRule::MoreUnique,
    LocalRule::TooBig,
    LocalRule::Alignment,
    LocalRule::Interior,
    LocalRule::Lifetime,
];

/// Whether a value of the reference type `r` may be taken as one of the type `t` as far as the two
/// show by themselves, and not the values that they point to. `Err`: the first local rule that is
/// broken.
pub fn local(
    world: &World,
    layouts: &Layouts,
    order: &Order,
    assume: Assume,
    r: RefId,
    t: RefId,
) -> Result<(), LocalRule>
    requires made { IsMadeFor (tables_of world.now) layouts.now }
    requires order { IsOrderOf world.now.bounds order.now }
    requires judged { OnRows (slice_get world.now.refs r.0) (slice_get world.now.refs t.0)
        (AreJudged (tables_of world.now)) }
    ensures answer { OnRows (slice_get world.now.refs r.0) (slice_get world.now.refs t.0)
        (λ source target. IsLocalAnswer (tables_of world.now) assume source target result) }
{
    let source = row(world, r);
    let target = row(world, t);
    for rule in RULES {
        if !keeps(world, layouts, order, assume, source, target, rule) {
            return Err(rule);
        }
    }
    Ok(())
}

/// A reference type of the world.
fn row(world: &World, id: RefId) -> &RefRow
    requires { id.0 < length world.now.refs }
    ensures { slice_get world.now.refs id.0 ≡ Some result.now }
{
    &world.refs.as_slice()[id.0 as usize]
}

/// Whether two reference types keep a local rule.
fn keeps(
    world: &World,
    layouts: &Layouts,
    order: &Order,
    assume: Assume,
    source: &RefRow,
    target: &RefRow,
    rule: LocalRule,
) -> bool
    requires made { IsMadeFor (tables_of world.now) layouts.now }
    requires order { IsOrderOf world.now.bounds order.now }
    requires source { IsLaidOut (tables_of world.now) source.now.pointee }
    requires target { IsLaidOut (tables_of world.now) target.now.pointee }
    ensures { IsTrue result ↔ Keeps (tables_of world.now) assume source.now target.now rule }
{
    match rule {
        LocalRule::MoreUnique => source.mutable || !target.mutable,
        LocalRule::TooBig => {
            layout(world, layouts, &target.pointee).size
                <= layout(world, layouts, &source.pointee).size
        }
        LocalRule::Alignment => {
            layout(world, layouts, &target.pointee).align
                <= layout(world, layouts, &source.pointee).align
                || assume.alignment
        }
        LocalRule::Interior => {
            target.mutable
                || (!layouts.interior(&source.pointee) && !layouts.interior(&target.pointee))
        }
        LocalRule::Lifetime => order.outlives(source.region, target.region) || assume.lifetimes,
    }
}
