//! The trees of types that aren't defined in the world, from those of their parts.
ghost use Rattle.std.specs.Prelude.{◌≡◌, ℕ, IfOk};
ghost use Rattle.tm_base.specs.declared.ground.Wrapper.TheVariants.{MaybeUninit};
ghost use Rattle.tm_base.specs.Layout.{prim_size};
ghost use Rattle.tm_base.specs.Shapes.{HasSize};
ghost use Rattle.tm_niche.specs.Forms.{joined};
ghost use Rattle.tm_tree.specs.Parts.{prim_parts, turns_of, wrap_parts};

use crate::rows::{one, repeated};
use std::alloc::Global;
use tm_base::{Memory, Primitive, Profile, Tree, Wrapper};
use tm_niche::{Members, char_tree, null_or};

/// The trees of a primitive, which has so many bytes.
pub fn primitive(
    alloc: Global,
    profile: Profile,
    p: Primitive,
    size: u32,
) -> Result<Members, Memory>
    requires { size ≡ prim_size profile p }
    ensures { IfOk result (λ parts. parts ≡ prim_parts profile p) }
{
    match p {
        Primitive::Bool => one(alloc, Tree::Range(0, 1)),
        Primitive::Char => one(alloc, char_tree(alloc, profile)?),
        _ => repeated(alloc, size, Tree::Range(0, 255)),
    }
}

/// So many turns of trees in a row.
pub fn turns(alloc: Global, count: u32, parts: Members) -> Result<Members, Memory>
    ensures { IfOk result (λ made. made ≡ turns_of count parts) }
{
    if count == 1 {
        Ok(parts)
    } else {
        repeated(alloc, count, parts.in_turn(alloc)?)
    }
}

/// So many bytes that nothing is asked of, or trees in a row.
fn uninit_or(alloc: Global, size: u32, parts: Members) -> Result<Members, Memory>
    ensures { IfOk result (λ made. made ≡ wrap_parts MaybeUninit size parts) }
{
    let mut ways = Members::new(alloc);
    ways.push(repeated(alloc, size, Tree::Pad)?.in_turn(alloc)?)?;
    ways.push(parts.in_turn(alloc)?)?;
    one(alloc, ways.one_of(alloc)?)
}

/// The trees of a wrapper, from those of its argument, which has so many bytes.
pub fn wrapped(
    alloc: Global,
    wrapper: Wrapper,
    size: u32,
    parts: Members,
) -> Result<Members, Memory>
    requires { (pointer : ℕ) × HasSize pointer size (joined parts) }
    ensures { IfOk result (λ made. made ≡ wrap_parts wrapper size parts) }
{
    match wrapper {
        Wrapper::Option => one(alloc, null_or(alloc, parts.in_turn(alloc)?, size)?),
        Wrapper::MaybeUninit => uninit_or(alloc, size, parts),
        _ => Ok(parts),
    }
}
