//! What only a holder of private fields may make.
ghost use Rattle.std.specs.Prelude.{◌≡◌, IfOk};
ghost use Rattle.std.specs.List.{list_all};
ghost use Rattle.tm_tree.specs.Parts.{guarded, hidden};

use crate::rows::one;
use std::alloc::Global;
use tm_base::{Boxed, Def, Field, Memory, Tree};
use tm_niche::Members;

/// Whether each of some fields is public.
fn are_public(fields: &[Field]) -> bool
    ensures { result ≡ list_all (λ f. f.public) fields.now }
{
    fields.iter().all(|field| field.public)
}

/// Whether each field of a definition is public.
pub fn is_public(def: &Def) -> bool
    ensures { result ≡ list_all (λ v. list_all (λ f. f.public) v.fields) def.now.variants }
{
    let variants = def.variants.as_slice();
    variants
        .iter()
        .all(|variant| are_public(variant.fields.as_slice()))
}

/// A tree that only a holder of private fields may make words of.
fn hidden(alloc: Global, tree: Tree) -> Result<Tree, Memory>
    ensures { IfOk result (λ made. made ≡ hidden tree) }
{
    match tree {
        Tree::Never => Ok(Tree::Never),
        other => Ok(Tree::Private(Boxed::new(alloc, other)?)),
    }
}

/// Trees in a row, of a type with public fields alone or not.
pub fn guarded(alloc: Global, public: bool, parts: Members) -> Result<Members, Memory>
    ensures { IfOk result (λ made. made ≡ guarded public parts) }
{
    if public {
        Ok(parts)
    } else {
        one(alloc, hidden(alloc, parts.in_turn(alloc)?)?)
    }
}
