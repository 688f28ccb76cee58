ghost use Rattle.std.specs.Prelude.{◌≡◌, ◌++◌, IfOk, OnOk, flat_map, map};
ghost use Rattle.tm_names.specs.Mentions.{mentions_of};
ghost use Rattle.tm_names.specs.Scopes.{decl_mentions, variant_mentions};

use crate::adding::add;
use crate::faults::mentions::{Mention, NameMention};
use std::alloc::Global;
use tm_base::{List, Memory};
use tm_parse::{Decl, DeclVariant, Expr};

/// Puts lifetimes behind the others.
fn add_lives(found: &mut List<Mention>, lifetimes: &[u32]) -> Result<(), Memory>
    ensures { OnOk result (found.new ≡ found.old ++ map Mention.Life lifetimes.now) }
{
    for life in lifetimes {
        add(found, Mention::Life(*life))?;
    }
    Ok(())
}

/// Puts what a type mentions behind the others.
#[cycle(mentioning)]
#[tactic(auto, unfolding(crate::specs::Mentions::mentions_of))]
pub fn add_mentions(found: &mut List<Mention>, ty: &Expr) -> Result<(), Memory>
    ensures { OnOk result (found.new ≡ found.old ++ mentions_of ty.now) }
{
    match ty {
        Expr::Prim(_) => Ok(()),
        Expr::Never => Ok(()),
        Expr::Tuple(elements) => add_all(found, elements.as_slice()),
        Expr::Array(element, _) => add_mentions(found, element.get()),
        Expr::NonZero(_) => Ok(()),
        Expr::Wrap(_, argument) => add_mentions(found, argument.get()),
        Expr::Named(place, lifetimes, arguments) => {
            let mention = NameMention {
                place: *place,
                lifetimes: lifetimes.len(),
                types: arguments.len(),
            };
            add(found, Mention::Name(mention))?;
            add_lives(found, lifetimes.as_slice())?;
            add_all(found, arguments.as_slice())
        }
        Expr::Ref(life, _, pointee) => {
            add(found, Mention::Life(*life))?;
            add_mentions(found, pointee.get())
        }
    }
}

/// Puts what some types mention behind the others.
#[cycle(mentioning)]
fn add_all(found: &mut List<Mention>, types: &[Expr]) -> Result<(), Memory>
    ensures { OnOk result (found.new ≡ found.old ++ flat_map mentions_of types.now) }
{
    for ty in types {
        add_mentions(found, ty)?;
    }
    Ok(())
}

/// Puts what a variant mentions in its fields' types behind the rest.
fn add_variant_mentions(found: &mut List<Mention>, variant: &DeclVariant) -> Result<(), Memory>
    ensures { OnOk result (found.new ≡ found.old ++ variant_mentions variant.now) }
{
    for field in variant.fields.as_slice() {
        add_mentions(found, &field.ty)?;
    }
    Ok(())
}

/// What a definition mentions in its fields' types.
pub fn mentions(alloc: Global, decl: &Decl) -> Result<List<Mention>, Memory>
    ensures { IfOk result (λ found. found ≡ decl_mentions decl.now) }
{
    let mut found = List::new(alloc);
    for variant in decl.variants.as_slice() {
        add_variant_mentions(&mut found, variant)?;
    }
    Ok(found)
}
