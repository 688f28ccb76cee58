ghost use Rattle.std.specs.Prelude.{◌≡◌};
ghost use Rattle.tm_ground.specs.Closed.{closed};
ghost use Rattle.tm_ground.specs.Limits.{is_named, is_ref};
ghost use Rattle.tm_ground.specs.Occurs.{parts_in};
ghost use Rattle.tm_ground.specs.Sets.{closed_types};

use tm_names::Open;

/// Whether a closed type is a named one.
#[tactic(auto, using(crate::proofs::forms::OpenLemmas::put_ins))]
pub fn is_named(ty: &Open) -> bool
    ensures { result ≡ is_named (closed ty.now) }
{
    match ty {
        Open::Named(_, _, _) => true,
        Open::Prim(_) | Open::Never | Open::Tuple(_) | Open::Array(_, _) => false,
        Open::NonZero(_) | Open::Wrap(_, _) | Open::Ref(_, _, _) | Open::Param(_) => false,
    }
}

/// Whether a closed type is a reference.
#[tactic(auto, using(crate::proofs::forms::OpenLemmas::put_ins))]
pub fn is_ref(ty: &Open) -> bool
    ensures { result ≡ is_ref (closed ty.now) }
{
    match ty {
        Open::Ref(_, _, _) => true,
        Open::Prim(_) | Open::Never | Open::Tuple(_) | Open::Array(_, _) => false,
        Open::NonZero(_) | Open::Wrap(_, _) | Open::Named(_, _, _) | Open::Param(_) => false,
    }
}

/// The types that a closed type is written with, but for a named one's arguments.
#[tactic(auto, using(crate::proofs::forms::OpenLemmas::put_ins))]
pub fn parts<'a>(ty: &'a Open) -> &'a [Open]
    ensures { closed_types result.now ≡ parts_in (closed ty.now) }
{
    match ty {
        Open::Tuple(elements) => elements.as_slice(),
        Open::Array(part, _) | Open::Wrap(_, part) | Open::Ref(_, _, part) => {
            std::slice::from_ref(part.get())
        }
        Open::Prim(_) | Open::Never | Open::NonZero(_) => &[],
        Open::Named(_, _, _) | Open::Param(_) => &[],
    }
}
