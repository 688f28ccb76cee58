use tm_base::{Assume, Bound, Boxed, Def, DefId, List, Primitive, Profile, Text, Wrapper};

/// A lifetime that is resolved.
///
/// `Declared(k)` is the region at place k of the file's regions, 1 at least; `Param(k)` the parameter at
/// place k, from 0, of the definition in whose field it stands.
#[derive(Clone, Copy, PartialEq, Eq, Debug)]
pub enum Life {
    Static,
    Declared(u32),
    Param(u32),
}

/// A type whose names are resolved, in which lifetimes and types may be parameters.
///
/// `Array` has the element's type and the length. `NonZero` holds an integer type. `Named` has the
/// definition, and a lifetime and a type for each of its parameters. `Ref` has the lifetime, whether it is
/// `&mut`, and what it points to. `Param` is the type parameter at a place, from 0, of the definition in
/// whose field it stands. The empty `Tuple` is `()`.
#[derive(Debug, Drop)]
pub enum Open {
    Prim(Primitive),
    Never,
    Tuple(List<Open>),
    Array(Boxed<Open>, u32),
    NonZero(Primitive),
    Wrap(Wrapper, Boxed<Open>),
    Named(DefId, List<Life>, List<Open>),
    Ref(Life, bool, Boxed<Open>),
    Param(u32),
}

/// A question: may a value of `src` be taken as one of `dst`, where so much is assumed? No lifetime and no
/// type in it is a parameter.
#[derive(Debug, Drop)]
pub struct OpenAsk {
    pub src: Open,
    pub dst: Open,
    pub assume: Assume,
}

/// A file whose names are resolved for a profile.
///
/// A [`DefId`] is a place in `defs`. `types` has one list for each definition, in it one for each variant,
/// and in that one type for each field. `regions` has the text of each region: `'static` first, then the
/// declared lifetimes in the file's order.
#[derive(Debug, Drop)]
pub struct Resolved {
    pub profile: Profile,
    pub defs: List<Def>,
    pub types: List<List<List<Open>>>,
    pub regions: List<Text>,
    pub bounds: List<Bound>,
    pub asks: List<OpenAsk>,
}
