use tm_base::{Assume, Boxed, Kind, List, Primitive, Wrapper};

/// A type as it is written. Names and lifetimes are places in the list of tokens.
///
/// `Array` has the element's type and the length. `Named` has the name, and the lifetimes and the types
/// that are given to it. `Ref` has the lifetime, whether it is `&mut`, and what it points to. The empty
/// `Tuple` is `()`.
#[derive(Drop)]
pub enum Expr {
    Prim(Primitive),
    Never,
    Tuple(List<Expr>),
    Array(Boxed<Expr>, u32),
    NonZero(Primitive),
    Wrap(Wrapper, Boxed<Expr>),
    Named(u32, List<u32>, List<Expr>),
    Ref(u32, bool, Boxed<Expr>),
}

/// An item of a `repr` attribute. `packed` alone is `Packed(1)`.
#[derive(Clone, Copy)]
pub enum ReprItem {
    C,
    Transparent,
    Int(Primitive),
    Packed(u128),
    Align(u128),
}

/// A field: its name's place, whether plain `pub` is written before it, and its type.
///
/// A field of a tuple has no name.
#[derive(Drop)]
pub struct DeclField {
    pub name: Option<u32>,
    pub public: bool,
    pub ty: Expr,
}

/// A variant of an enum: its name's place, its discriminant where one is written, and its fields.
///
/// A struct or a union is one variant, with neither name nor discriminant.
#[derive(Drop)]
pub struct DeclVariant {
    pub name: Option<u32>,
    pub negative: bool,
    pub value: Option<u128>,
    pub fields: List<DeclField>,
}

/// An item of a `repr` attribute, with the place of the attribute's word `repr`.
#[derive(Clone, Copy)]
pub struct DeclRepr {
    pub token: u32,
    pub item: ReprItem,
}

/// A definition: its name's place, the items of all its `repr` attributes, the places of its parameters,
/// lifetimes and types, and its variants.
#[derive(Drop)]
pub struct Decl {
    pub kind: Kind,
    pub name: u32,
    pub reprs: List<DeclRepr>,
    pub params: List<u32>,
    pub type_params: List<u32>,
    pub variants: List<DeclVariant>,
}

/// That one lifetime outlives another: the places of both.
#[derive(Clone, Copy)]
pub struct DeclBound {
    pub longer: u32,
    pub shorter: u32,
}

/// A question as it is written.
#[derive(Drop)]
pub struct DeclAsk {
    pub src: Expr,
    pub dst: Expr,
    pub assume: Assume,
}

/// A file as it is written: its items by their sorts, each in the file's order.
#[derive(Drop)]
pub struct Parsed {
    pub lifetimes: List<u32>,
    pub bounds: List<DeclBound>,
    pub decls: List<Decl>,
    pub questions: List<DeclAsk>,
}
