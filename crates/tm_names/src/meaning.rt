/// What a type's name means: the definition of a number, or the type parameter at a place, from 0, of the
/// definition in whose field it stands.
#[derive(Clone, Copy, Debug)]
pub enum Meaning {
    Definition(usize),
    Parameter(usize),
}
