use indexmap::IndexMap;
use tm_parse::Decl;

/// The definitions of a file, and for each name, in order of declaration, the number of the first one that
/// has it.
#[derive(Drop)]
pub struct Definitions<'a> {
    pub decls: &'a [Decl],
    pub firsts: IndexMap<&'a [u8], usize>,
}
