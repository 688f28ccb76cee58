use crate::file::File;
use crate::resolving::sight::Sight;

/// What resolves the names and lifetimes of types: a file, and what is in sight besides.
#[derive(Clone, Copy)]
pub struct Resolver<'d, 'a> {
    pub file: File<'d, 'a>,
    pub sight: Sight<'d>,
}
