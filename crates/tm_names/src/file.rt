ghost use Rattle.std.proofs.Props.{props};
ghost use Rattle.tm_names.specs.Indexing.{IsIndexed};
ghost use Rattle.tm_names.specs.Source.{names_in};

use crate::indexed::Definitions;
use crate::source::Source;
use std::alloc::Global;

/// A file: its text, its definitions, each found by its name, and where memory for answers comes from.
#[derive(Clone, Copy)]
pub struct File<'d, 'a> {
    pub alloc: Global,
    pub source: Source<'a>,
    pub definitions: &'d Definitions<'a>,
    pub ghost indexed: { IsIndexed (names_in source) definitions.now } by { Prim.hlevel props },
}
