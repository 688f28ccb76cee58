ghost use Rattle.std.specs.Prelude.{◌≤◌, length};

/// Names or lifetimes by their places, no more than a file may declare lifetimes.
#[derive(Clone, Copy)]
pub struct Names<'a> {
    pub places: &'a [u32],
    pub ghost few: { length places.now ≤ 16 },
}

/// What is in sight besides `'static` and the definitions: a definition's lifetime and type parameters, or
/// the declared lifetimes of the file.
#[derive(Clone, Copy)]
pub enum Sight<'a> {
    Params(Names<'a>, Names<'a>),
    Declared(Names<'a>),
}
