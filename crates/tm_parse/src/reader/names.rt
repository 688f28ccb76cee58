ghost use Rattle.std.specs.Prelude.{◌≡◌, refl};
ghost use Rattle.tm_parse.specs.Combinators.{starts};
ghost use Rattle.tm_parse.specs.Definitions.{is_public as is_public_of, visibility as visibility_rule};
ghost use Rattle.tm_parse.specs.Reads.{Reads};
ghost use Rattle.tm_parse.specs.Shapes.{any, optional};
ghost use Rattle.tm_parse.specs.Types.{definition_names, names};

use crate::class::Class;
use crate::reader::Reader;
use crate::reader::rule::Rule;
use crate::stop::Stop;
use crate::terminal::Terminal;

/// The classes of words that a field or a variant may be called by.
const NAMES: [Class; 22] = [
    Class::INTEGER,
    Class::SCALAR,
    Class::ALIAS,
    Class::GENERIC,
    Class::NonZero,
    Class::Foreign,
    Class::Name,
    Class::Align,
    Class::Alignment,
    Class::Ask,
    Class::Assume,
    Class::C,
    Class::Derive,
    Class::Declare,
    Class::Lifetimes,
    Class::Outlives,
    Class::Packed,
    Class::Repr,
    Class::Safety,
    Class::Transparent,
    Class::Union,
    Class::Validity,
];

/// The classes of words that a definition may be called by.
const DEFINITION_NAMES: [Class; 16] = [
    Class::Name,
    Class::Align,
    Class::Alignment,
    Class::Ask,
    Class::Assume,
    Class::C,
    Class::Derive,
    Class::Declare,
    Class::Lifetimes,
    Class::Outlives,
    Class::Packed,
    Class::Repr,
    Class::Safety,
    Class::Transparent,
    Class::Union,
    Class::Validity,
];

/// What narrows a visibility.
pub const NARROWER: [Class; 3] = [Class::Crate, Class::Super, Class::Myself];

/// Whether the visibility is plain `pub`.
pub fn is_public(visibility: Option<bool>) -> bool
    ensures { result ≡ is_public_of visibility }
{
    match visibility {
        Some(plain) => plain,
        None => false,
    }
}

/// A word that a field or a variant may be called by.
pub struct Word;

impl Rule for Word {
    type Value = Terminal;

    ghost rule = { λ _. any names };

    ghost begun = { λ _. refl };

    fn begins(&self, reader: &Reader) -> bool {
        reader.is_name_next()
    }

    fn read(&self, reader: &mut Reader) -> Result<Terminal, Stop> {
        reader.name()
    }
}

impl<'a> Reader<'a> {
    /// A word that a field or a variant may be called by.
    pub fn name(&mut self) -> Result<Terminal, Stop>
        ensures { Reads (any names) self.old self.new result }
    {
        self.take_any(&NAMES)
    }

    /// Whether a word that a field or a variant may be called by comes next.
    pub fn is_name_next(&self) -> bool
        ensures { result ≡ starts names self.now.rest.now }
    {
        self.is_any_next(&NAMES)
    }

    /// A word that a definition may be called by.
    pub fn definition_name(&mut self) -> Result<Terminal, Stop>
        ensures { Reads (any definition_names) self.old self.new result }
    {
        self.take_any(&DEFINITION_NAMES)
    }

    /// Whether a word that a definition may be called by comes next.
    pub fn is_definition_name_next(&self) -> bool
        ensures { result ≡ starts definition_names self.now.rest.now }
    {
        self.is_any_next(&DEFINITION_NAMES)
    }

    /// `pub`, or `pub(crate)` and the like: whether it is plain `pub`.
    fn visibility(&mut self) -> Result<bool, Stop>
        ensures { Reads visibility_rule self.old self.new result }
    {
        self.take(Class::Pub)?;
        if !self.is_next(Class::OpenParen) {
            return Ok(true);
        }
        self.take(Class::OpenParen)?;
        self.take_any(&NARROWER)?;
        self.take(Class::CloseParen)?;
        Ok(false)
    }

    /// A visibility that may be left out: whether it is plain `pub`, where it is there.
    pub fn optional_visibility(&mut self) -> Result<Option<bool>, Stop>
        ensures { Reads (optional visibility_rule) self.old self.new result }
    {
        if !self.is_next(Class::Pub) {
            return Ok(None);
        }
        Ok(Some(self.visibility()?))
    }
}
