ghost use Rattle.std.specs.Prelude.{◌≡◌};
ghost use Rattle.tm_parse.specs.Combinators.{to};
ghost use Rattle.tm_parse.specs.Files.{
  assume as assume_rule,
  assumed,
  behind_source as behind_source_rule,
  flags as flags_of,
  is_flagged as is_flagged_by,
  question as question_rule,
};
ghost use Rattle.tm_parse.specs.Reads.{Reads};

use crate::class::Class;
use crate::mark::Mark;
use crate::parsed::{DeclAsk, Expr};
use crate::reader::Reader;
use crate::reader::items::Item;
use crate::reader::rule::AnyOf;
use crate::stop::Stop;
use crate::terminal::Terminal;
use tm_base::Assume;

/// The classes of the flags of `assume`.
const FLAGS: [Class; 4] = [
    Class::Alignment,
    Class::Lifetimes,
    Class::Safety,
    Class::Validity,
];

/// Whether the flag is written.
fn is_flagged(flag: Class, terminals: &[Terminal]) -> bool
    ensures { result ≡ is_flagged_by flag terminals.now }
{
    terminals
        .iter()
        .any(|terminal| flag.is_alike(terminal.class))
}

/// The flags that are written.
fn flags(terminals: &[Terminal]) -> Assume
    ensures { result ≡ flags_of terminals.now }
{
    Assume {
        alignment: is_flagged(Class::Alignment, terminals),
        lifetimes: is_flagged(Class::Lifetimes, terminals),
        safety: is_flagged(Class::Safety, terminals),
        validity: is_flagged(Class::Validity, terminals),
    }
}

impl<'a> Reader<'a> {
    /// `assume` with its flags, which may be left out.
    fn assume(&mut self) -> Result<Assume, Stop>
        ensures { Reads (to assumed assume_rule) self.old self.new result }
    {
        if !self.is_next(Class::Assume) {
            return Ok(flags(&[]));
        }
        self.take(Class::Assume)?;
        let written = self.listed1(&AnyOf(&FLAGS))?;
        Ok(flags(written.as_slice()))
    }

    /// What stands behind the source of a question.
    fn behind_source(&mut self) -> Result<(Expr, Assume), Stop>
        ensures { Reads (behind_source_rule 0) self.old self.new result }
    {
        self.take(Class::Arrow)?;
        let dst = self.outermost()?;
        let assume = self.assume()?;
        self.take(Class::Semicolon)?;
        Ok((dst, assume))
    }

    /// A question.
    pub fn question(&mut self) -> Result<Item, Stop>
        ensures { Reads (question_rule 0) self.old self.new result }
    {
        let begins = self.is_next(Class::Ask);
        self.begin(begins, Mark::Question)?;
        self.take(Class::Ask)?;
        let src = self.outermost()?;
        let (dst, assume) = self.behind_source()?;
        Ok(Item::Question(DeclAsk { src, dst, assume }))
    }
}
