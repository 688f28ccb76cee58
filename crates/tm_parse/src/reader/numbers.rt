ghost use Rattle.std.specs.Prelude.{◌∷◌, []};
ghost use Rattle.tm_parse.specs.Combinators.{one, to};
ghost use Rattle.tm_parse.specs.Definitions.{
  discriminant as discriminant_rule,
  in_parens as in_parens_rule,
};
ghost use Rattle.tm_parse.specs.Events.{array_length};
ghost use Rattle.tm_parse.specs.Limits.{number_of};
ghost use Rattle.tm_parse.specs.Reads.{Reads};
ghost use Rattle.tm_parse.specs.Types.{number as a_number};

use crate::class::Class;
use crate::reader::Reader;
use crate::stop::Stop;
use crate::terminal::Terminal;
use tm_base::LimitKind;

impl<'a> Reader<'a> {
    /// A number in parentheses, as its terminal.
    pub fn in_parens(&mut self) -> Result<Terminal, Stop>
        ensures { Reads in_parens_rule self.old self.new result }
    {
        self.take(Class::OpenParen)?;
        let number = self.take(Class::NUMBER)?;
        self.take(Class::CloseParen)?;
        Ok(number)
    }

    /// A written discriminant: whether it is negative, and its number.
    pub fn discriminant(&mut self) -> Result<(bool, u128), Stop>
        ensures { Reads discriminant_rule self.old self.new result }
    {
        self.take(Class::Equals)?;
        let negative = self.accept(Class::Minus)?;
        let value = self.take(Class::NUMBER)?;
        Ok((negative, value.number()))
    }

    /// The length of an array.
    #[tactic(auto, unfolding(crate::specs::Counting::step))]
    pub fn length(&mut self) -> Result<u32, Stop>
        ensures { Reads (to number_of (one array_length (a_number ∷ []))) self.old self.new result }
    {
        match self.rest {
            [] => Err(Stop::Stuck),
            [terminal, rest @ ..] => {
                if !Class::NUMBER.is_alike(terminal.class) {
                    return Err(Stop::Stuck);
                }
                let value = terminal.number();
                if value > 4294967295 {
                    return Err(Stop::Passed(LimitKind::ArrayLength));
                }
                if terminal.is_name_too_long() {
                    return Err(Stop::Passed(LimitKind::NameBytes));
                }
                self.rest = rest;
                Ok(value as u32)
            }
        }
    }
}
