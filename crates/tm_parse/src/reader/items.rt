ghost use Rattle.std.specs.Prelude.{◌≡◌, ◌∷◌, [], OnOk};
ghost use Rattle.tm_parse.specs.Combinators.{starts};
ghost use Rattle.tm_parse.specs.Files.{
  appended,
  file as file_rule,
  item as item_rule,
  lifetime as lifetime_rule,
  outlives as outlives_rule,
  sorted,
};
ghost use Rattle.tm_parse.specs.Reads.{Reads};

use crate::class::Class;
use crate::mark::Mark;
use crate::parsed::{Decl, DeclAsk, DeclBound, Parsed};
use crate::reader::Reader;
use crate::stop::Stop;
use tm_base::{List, Memory};

/// An item of a file: a lifetime that is declared, by its place, that one outlives another, a definition
/// or a question.
#[derive(Drop)]
pub enum Item {
    Lifetime(u32),
    Outlives(DeclBound),
    Definition(Decl),
    Question(DeclAsk),
}

/// Adds an item behind those of its sort.
fn add_item(file: &mut Parsed, item: Item) -> Result<(), Memory>
    ensures { OnOk result (file.new ≡ appended file.old (sorted (item ∷ []))) }
{
    match item {
        Item::Lifetime(place) => file.lifetimes.add(place),
        Item::Outlives(bound) => file.bounds.add(bound),
        Item::Definition(decl) => file.decls.add(decl),
        Item::Question(ask) => file.questions.add(ask),
    }
}

impl<'a> Reader<'a> {
    /// `lifetime 'a;`.
    fn lifetime(&mut self) -> Result<Item, Stop>
        ensures { Reads lifetime_rule self.old self.new result }
    {
        self.take(Class::Declare)?;
        let begins = self.is_next(Class::Lifetime);
        self.begin(begins, Mark::Lifetime)?;
        let name = self.take(Class::Lifetime)?;
        self.take(Class::Semicolon)?;
        Ok(Item::Lifetime(name.place))
    }

    /// `outlives 'a: 'b;`.
    fn outlives(&mut self) -> Result<Item, Stop>
        ensures { Reads outlives_rule self.old self.new result }
    {
        self.take(Class::Outlives)?;
        let longer = self.take(Class::Lifetime)?.place;
        self.take(Class::Colon)?;
        let shorter = self.take(Class::Lifetime)?.place;
        self.take(Class::Semicolon)?;
        Ok(Item::Outlives(DeclBound { longer, shorter }))
    }

    /// Whether an item comes next.
    fn is_item_next(&self) -> bool
        ensures { result ≡ starts (item_rule 0).first self.now.rest.now }
    {
        self.is_any_next(&[
            Class::Declare,
            Class::Outlives,
            Class::Ask,
            Class::Hash,
            Class::Pub,
            Class::Struct,
            Class::Union,
            Class::Enum,
        ])
    }

    /// The next item.
    fn item(&mut self) -> Result<Item, Stop>
        ensures { Reads (item_rule 0) self.old self.new result }
    {
        if self.is_next(Class::Declare) {
            return self.lifetime();
        }
        if self.is_next(Class::Outlives) {
            return self.outlives();
        }
        if self.is_next(Class::Ask) {
            return self.question();
        }
        Ok(Item::Definition(self.definition()?))
    }

    /// The items of a file, up to a terminal that begins none.
    pub fn file(&mut self) -> Result<Parsed, Stop>
        ensures { Reads (file_rule 0) self.old self.new result }
    {
        let mut file = Parsed {
            lifetimes: List::new(self.alloc),
            bounds: List::new(self.alloc),
            decls: List::new(self.alloc),
            questions: List::new(self.alloc),
        };
        for _ in 0..self.rest.len() {
            if !self.is_item_next() {
                return Ok(file);
            }
            add_item(&mut file, self.item()?)?;
        }
        Ok(file)
    }
}
