ghost use Rattle.std.specs.Prelude.{◌≡◌, flat_map};
ghost use Rattle.tm_names.specs.Found.{mention_faults, name_faults, repeats, reserved};
ghost use Rattle.tm_names.specs.Least.{earliest};
ghost use Rattle.tm_names.specs.Meanings.{meaning_of, takes};
ghost use Rattle.tm_names.specs.Scopes.{is_in_sight};
ghost use Rattle.tm_names.specs.Source.{names_in};

use crate::faults::least::Faults;
use crate::faults::mentions::{Mention, NameMention};
use crate::indexed::Definitions;
use crate::meaning::Meaning;
use crate::source::Source;
use tm_base::NameWhy;

impl Source<'_> {
    /// Whether the lifetime at a place is in sight.
    fn is_in_sight(&self, sight: &[u32], place: u32) -> bool
        ensures { result ≡ is_in_sight (names_in self.now) sight.now place }
    {
        self.is_static(place) || self.is_among(sight, place)
    }
}

impl Definitions<'_> {
    /// Whether what is given to a name is what it takes.
    fn takes(&self, meaning: Meaning, mention: NameMention) -> bool
        ensures { result ≡ takes self.now.decls.now meaning mention }
    {
        match meaning {
            Meaning::Definition(number) => match self.decls.get(number) {
                None => true,
                Some(decl) => {
                    mention.lifetimes == decl.params.len()
                        && mention.types == decl.type_params.len()
                }
            },
            Meaning::Parameter(_) => mention.lifetimes == 0 && mention.types == 0,
        }
    }
}

impl Faults<'_, '_> {
    /// Takes note of the names in a list that stand before in it.
    pub fn note_repeats(&mut self, places: &[u32])
        ensures first { self.new.first ≡ earliest self.old.first
            (repeats (names_in self.old.file.source) places.now) }
        ensures file { self.new.file ≡ self.old.file }
    {
        let source = self.file.source;
        for (number, place) in places.iter().enumerate() {
            let again = source.is_among(&places[..number], *place);
            self.note(again, NameWhy::Twice, *place);
        }
    }

    /// Takes note of the lifetimes in a list that can't be declared.
    pub fn note_reserved(&mut self, places: &[u32])
        ensures first { self.new.first ≡ earliest self.old.first
            (reserved (names_in self.old.file.source) places.now) }
        ensures file { self.new.file ≡ self.old.file }
    {
        let source = self.file.source;
        for place in places {
            self.note(source.is_reserved(*place), NameWhy::Lifetime, *place);
        }
    }

    /// Takes note of the fault of a name in a type, where these type parameters are in sight.
    fn note_name(&mut self, types: &[u32], mention: NameMention)
        ensures first { self.new.first ≡ earliest self.old.first
            (name_faults self.old.file.definitions.now.decls.now mention (meaning_of
            (names_in self.old.file.source) self.old.file.definitions.now.decls.now types.now
            mention.place)) }
        ensures file { self.new.file ≡ self.old.file }
    {
        match self.file.meaning(types, mention.place) {
            None => self.note(true, NameWhy::Unknown, mention.place),
            Some(meaning) => {
                let differs = !self.file.definitions.takes(meaning, mention);
                self.note(differs, NameWhy::Arity, mention.place);
            }
        }
    }

    /// Takes note of the fault of a mention, where these lifetimes and type parameters are in sight.
    fn note_mention(&mut self, sight: &[u32], types: &[u32], mention: Mention)
        ensures first { self.new.first ≡ earliest self.old.first (mention_faults
            (names_in self.old.file.source) self.old.file.definitions.now.decls.now sight.now
            types.now mention) }
        ensures file { self.new.file ≡ self.old.file }
    {
        match mention {
            Mention::Name(mention) => self.note_name(types, mention),
            Mention::Life(place) => {
                let hidden = !self.file.source.is_in_sight(sight, place);
                self.note(hidden, NameWhy::Lifetime, place);
            }
        }
    }

    /// Takes note of the faults of mentions, where these lifetimes and type parameters are in sight.
    pub fn note_mentions(&mut self, sight: &[u32], types: &[u32], mentions: &[Mention])
        ensures first { self.new.first ≡ earliest self.old.first (flat_map (mention_faults
            (names_in self.old.file.source) self.old.file.definitions.now.decls.now sight.now
            types.now) mentions.now) }
        ensures file { self.new.file ≡ self.old.file }
    {
        for mention in mentions {
            self.note_mention(sight, types, *mention);
        }
    }
}
