ghost use Rattle.std.specs.Prelude.{◌≡◌, ℕ, ◌⊎◌, IfOk, IfErr, MatchResult};
ghost use Rattle.tm_base.specs.declared.limit.NameWhy.{NameWhy as Kind};
ghost use Rattle.tm_lex.specs.Lexes.{Tokenizes};
ghost use Rattle.tm_names.specs.ApartNames.{HasApartNames};
ghost use Rattle.tm_names.specs.Checking.{HasCause, IsPlaceOf};
ghost use Rattle.tm_names.specs.Faults.{HasNoFault, IsFirstFault};
ghost use Rattle.tm_names.specs.InForm.{IsInForm};
ghost use Rattle.tm_names.specs.Resolutions.{resolved_of};
ghost use Rattle.tm_names.specs.Written.{name_at};
ghost use Rattle.tm_parse.specs.Parsing.{SpellsFile};
ghost use Rattle.tm_parse.specs.Spelling.{terminals_of};

use crate::fault::NameErr;
use crate::faults::first_fault;
use crate::file::File;
use crate::indexed::Definitions;
use crate::resolved::Resolved;
use crate::source::Source;
use std::alloc::Global;
use tm_base::Profile;
use tm_lex::Token;
use tm_parse::Parsed;

/// What the names of a file mean under a profile, where none of them is at fault. Each
/// definition has a name of its own, which no type has that each file has, and so has each region.
///
/// The file is what `tm_parse::parse` answers for the text and its tokens. `Fault(why, place)` comes
/// exactly where the file has a fault: this one stands at the least token, counted from 0, and of two at
/// one token its kind is named first in [`tm_base::NameWhy`]. `Memory`: there wasn't enough memory.
pub fn check(
    alloc: Global,
    text: &str,
    tokens: &[Token],
    parsed: &Parsed,
    profile: Profile,
) -> Result<Resolved, NameErr>
    requires tokenized { Tokenizes text.now tokens.now }
    requires spelled { SpellsFile (terminals_of text.now tokens.now) parsed.now }
    ensures resolved { IfOk result (λ found. found ≡ resolved_of profile
        (name_at text.now tokens.now) parsed.now) }
    ensures profile { IfOk result (λ found. found.profile ≡ profile) }
    ensures sound { IfOk result (λ _. HasNoFault profile (name_at text.now tokens.now) parsed.now) }
    ensures in_form { IfOk result IsInForm }
    ensures apart { IfOk result HasApartNames }
    ensures fault { IfErr result (HasCause profile (name_at text.now tokens.now) parsed.now) }
    ensures place { IfErr result (IsPlaceOf tokens.now) }

    // A file has one first fault at most, which is answered where memory isn't wanting.
    ensures faults { (why : Kind) (place : ℕ) → IsFirstFault profile (name_at text.now tokens.now)
        parsed.now why place → MatchResult result (λ _. ⊥)
        (λ err. (err ≡ NameErr.Fault why place) ⊎ (err ≡ NameErr.Memory)) }
{
    let source = Source {
        text,
        tokens,
        profile,
    };
    let Ok(definitions) = Definitions::indexed(alloc, &source, parsed.decls.as_slice()) else {
        return Err(NameErr::Memory);
    };
    let file = File {
        alloc,
        source,
        definitions: &definitions,
    };
    match first_fault(&file, parsed) {
        Err(_) => Err(NameErr::Memory),
        Ok(Some(fault)) => Err(NameErr::Fault(fault.why, fault.place)),
        Ok(None) => match file.resolved(parsed) {
            Ok(found) => Ok(found),
            Err(_) => Err(NameErr::Memory),
        },
    }
}
