ghost use Rattle.std.specs.Prelude.{◌≡◌, ◌↔◌, ℕ, All, Bool as Truth, IsTrue, List};
ghost use Rattle.tm_parse.specs.Accepted.{IsAnswer, IsFaultAt, IsFile, PassesAt, answer_of};
ghost use Rattle.tm_parse.specs.Accepted.{IsOnlyFile, IsReadAs, StopsAtLimit, StopsBefore};
ghost use Rattle.tm_parse.specs.Bounds.{CarriesInteger, EachType, HasFewItems, HasFewParts};
ghost use Rattle.tm_parse.specs.Bounds.{HasIntegers, HasItsVariants, HasShortArrays, IsSmall};
ghost use Rattle.tm_parse.specs.NameClasses.{HoldsWhere, is_lifetime, may_name};
ghost use Rattle.tm_parse.specs.Places.{HasPlacesBelow, StandBelow};
ghost use Rattle.tm_base.specs.declared.limit.LimitKind.{LimitKind as Limit};
ghost use Rattle.tm_parse.specs.declared.parsed.Parsed.{Parsed as File};
ghost use Rattle.tm_parse.specs.declared.terminal.Terminal.{Terminal as Sign};

/// What holds of the grammar of question files.
///
/// A list of terminals is answered with a file exactly where it spells that file within the limits, and
/// it spells no other one. It is stuck exactly at the first terminal with which no file goes on, where
/// no limit is passed before it. A limit is answered exactly at the first terminal that passes one, and
/// only where some file goes on with that terminal. Each list is answered in one of these ways.
pub fn grammar_is_exact()
    ensures file { (v : File) (ts : List Sign) → IsReadAs v ts ↔ IsFile v ts }
    ensures one_file { (v : File) (ts : List Sign) → IsFile v ts → IsOnlyFile v ts }
    ensures fault { (front rest : List Sign) → StopsBefore front rest ↔ IsFaultAt front rest }
    ensures limit { (kind : Limit) (front : List Sign) (t : Sign) (rest : List Sign)
        → StopsAtLimit kind front t rest ↔ PassesAt kind front t }
    ensures every { (ts : List Sign) → IsAnswer ts (answer_of ts) }
{}

/// What each file keeps that is spelled within the limits.
///
/// It has few items of each sort, and each definition few parts of each sort, as the limits say. A struct is
/// one variant, so is a union, and each variant of an enum has a name. Few types are written in one, each
/// array's length is within the limit, and each `NonZero` is of an integer type where the terminals for
/// integer types carry one. Each place is that of a terminal.
pub fn files_keep_limits()
    ensures items { (v : File) (ts : List Sign) → IsFile v ts → HasFewItems v }
    ensures variants { (v : File) (ts : List Sign) → IsFile v ts → All HasItsVariants v.decls }
    ensures parts { (v : File) (ts : List Sign) → IsFile v ts → All HasFewParts v.decls }
    ensures types { (v : File) (ts : List Sign) → IsFile v ts → EachType IsSmall v }
    ensures arrays { (v : File) (ts : List Sign) → IsFile v ts → EachType HasShortArrays v }
    ensures integers { (v : File) (ts : List Sign)
        → IsFile v ts → All CarriesInteger ts → EachType HasIntegers v }
    ensures places { (v : File) (ts : List Sign) (n : ℕ)
        → IsFile v ts → StandBelow n ts → HasPlacesBelow n v }
{}

/// At which terminals a file declares names.
///
/// A definition's name stands at a word that a definition may be called by, and a declared lifetime at a
/// lifetime: what holds of the places of all these holds of the file's.
pub fn files_declare_names()
    ensures names { (holds : ℕ → Truth) (v : File) (ts : List Sign)
        → IsFile v ts → HoldsWhere may_name holds ts → All (λ d. IsTrue (holds d.name)) v.decls }
    ensures lifetimes { (holds : ℕ → Truth) (v : File) (ts : List Sign)
        → IsFile v ts → HoldsWhere is_lifetime holds ts
        → All (λ place. IsTrue (holds place)) v.lifetimes }
{}
