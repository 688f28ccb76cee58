//! What the two quantifiers seek, in plain words. Each is the contract of a function that does nothing,
//! so that it is proved with the crate.
ghost use Rattle.std.specs.Prelude.{ℕ, Bool, ◌↔◌};
ghost use Rattle.tm_base.specs.Cells.{Word};
ghost use Rattle.tm_walk.specs.Sought.{NoneIsSought, IsFound};
ghost use Rattle.tm_walk.specs.Meanings.{for_all_stops, for_all_skips, exists_stops, exists_skips, EachWordFits, NoWordFits, IsFirstRefusal, IsLeastExample};

use tm_auto::Auto;

/// For all: none is sought exactly where each source word fits, and what is found is the word that the
/// target refuses first.
pub fn for_all_seeks_refusals(src: &Auto, dst: &Auto)
    ensures none { (A : ℕ → ℕ → Bool)
        → NoneIsSought A src.now dst.now for_all_stops for_all_skips
        ↔ EachWordFits A src.now dst.now }
    ensures found { (A : ℕ → ℕ → Bool) (w : Word) (offset : ℕ)
        → IsFound A src.now dst.now for_all_stops for_all_skips w offset
        → IsFirstRefusal A src.now dst.now w offset }
{
    src.law();
    dst.law();
}

/// Exists: none is sought exactly where no source word fits, and what is found is the least that does.
pub fn exists_seeks_examples(src: &Auto, dst: &Auto)
    ensures none { (A : ℕ → ℕ → Bool)
        → NoneIsSought A src.now dst.now exists_stops exists_skips
        ↔ NoWordFits A src.now dst.now }
    ensures found { (A : ℕ → ℕ → Bool) (w : Word) (offset : ℕ)
        → IsFound A src.now dst.now exists_stops exists_skips w offset
        → IsLeastExample A src.now dst.now w offset }
{
    src.law();
    dst.law();
}
