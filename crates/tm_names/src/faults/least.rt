ghost use Rattle.std.specs.Prelude.{◌≡◌};
ghost use Rattle.tm_names.specs.Least.{earliest, fault_where, is_no_later, keep};
ghost use Rattle.tm_names.specs.Ranks.{rank};

use crate::file::File;
use tm_base::NameWhy;

/// A name fault and the token at which it stands.
#[derive(Clone, Copy, Debug)]
pub struct NameFault {
    pub why: NameWhy,
    pub place: u32,
}

/// The number of a kind of fault in their order.
fn rank(why: NameWhy) -> u32
    ensures { result ≡ rank why }
{
    match why {
        NameWhy::Twice => 0,
        NameWhy::Unknown => 1,
        NameWhy::Arity => 2,
        NameWhy::Lifetime => 3,
        NameWhy::Discriminant => 4,
        NameWhy::Infinite => 5,
        NameWhy::BadRepr => 6,
    }
}

/// Whether a fault is the other one or stands before it.
fn is_no_later(fault: NameFault, other: NameFault) -> bool
    ensures { result ≡ is_no_later fault other }
{
    fault.place < other.place || fault.place == other.place && rank(fault.why) <= rank(other.why)
}

/// The faults that are found in a file, of which the first is kept.
#[derive(Clone, Copy)]
pub struct Faults<'d, 'a> {
    pub file: File<'d, 'a>,
    pub first: Option<NameFault>,
}

impl Faults<'_, '_> {
    /// Takes note of a fault.
    fn keep(&mut self, fault: NameFault)
        ensures first { self.new.first ≡ keep self.old.first fault }
        ensures file { self.new.file ≡ self.old.file }
    {
        match self.first {
            Some(kept) if is_no_later(kept, fault) => {}
            _ => self.first = Some(fault),
        }
    }

    /// Takes note of a fault at a place, if something is wrong there.
    pub fn note(&mut self, wrong: bool, why: NameWhy, place: u32)
        ensures first { self.new.first ≡ earliest self.old.first (fault_where wrong why place) }
        ensures file { self.new.file ≡ self.old.file }
    {
        if wrong {
            self.keep(NameFault { why, place });
        }
    }
}
