use tm_base::NameWhy;

/// Why a file's names aren't resolved.
///
/// `Fault(why, place)`: a name fault of this kind stands at the token at the place, counted from 0, and it
/// is the first of the file. `Memory`: there wasn't enough memory.
#[derive(Clone, Copy, PartialEq, Eq, Debug)]
pub enum NameErr {
    Fault(NameWhy, u32),
    Memory,
}
