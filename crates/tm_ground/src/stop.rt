/// Why types can't be added to a list.
///
/// `Full`: it would have more than it may. `Memory`: there wasn't enough memory.
#[derive(Clone, Copy, PartialEq, Eq, Debug)]
pub enum Stop {
    Full,
    Memory,
}
