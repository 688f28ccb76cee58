use tm_base::{Ground, Why};
use tm_validate::Fits;

/// What the bytes of a run are to the target of a question.
#[derive(Drop)]
pub enum Match {
    /// The target is judged, and the bytes are this to it.
    Fits(Fits),
    /// The target isn't judged, for this cause of this type.
    Refused(Why, Ground),
}
