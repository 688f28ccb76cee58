use tm_base::{Answer, Assume, List};

/// What a question needs.
#[derive(Drop)]
pub enum Need {
    /// The least sets of assumptions under which its answer is yes. Both its types are judged.
    Least(List<Assume>),
    /// One of its types isn't judged, and this is the refusal.
    Refused(Answer),
}
