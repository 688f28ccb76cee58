use std::io;

/// A source or a sink failed, and counted it.
#[derive(Clone, Copy, PartialEq, Eq, Debug)]
pub struct Failed;

impl From<io::Error> for Failed {
    fn from(_error: io::Error) -> Failed {
        Failed
    }
}
