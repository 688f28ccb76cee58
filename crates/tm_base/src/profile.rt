/// The machine that sizes and bytes are asked for: its byte order, and how long an address is.
///
/// Every other size is the same under all profiles, and every primitive is aligned to its size.
#[derive(Clone, Copy, PartialEq, Eq, Debug)]
pub enum Profile {
    /// The least significant byte first; addresses of 8 bytes.
    Le64,
    /// The most significant byte first; addresses of 8 bytes.
    Be64,
    /// The least significant byte first; addresses of 4 bytes.
    Le32,
}
