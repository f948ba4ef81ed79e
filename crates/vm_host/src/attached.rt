// Which of the host's objects a device has.
use vm_types::TextList;

/// The host's object that a device has, by the name that it was attached with.
#[derive(Drop)]
pub enum Attached {
    /// None was attached.
    Nothing,
    /// The one of this name.
    Named(TextList),
    /// One was attached, and there was no memory to keep its name.
    Unkept,
}
