// Which tokens a service asks for.

/// The version of the metadata service that a guest is given.
#[derive(Clone, Copy, Drop)]
pub enum MetadataVersion {
    /// Every GET is answered.
    V1,
    /// A GET needs a token that is live, and a PUT gives one.
    V2,
}
