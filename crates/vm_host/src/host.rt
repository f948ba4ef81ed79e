// All host objects that actors ask.

/// One object of each kind: the disks of all block devices, the links of all network devices, the host's end of the
/// vsock device, the words of all entropy devices, and the clock.
#[derive(Drop)]
pub struct Host<D, L, V, G, C> {
    pub disk: D,
    pub link: L,
    pub vsock: V,
    pub guest_words: G,
    pub clock: C,
}
