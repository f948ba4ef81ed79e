// What serving is handed.
use monitor_running::TracedHost;

/// The host objects that serving is handed besides the sink and the files.
#[derive(Drop)]
pub struct ServeOutside<D, L, V, G, C, W, M, T> {
    pub turns: TracedHost<D, L, V, G, C, T>,
    pub words: W,
    pub listener: M,
}
