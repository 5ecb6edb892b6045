//! Which calls a stream is served.

/// The routes of a stream.
#[derive(Clone, Copy)]
pub enum Interface {
    /// The devices' calls alone.
    Devices,
    /// The management calls alone.
    Management,
    /// The calls of both.
    Both,
}
