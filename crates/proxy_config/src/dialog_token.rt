//! What the tokens of dialogs are made with.

/// What the token of a dialog is made with, by which the requests within it are known where they come back to the proxy.
#[derive(Clone, Copy)]
pub struct DialogToken {
    /// Bytes that nobody else has.
    pub secret: [u8; 32],
    /// The second since 1970 at which the dialog begins.
    pub second: u32,
}
