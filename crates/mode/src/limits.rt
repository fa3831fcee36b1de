// The limits of the mode, in bytes.

// The longest associated data.
pub(crate) const DATA_MOST: usize = 4096;

// The longest message.
pub(crate) const MESSAGE_MOST: usize = 65536;

// The trailer that ends every padded message.
pub(crate) const TRAILER: usize = 13;
