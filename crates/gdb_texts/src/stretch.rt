//! Addresses side by side, of one kind.

/// What a stretch of addresses is.
#[derive(Clone, Copy)]
pub enum MemoryKind {
    /// Flash: it is read and executed.
    Flash,
    /// RAM: it is read, written and executed.
    Ram,
    /// Devices, the device window or the Private Peripheral Bus: they are read and written.
    Registers,
}

/// Addresses side by side, of one kind.
#[derive(Clone, Copy)]
pub struct Stretch {
    /// The first address.
    pub base: u32,
    /// The first address after them.
    pub end: u64,
    pub kind: MemoryKind,
}

impl Default for Stretch {
    fn default() -> Self {
        Stretch {
            base: 0,
            end: 0,
            kind: MemoryKind::Registers,
        }
    }
}
