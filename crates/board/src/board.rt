//! A board as it was read.

use devices::Device;
use platform::board::Layout;
use platform::script::ScriptedEvent;

/// A board: its layout, its script and its devices, both in the order of the text.
#[derive(Drop)]
pub struct Board {
    pub layout: Layout,
    pub events: Vec<ScriptedEvent>,
    pub devices: Vec<Device>,
}
