//! The values of the core registers.

/// The values of the core registers, each as a word.
#[derive(Clone, Copy)]
pub struct RegValues {
    /// R0 to R12.
    pub general: [u32; 13],
    pub msp: u32,
    pub psp: u32,
    pub lr: u32,
    /// The address of the next instruction.
    pub pc: u32,
    pub xpsr: u32,
    pub control: u32,
    pub primask: u32,
    pub faultmask: u32,
    pub basepri: u32,
}
