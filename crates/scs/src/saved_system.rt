//! A copy of the System Control Space, to go back to.

use crate::status::Status;
use clock::{Clock, SysTickState};
use devices::Devices;
use mpu::MpuRegs;
use nvic::Exceptions;
use std::marker::Model;

/// A copy of the system registers, the exceptions, time and devices. A contract sees it as the reference's `System`.
#[derive(Drop)]
pub struct SavedSystem<L: Exceptions, U: SysTickState> {
    pub(crate) mpu: MpuRegs,
    pub(crate) exceptions: L,
    pub(crate) status: Status,
    pub(crate) clock: Clock<U>,
    pub(crate) devices: Devices,
}

impl<L: Exceptions, U: SysTickState> Model for SavedSystem<L, U> {
    ghost use Rattle.platform.specs.System.{System as SystemState};

    ghost Value = { SystemState };

    ghost view = { λ s. record {
      mpu = s.mpu;
      nvic = L.content s.exceptions;
      status = s.status;
      time = s.clock.time;
      devices = s.devices;
    } };
}
