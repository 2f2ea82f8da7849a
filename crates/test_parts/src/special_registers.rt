//! MRS, MSR and CPS (ARM DDI 0403, the operation of each), on a board with 4 priority bits.

use crate::words::shown;
use clock::{EagerSysTick, Script};
use devices::Devices;
use instruction_set::system::{ChangeProcessorState, SpecialRegister};
use mpu::Search;
use nvic::PlainExceptions;
use regs::Regs;
use scs::System;
use std::alloc::Global;
use std::io;
use test_tables::{Lines, Outcome, halfword_at, meaning, number_at, part, run_lines, word};

/// Returns the outcome of a row, whose second line says where it begins.
pub fn outcome(alloc: Global, row: &str) -> io::Result<Outcome> {
    match fresh(alloc, row.lines().nth(1).unwrap_or("")) {
        Some(mut specials) => run_lines(alloc, row, 2, &mut specials),
        None => Ok(Outcome::Unreadable),
    }
}

/// The registers and the system after a reset, in Thread mode or in the handler of line 0.
fn fresh(alloc: Global, mode: &str) -> Option<Specials> {
    let (script, devices) = (
        Script::new(alloc, &[]).ok()?,
        Devices::new(alloc, &[]).ok()?,
    );
    let mut regs = Regs::reset(0x2000_1000, 0x0000_0101);
    match mode {
        "thread" => {}
        "handler" => regs.enter_handler(16, 0xFFFF_FFF9, 0x0000_0201),
        _ => return None,
    }
    let system = System::reset(0, 8, 4, 8, script, devices);
    Some(Specials { regs, system })
}

const SPECIALS: [(&str, SpecialRegister); 14] = [
    ("apsr", SpecialRegister::Apsr),
    ("iapsr", SpecialRegister::Iapsr),
    ("eapsr", SpecialRegister::Eapsr),
    ("xpsr", SpecialRegister::Xpsr),
    ("ipsr", SpecialRegister::Ipsr),
    ("epsr", SpecialRegister::Epsr),
    ("iepsr", SpecialRegister::Iepsr),
    ("msp", SpecialRegister::Msp),
    ("psp", SpecialRegister::Psp),
    ("primask", SpecialRegister::Primask),
    ("basepri", SpecialRegister::Basepri),
    ("basepri_max", SpecialRegister::BasepriMax),
    ("faultmask", SpecialRegister::Faultmask),
    ("control", SpecialRegister::Control),
];

/// The core registers and the system that the lines of a row go on.
#[derive(Drop)]
struct Specials {
    regs: Regs,
    system: System<Search, PlainExceptions, EagerSysTick>,
}

impl Specials {
    /// CPS with these letters, `i` for PRIMASK and `f` for FAULTMASK.
    fn change(&mut self, disables: bool, letters: &str) {
        let operands = ChangeProcessorState {
            disables,
            primask: letters.contains('i'),
            faultmask: letters.contains('f'),
        };
        self.system
            .change_state(self.regs.is_privileged(), &operands);
    }
}

impl Lines for Specials {
    fn answer(&mut self, alloc: Global, line: &str) -> Option<String> {
        let asked = part(line, 0);
        match word(asked, 0) {
            "activate" => self.system.activate(halfword_at(asked, 1)?),
            "deactivate" => self.system.deactivate(halfword_at(asked, 1)?),
            "cpsid" => self.change(true, word(asked, 1)),
            "cpsie" => self.change(false, word(asked, 1)),
            "mrs" => {
                let special = meaning(&SPECIALS, word(asked, 1))?;
                return shown(alloc, Some(self.system.read_special(&self.regs, special)));
            }
            "msr" => {
                let special = meaning(&SPECIALS, word(asked, 1))?;
                let value = number_at(asked, 2)?;
                self.system.write_special(&mut self.regs, special, value);
            }
            "masks" => {
                let masks = self.system.masks();
                let (primask, faultmask) = (masks.primask as u32, masks.faultmask as u32);
                let basepri = masks.basepri;
                return format!(in alloc; "{primask} {faultmask} {basepri:X}").ok();
            }
            "stack" => return shown(alloc, Some(self.regs.main_stack())),
            _ => return None,
        }
        Some(String::new(alloc))
    }
}
