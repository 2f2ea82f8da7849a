//! The state of the System Control Space, accesses to it, and ticks.

ghost use Rattle.std.specs.Prelude.{◌≡◌, ◌+◌, ◌^◌, ◌<◌, ◌≤◌, ◌⊎◌, ◌&&◌, ℕ, List, true, false, not, IfOk, IfSome};
ghost use Rattle.clock.specs.DueTick.{DueTickIsExact};
ghost use Rattle.devices.specs.declared.device.Device.{Device as TheDevice};
ghost use Rattle.devices.specs.Copies.{HaveSameDevices};
ghost use Rattle.devices.specs.Devices.{fresh};
ghost use Rattle.instruction_set.specs.Registers.{is_privileged};
ghost use Rattle.instruction_set.specs.Sizes.{bytes_in};
ghost use Rattle.mpu.specs.Spans.{GrantsSpan};
ghost use Rattle.platform.specs.Outcomes.{IsOf, LeavesUnlessDone};
ghost use Rattle.platform.specs.System.{reset_system, after_tick, deactivated, after_read, register_written};
ghost use Rattle.platform.specs.System.{register_access, system_access, with_nvic, mpu_written};
ghost use Rattle.platform.specs.System as spec;
ghost use Rattle.platform.specs.Interrupts as nvic;
ghost use Rattle.platform.specs.Regions as mpu;
ghost use Rattle.platform.specs.Regions.{is_on, region_registers};
ghost use Rattle.platform.specs.Priorities.{is_below_zero, with_pending, with_active, with_faultmask};
ghost use Rattle.platform.specs.Rules.{decision_of, is_off_below_zero};
ghost use Rattle.platform.specs.SpecialRegisters.{with_special, with_mask};
ghost use Rattle.platform.specs.SpecialRegisters as special;
ghost use Rattle.platform.specs.Status.{with_fault_bits, with_mmfar, with_bfar};
ghost use Rattle.platform.specs.Time.{due_of, passed};
ghost use Rattle.scs.specs.Writes.{after_write, answered};

use crate::addresses::{first_byte, has_width, in_place, part_of, register_at};
use crate::control::{read_control, write_control};
use crate::interrupts::{read_interrupts, read_priorities, write_interrupts, write_priorities};
use crate::saved_system::SavedSystem;
use crate::settling::poke_by;
use crate::special;
use crate::status::Status;
use crate::systick::{read_systick, write_systick};
use clock::{Clock, Script, SysTickState};
use devices::Devices;
use instruction_set::system::{ChangeProcessorState, SpecialRegister};
use mpu::{Decider, GrantedSpan, MpuRegister, MpuRegs, stop_of, uses_regions};
use nvic::{Exceptions, Masks};
use platform::access::{Access, Decision, Kind, Performed, Request, Rule};
use platform::exception::FIRST_INTERRUPT;
use platform::stop::{Stop, Unsupported};
use platform::system::SystemRegister;
use regs::Regs;
use std::alloc::{AllocError, Global};
use std::marker::Model;

/// The address of STIR.
const STIR: u32 = 0xE000_EF00;

/// The MPU with what decides by it, the exceptions, the status registers, time, and the board's devices.
#[derive(Drop)]
pub struct System<D: Decider, L: Exceptions, U: SysTickState> {
    mpu: MpuRegs,
    decider: D,
    pub(crate) exceptions: L,
    status: Status,
    pub(crate) clock: Clock<U>,
    pub(crate) devices: Devices,
}

impl<D: Decider, L: Exceptions, U: SysTickState> Model for System<D, L, U> {
    ghost use Rattle.clock.specs.DueTick.{DueTickIsExact};
    ghost use Rattle.platform.specs.System.{System as SystemState};

    ghost Value = { SystemState };

    ghost view = { λ s. record {
      mpu = s.mpu;
      nvic = L.content s.exceptions;
      status = s.status;
      time = s.clock.time;
      devices = s.devices;
    } };

    ghost invariant = { λ s. D.decides_for s.decider s.mpu × DueTickIsExact s.clock };
}

impl<D: Decider, L: Exceptions, U: SysTickState> System<D, L, U> {
    /// Returns the system after a reset: with flash at `flash_base`, `interrupts` external interrupts, of which
    /// the first 240 count, `priority_bits` bits of a priority, 8 or 16 regions, a script, and devices at the start.
    #[tactic(auto, unfolding(platform::specs::System::settled))]
    pub fn reset(
        flash_base: u32,
        interrupts: u8,
        priority_bits: u8,
        regions: u8,
        script: Script,
        devices: Devices,
    ) -> Self
        requires { (regions ≡ 8) ⊎ (regions ≡ 16) }
        ensures { (table : List TheDevice) → devices ≡ fresh table
            → result ≡ reset_system flash_base interrupts priority_bits regions script table }
    {
        let mpu = MpuRegs::new(regions);
        let decider = D::fresh(&mpu);
        let mut system = System {
            mpu,
            decider,
            exceptions: L::fresh(interrupts, priority_bits),
            status: Status::reset(flash_base),
            clock: Clock::new(script),
            devices,
        };
        system.settle();
        system
    }

    /// Returns a copy, without what decides by the registers of the MPU, or fails where memory can't be allocated.
    pub fn save(&self, alloc: Global) -> Result<SavedSystem<L, U>, AllocError>
        ensures { IfOk result (λ saved. saved ≡ self.now) }
    {
        let clock = self.clock.copied(alloc)?;
        let devices = self.devices.copied(alloc)?;
        Ok(SavedSystem {
            mpu: self.mpu,
            exceptions: self.exceptions.copied(),
            status: self.status.copied(),
            clock,
            devices,
        })
    }

    /// Copies the state to a copy that has the same devices.
    pub fn save_to(&self, saved: &mut SavedSystem<L, U>)
        requires { HaveSameDevices saved.old.devices self.now.devices }
        ensures { saved.new ≡ self.now }
    {
        saved.mpu = self.mpu;
        saved.exceptions = self.exceptions.copied();
        saved.status = self.status.copied();
        saved.clock.copy_from(&self.clock);
        saved.devices.copy_from(&self.devices);
    }

    /// Takes the state of a copy that has the same devices.
    pub fn restore(&mut self, saved: &SavedSystem<L, U>)
        requires { HaveSameDevices self.old.devices saved.now.devices }
        ensures { self.new ≡ saved.now }
    {
        self.mpu = saved.mpu;
        self.decider.reload(&saved.mpu);
        self.exceptions = saved.exceptions.copied();
        self.status = saved.status.copied();
        self.clock.copy_from(&saved.clock);
        self.devices.copy_from(&saved.devices);
    }

    /// Makes the next tick: time goes on, and what the tick pends becomes pending. On most ticks
    /// nothing is due: only time goes on.
    #[inline]
    pub fn tick(&mut self)
        requires { self.old.time.ticks < 2 ^ 48 }
        ensures { self.new ≡ after_tick self.old }
    {
        if !self.tick_quietly() {
            self.tick_and_pend();
        }
    }

    /// Makes the next tick if the due tick that is kept says that nothing is due at it. Returns whether it did.
    #[inline(always)]
    #[tactic(auto, using(nvic::proofs::Due::nothing_is_pended), unfolding(platform::specs::System::after_tick))]
    pub fn tick_quietly(&mut self) -> bool
        requires { self.old.time.ticks < 2 ^ 48 }
        ensures tick { result ≡ true → self.new ≡ after_tick self.old }
        ensures alone { result ≡ true → self.new.nvic ≡ self.old.nvic }
        ensures same { result ≡ false → self.new ≡ self.old }
    {
        self.clock.tick_quietly()
    }

    /// Returns for how many ticks from now on nothing is due; 0 if that isn't known.
    #[inline]
    pub fn quiet_ticks(&self) -> u64
        ensures { 0 < result → self.now.time.ticks + result < due_of self.now.time }
    {
        self.clock.quiet_ticks()
    }

    /// Makes the next tick, at which nothing is due.
    #[inline(always)]
    #[tactic(auto, using(crate::proofs::Passing::only_time_passes))]
    pub fn pass(&mut self)
        requires { self.old.time.ticks + 1 < due_of self.old.time }
        ensures tick { self.new ≡ after_tick self.old }
        ensures time { self.new ≡ record self.old { time = passed self.old.time } }
    {
        self.clock.pass();
    }

    /// Makes the next tick, makes pending what is due at it, and then pokes words of devices, after which their lines
    /// settle.
    #[cold]
    #[inline(never)]
    #[tactic(auto, using(nvic::proofs::Due::due_is_pended, crate::proofs::Devices::tick_lemmas))]
    fn tick_and_pend(&mut self)
        requires { self.old.time.ticks < 2 ^ 48 }
        ensures { self.new ≡ after_tick self.old }
    {
        let ticks = self.clock.now() + 1;
        let poked = poke_by(&mut self.devices, ticks, self.clock.events_next());
        let due = self.clock.tick_due();
        self.exceptions.pend_due(&due);
        if poked {
            self.settle();
        }
    }

    /// Returns the number of ticks that have gone by, at most 2^48.
    #[inline]
    pub fn ticks(&self) -> u64
        ensures value { result ≡ self.now.time.ticks }
        ensures small { result ≤ 2 ^ 48 }
    {
        self.clock.now()
    }

    /// Returns time.
    pub fn clock(&self) -> &Clock<U>
        ensures value { result.now.time ≡ self.now.time }
        ensures right { DueTickIsExact result.now }
    {
        &self.clock
    }

    /// Returns the exceptions.
    #[inline]
    pub fn exceptions(&self) -> &L
        ensures { L.content result.now ≡ self.now.nvic }
    {
        &self.exceptions
    }

    pub fn masks(&self) -> Masks
        ensures { result ≡ self.now.nvic.masks }
    {
        self.exceptions.masks()
    }

    /// Returns what decides accesses by the registers of the MPU.
    #[inline]
    pub fn decider(&self) -> &D
        ensures { D.decides_for result.now self.now.mpu }
    {
        &self.decider
    }

    /// Returns the rule that decides an access at the current execution priority, and whether it
    /// grants it.
    #[inline(always)]
    pub fn decide(&mut self, access: &Access) -> Decision
        ensures value { result ≡ decision_of self.old.mpu access.now.address access.now.kind access.now.privileged
            (is_below_zero self.old.nvic) }
        ensures same { self.new ≡ self.old }
    {
        let below_zero = self.exceptions.is_below_zero();
        self.decider
            .decide_and_keep(access.address, access.kind, access.privileged, below_zero)
    }

    /// Returns the rule that grants an access at the current execution priority, if that is kept.
    #[inline(always)]
    pub fn kept_rule(&self, access: &Access) -> Option<Rule>
        ensures { IfSome result
            (λ rule. decision_of self.now.mpu access.now.address access.now.kind access.now.privileged
            (is_below_zero self.now.nvic) ≡ record { rule = rule; granted = true }) }
    {
        if self.exceptions.is_below_zero() {
            return None;
        }
        self.decider
            .kept_rule(access.address, access.kind, access.privileged)
    }

    /// Returns addresses near one, to each of which a rule grants an access of that kind, by code of that privilege, at
    /// the current execution priority, if such addresses are kept.
    #[inline(always)]
    pub fn kept_span(&self, address: u32, kind: Kind, privileged: bool) -> Option<GrantedSpan>
        ensures { IfSome result (λ span. GrantsSpan self.now.mpu (is_below_zero self.now.nvic) span kind privileged) }
    {
        let below_zero = self.exceptions.is_below_zero();
        if below_zero {
            return None;
        }
        self.decider.kept_span(address, kind, privileged)
    }

    /// Returns VTOR, SCR, CCR and the registers of faults.
    #[inline]
    pub fn status(&self) -> &Status
        ensures { result.now ≡ self.now.status }
    {
        &self.status
    }

    /// Returns the registers of the MPU.
    #[inline]
    pub fn mpu(&self) -> &MpuRegs
        ensures { result.now ≡ self.now.mpu }
    {
        &self.mpu
    }

    /// Returns RBAR (with VALID 0 and REGION `number`) and RASR of a region, if there is one.
    pub fn region(&self, number: u8) -> Option<(u32, u32)>
        ensures { result ≡ region_registers self.now.mpu number }
    {
        self.mpu.region(number)
    }

    /// Returns whether the regions of the MPU decide now: MPU_CTRL.ENABLE is 1, and HFNMIENA is 1 or
    /// the execution priority isn't below 0.
    pub fn uses_regions(&self) -> bool
        ensures { result ≡ (is_on self.now.mpu.control
            && not (is_off_below_zero self.now.mpu.control (is_below_zero self.now.nvic))) }
    {
        uses_regions(self.mpu.control(), self.exceptions.is_below_zero())
    }

    /// Reads a special register as MRS does.
    pub fn read_special(&self, regs: &Regs, register: SpecialRegister) -> u32
        ensures { result ≡ special.read_special regs.now self.now.nvic.masks register }
    {
        special::read_special(regs, self.exceptions.masks(), register)
    }

    /// Writes a special register as MSR does, with the privilege of `regs`.
    pub fn write_special(&mut self, regs: &mut Regs, register: SpecialRegister, value: u32)
        ensures registers { regs.new ≡ special.write_special regs.old register value }
        ensures system { self.new ≡ with_nvic self.old
            (special.write_mask (is_privileged regs.old) self.old.nvic register value) }
    {
        special::write_mask(&mut self.exceptions, regs.is_privileged(), register, value);
        special::write_special(regs, register, value);
    }

    /// Writes a special register as MSR by privileged code does, whatever privilege `regs` has.
    pub fn place_special(&mut self, regs: &mut Regs, register: SpecialRegister, value: u32)
        ensures registers { regs.new ≡ with_special regs.old register value }
        ensures system { self.new ≡ with_nvic self.old (with_mask self.old.nvic register value) }
    {
        special::set_mask(&mut self.exceptions, register, value);
        special::set_special(regs, register, value);
    }

    /// Changes the masks as CPS does, by code that is privileged or not.
    pub fn change_state(&mut self, privileged: bool, operands: &ChangeProcessorState)
        ensures { self.new ≡ with_nvic self.old (special.change_state privileged self.old.nvic operands.now) }
    {
        special::change_state(&mut self.exceptions, privileged, operands);
    }

    /// Makes an exception pending.
    pub fn pend(&mut self, number: u16)
        ensures { self.new ≡ with_nvic self.old (with_pending self.old.nvic number true) }
    {
        self.exceptions.pend(number);
    }

    /// Makes an exception no longer pending.
    pub fn clear(&mut self, number: u16)
        ensures { self.new ≡ with_nvic self.old (with_pending self.old.nvic number false) }
    {
        self.exceptions.clear(number);
    }

    /// Makes an exception active.
    pub fn activate(&mut self, number: u16)
        ensures { self.new ≡ with_nvic self.old (with_active self.old.nvic number true) }
    {
        self.exceptions.activate(number);
    }

    /// Makes an exception inactive, and pending again where its interrupt is high: `DeActivate()`.
    #[tactic(auto, unfolding(platform::specs::System::deactivated))]
    pub fn deactivate(&mut self, number: u16)
        ensures { self.new ≡ deactivated self.old number }
    {
        let is_asserted = self.is_asserted(number);
        self.exceptions.deactivate(number);
        if is_asserted {
            self.pend(number);
        }
    }

    /// Returns whether an exception is an interrupt of the board whose interrupt is high.
    fn is_asserted(&self, number: u16) -> bool
        ensures { result ≡ spec.is_asserted self.now number }
    {
        number >= FIRST_INTERRUPT
            && number - FIRST_INTERRUPT < u16::from(self.exceptions.interrupts())
            && self.clock.high((number - FIRST_INTERRUPT) as u8)
    }

    /// Sets FAULTMASK to 0.
    pub fn clear_faultmask(&mut self)
        ensures { self.new ≡ with_nvic self.old (with_faultmask self.old.nvic false) }
    {
        self.exceptions.set_faultmask(false);
    }

    /// Sets bits of CFSR and HFSR, as a fault does.
    pub fn set_fault_bits(&mut self, cfsr: u32, hfsr: u32)
        ensures { self.new ≡ record self.old { status = with_fault_bits self.old.status cfsr hfsr } }
    {
        self.status.set_fault_bits(cfsr, hfsr);
    }

    /// Sets MMFAR, as a MemManage fault does.
    pub fn set_mmfar(&mut self, address: u32)
        ensures { self.new ≡ record self.old { status = with_mmfar self.old.status address } }
    {
        self.status.set_mmfar(address);
    }

    /// Sets BFAR, as a BusFault does.
    pub fn set_bfar(&mut self, address: u32)
        ensures { self.new ≡ record self.old { status = with_bfar self.old.status address } }
    {
        self.status.set_bfar(address);
    }

    /// Carries out a load or a store in the Private Peripheral Bus that a rule granted, while IPSR is `exception`, or
    /// returns why not.
    #[tactic(auto, unfolding(platform::specs::System::system_access))]
    pub fn access(&mut self, exception: u16, rule: Rule, request: &Request) -> Performed
        ensures system { self.new ≡ (system_access exception self.old rule request.now).after }
        ensures performed { result ≡ (system_access exception self.old rule request.now).performed }
        ensures of_request { IsOf request.now result }
        ensures refused { LeavesUnlessDone result self.old self.new }
    {
        if !request.access.kind.is_load() && !request.access.kind.is_store() {
            return Performed::bus_error(rule);
        }
        let register = register_at(request.access.address & !3);
        self.access_register(exception, rule, request, register)
    }

    /// Carries out an access to a register: the access's privilege is checked first, then its width.
    #[tactic(auto, using(crate::proofs::Refused::refused_leaves), unfolding(platform::specs::System::register_access))]
    fn access_register(
        &mut self,
        exception: u16,
        rule: Rule,
        request: &Request,
        register: SystemRegister,
    ) -> Performed
        ensures system { self.new ≡ (register_access exception self.old rule request.now register).after }
        ensures performed { result ≡ (register_access exception self.old rule request.now register).performed }
        ensures of_request { IsOf request.now result }
        ensures refused { LeavesUnlessDone result self.old self.new }
    {
        if !self.has_access(request) {
            return Performed::bus_error(rule);
        }
        if !has_width(register, request.access.size) {
            return Performed::Stop(Stop::OutOfProfile(Unsupported::RegisterWidth));
        }
        if !request.access.kind.is_store() {
            let word = self.read(exception, register);
            return Performed::done(rule, part_of(request, word));
        }
        match self.write(request, register) {
            Ok(()) => Performed::done(rule, 0),
            Err(stop) => Performed::Stop(stop),
        }
    }

    /// Returns whether the bus accepts an access: one of privileged code, or a word that is stored
    /// to STIR where CCR.USERSETMPEND is 1.
    fn has_access(&self, request: &Request) -> bool
        ensures { result ≡ spec.has_access self.now request.now }
    {
        request.access.privileged
            || (request.access.kind.is_store()
                && request.access.size.is_word()
                && request.access.address == STIR
                && self.status.usersetmpend())
    }

    /// Reads a register as a word.
    #[tactic(auto, unfolding(platform::specs::System::word_at, platform::specs::System::after_read))]
    fn read(&mut self, exception: u16, register: SystemRegister) -> u32
        ensures value { result ≡ spec.word_at exception self.old register }
        ensures system { self.new ≡ after_read self.old register }
    {
        match register {
            SystemRegister::SysTick(register) => read_systick(&mut self.clock, register),
            SystemRegister::Interrupts(register, word) => {
                read_interrupts(&self.exceptions, register, word)
            }
            SystemRegister::Priorities(first) => read_priorities(&self.exceptions, first),
            SystemRegister::Control(register) => read_control(
                &self.exceptions,
                exception,
                register,
            ),
            SystemRegister::Status(register) => self.status.read(register),
            SystemRegister::Mpu(register) => self.mpu.read_reg(register),
            SystemRegister::Unlisted => 0,
        }
    }

    /// Writes a register; a write that stops changes nothing.
    #[tactic(auto, unfolding(platform::specs::System::register_written))]
    fn write(&mut self, request: &Request, register: SystemRegister) -> Result<(), Stop>
        ensures system { self.new ≡ after_write self.old (register_written self.old request.now register) }
        ensures answer { result ≡ answered (register_written self.old request.now register) }
    {
        let value = request.value;
        match register {
            SystemRegister::SysTick(register) => write_systick(&mut self.clock, register, value),
            SystemRegister::Interrupts(register, word) => {
                write_interrupts(&mut self.exceptions, register, word, value);
            }
            SystemRegister::Priorities(first) => self.write_priorities(request, first),
            SystemRegister::Control(register) => {
                return write_control(&mut self.exceptions, register, value);
            }
            SystemRegister::Status(register) => {
                return self.status.write(register, in_place(request));
            }
            SystemRegister::Mpu(register) => return self.write_mpu(register, value),
            SystemRegister::Unlisted => {}
        }
        Ok(())
    }

    /// Writes priority bytes, as many as the access moves.
    fn write_priorities(&mut self, request: &Request, first: u8)
        ensures { self.new ≡ with_nvic self.old
            (nvic.write_priorities self.old.nvic
            (first + spec.first_byte request.now.access.size request.now.access.address) request.now.value
            (bytes_in request.now.access.size)) }
    {
        let number = u16::from(first) + first_byte(request) as u16;
        write_priorities(
            &mut self.exceptions,
            number,
            request.value,
            request.access.size.bytes(),
        );
    }

    /// Writes a register of the MPU, and reloads the decider.
    fn write_mpu(&mut self, register: MpuRegister, value: u32) -> Result<(), Stop>
        ensures system { self.new ≡ after_write self.old
            (mpu_written self.old (mpu.write self.old.mpu register value)) }
        ensures answer { result ≡ answered (mpu_written self.old (mpu.write self.old.mpu register value)) }
    {
        match self.mpu.write_reg(register, value) {
            Ok(()) => {
                self.decider.reload(&self.mpu);
                Ok(())
            }
            Err(stop) => Err(stop_of(stop)),
        }
    }
}
