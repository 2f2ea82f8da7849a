//! At the end: the registers, the regions, the fault status, and the exceptions of the machine.

use crate::page::{Part, Report, write_part};
use crate::regions::write_words;
use machine::{Fast, Kind, RegValues, Rule, StatusRegister};
use page_text::fault_bits::{CFSR_BITS, FaultBit, HFSR_BITS};
use page_text::lists::Names;
use page_text::names::Place;
use page_text::numbers::Thousands;
use page_text::settings::RegionWords;
use page_text::words::{ExceptionName, RuleWord};
use platform::exception::EXCEPTIONS;
use platform::fault_status::{BFARVALID, MMARVALID};
use platform::mpu::MAX_REGIONS;
use std::io;
use std::io::Write;
use symbols::Symbols;

const CAPTION: &str =
    "The state in which the run ended: registers and addresses in hexadecimal, the regions of \
the MPU and the bits of the fault status registers in words.";

/// Writes the part.
pub fn write_end<W: Write>(out: &mut W, report: &Report<'_>) -> io::Result<()> {
    write_part(out, Part::End, CAPTION)?;
    write_registers(out, &report.machine.regs(), report.symbols)?;
    write_regions(out, report.machine, report.symbols)?;
    write_faults(out, report)?;
    write_exceptions(out, report.machine)?;
    writeln!(out, "</section>")
}

/// Writes the core registers.
fn write_registers<W: Write>(
    out: &mut W,
    values: &RegValues,
    symbols: &Symbols<'_>,
) -> io::Result<()> {
    writeln!(out, "<h3>Registers</h3>\n<dl class='registers'>")?;
    'general: for (number, value) in values.general.iter().enumerate() {
        writeln!(
            out,
            "<div><dt>R{number}</dt><dd id='R{number}'><code>{value:08X}</code></dd></div>"
        )?;
    }
    write_address(out, "MSP", values.msp, symbols)?;
    write_address(out, "PSP", values.psp, symbols)?;
    write_address(out, "LR", values.lr, symbols)?;
    write_address(out, "PC", values.pc, symbols)?;
    write_status(out, values.xpsr)?;
    write_control(out, values.control)?;
    write_value(out, "PRIMASK", values.primask)?;
    write_value(out, "FAULTMASK", values.faultmask)?;
    write_value(out, "BASEPRI", values.basepri)?;
    writeln!(out, "</dl>")
}

/// Writes a register that has an address, with the name of the address unless it is 0.
fn write_address<W: Write>(
    out: &mut W,
    name: &str,
    address: u32,
    symbols: &Symbols<'_>,
) -> io::Result<()> {
    if address == 0 {
        return write_value(out, name, address);
    }
    let place = Place { address, symbols };
    writeln!(
        out,
        "<div><dt>{name}</dt><dd id='{name}'>{place}</dd></div>"
    )
}

/// Writes a register.
fn write_value<W: Write>(out: &mut W, name: &str, value: u32) -> io::Result<()> {
    writeln!(
        out,
        "<div><dt>{name}</dt><dd id='{name}'><code>{value:08X}</code></dd></div>"
    )
}

/// Writes xPSR: its flags and its mode in words.
fn write_status<W: Write>(out: &mut W, value: u32) -> io::Result<()> {
    let negative = flag(value, 31, "N");
    let zero = flag(value, 30, "Z");
    let carry = flag(value, 29, "C");
    let overflow = flag(value, 28, "V");
    let saturated = flag(value, 27, "Q");
    let exception = (value % 512) as u16;
    write!(
        out,
        "<div><dt>XPSR</dt><dd id='XPSR'><code>{value:08X}</code> \
         <small>{negative}{zero}{carry}{overflow}{saturated} "
    )?;
    if exception == 0 {
        writeln!(out, "Thread mode</small></dd></div>")
    } else {
        let name = ExceptionName(exception);
        writeln!(out, "handler of {name}</small></dd></div>")
    }
}

/// Returns the letter of a flag where its bit is set, and a dash where it isn't.
fn flag(value: u32, bit: u32, letter: &'static str) -> &'static str {
    if value.checked_shr(bit).unwrap_or(0) % 2 == 1 {
        letter
    } else {
        "-"
    }
}

/// Writes CONTROL: the privilege of Thread mode and its stack in words.
fn write_control<W: Write>(out: &mut W, value: u32) -> io::Result<()> {
    let privilege = if value % 2 == 1 {
        "Thread unprivileged"
    } else {
        "Thread privileged"
    };
    let stack = if value / 2 % 2 == 1 {
        "process stack"
    } else {
        "main stack"
    };
    writeln!(
        out,
        "<div><dt>CONTROL</dt><dd id='CONTROL'><code>{value:08X}</code> \
         <small>{privilege}, {stack}</small></dd></div>"
    )
}

/// Writes the regions of the MPU.
fn write_regions<W: Write>(out: &mut W, machine: &Fast, symbols: &Symbols<'_>) -> io::Result<()> {
    writeln!(out, "<h3>Regions of the MPU</h3>")?;
    match machine.explain(0, false, Kind::Load).rule {
        Rule::MpuOff => writeln!(
            out,
            "<p id='mpu-off'>The MPU is off: the default map decides, whatever the regions say.</p>"
        )?,
        Rule::NegativePriority => writeln!(
            out,
            "<p id='mpu-negative'>The execution priority is below 0: the default map decides, also for \
             the faint strips above.</p>"
        )?,
        Rule::ExecuteNever
        | Rule::VectorRead
        | Rule::PrivatePeripheralBus
        | Rule::Region(_)
        | Rule::Background
        | Rule::NoRegion => {}
    }
    if regions_on(machine) > 0 {
        write_table(out, machine, symbols)?;
    }
    write!(out, "<p id='regions-off'>Off: ")?;
    write_off(out, machine)?;
    writeln!(out, ".</p>")
}

/// Returns how many regions are enabled.
fn regions_on(machine: &Fast) -> u8 {
    let mut count = 0u8;
    'regions: for number in 0..MAX_REGIONS {
        if let Some((base, attributes)) = machine.region(number) {
            let words = RegionWords { base, attributes };
            count = count.saturating_add(u8::from(words.is_enabled()));
        }
    }
    count
}

/// Writes the table of the regions that are enabled.
fn write_table<W: Write>(out: &mut W, machine: &Fast, symbols: &Symbols<'_>) -> io::Result<()> {
    writeln!(
        out,
        "<div class='scroll'><table class='cards'><thead><tr><th scope='col'>region</th><th scope='col'>addresses</th>\
         <th scope='col'>size</th><th class='u' scope='col'>unprivileged may</th>\
         <th class='p' scope='col'>privileged may</th><th scope='col'>fetches</th>\
         <th scope='col'>subregions off</th></tr></thead>\n<tbody>"
    )?;
    'regions: for number in 0..MAX_REGIONS {
        write_region(out, number, machine.region(number), symbols)?;
    }
    writeln!(out, "</tbody></table></div>")
}

/// Writes the row of a region, if there is one and it is enabled.
fn write_region<W: Write>(
    out: &mut W,
    number: u8,
    region: Option<(u32, u32)>,
    symbols: &Symbols<'_>,
) -> io::Result<()> {
    let Some((base, attributes)) = region else {
        return Ok(());
    };
    let words = RegionWords { base, attributes };
    if !words.is_enabled() {
        return Ok(());
    }
    write!(
        out,
        "<tr id='region-{number}' data-rbar='{base:08X}' data-rasr='{attributes:08X}'>\
         <th scope='row'><code>r{number}</code></th>"
    )?;
    write_words(out, words, symbols)?;
    writeln!(out, "</tr>")
}

/// Writes the names of the regions that are off.
fn write_off<W: Write>(out: &mut W, machine: &Fast) -> io::Result<()> {
    let mut names = Names::new();
    'regions: for number in 0..MAX_REGIONS {
        if let Some((base, attributes)) = machine.region(number) {
            let words = RegionWords { base, attributes };
            names.write_if(out, !words.is_enabled(), RuleWord(Rule::Region(number)))?;
        }
    }
    names.end(out)
}

/// Writes the fault status registers.
fn write_faults<W: Write>(out: &mut W, report: &Report<'_>) -> io::Result<()> {
    let machine = report.machine;
    let cfsr = machine.status_word(StatusRegister::Cfsr);
    let hfsr = machine.status_word(StatusRegister::Hfsr);
    writeln!(out, "<h3>Fault status</h3>\n<dl class='registers wide'>")?;
    write_bits(out, "CFSR", cfsr, &CFSR_BITS)?;
    write_bits(out, "HFSR", hfsr, &HFSR_BITS)?;
    if cfsr & MMARVALID != 0 {
        let address = machine.status_word(StatusRegister::Mmfar);
        write_address(out, "MMFAR", address, report.symbols)?;
    }
    if cfsr & BFARVALID != 0 {
        let address = machine.status_word(StatusRegister::Bfar);
        write_address(out, "BFAR", address, report.symbols)?;
    }
    writeln!(out, "</dl>")
}

/// Writes a fault status register: its value, and the bits that are set.
fn write_bits<W: Write>(out: &mut W, name: &str, value: u32, bits: &[FaultBit]) -> io::Result<()> {
    write!(
        out,
        "<div><dt>{name}</dt><dd id='{name}'><code>{value:08X}</code>"
    )?;
    'bits: for bit in bits {
        if bit.is_set(value) {
            let bit_name = bit.name;
            let meaning = bit.meaning;
            write!(out, " <b>{bit_name}</b> <small>{meaning}</small>")?;
        }
    }
    writeln!(out, "</dd></div>")
}

/// Writes which exceptions are pending and active, the clock, and SysTick.
fn write_exceptions<W: Write>(out: &mut W, machine: &Fast) -> io::Result<()> {
    let ticks = machine.ticks();
    let shown = Thousands(ticks);
    writeln!(
        out,
        "<h3>Exceptions, clock and SysTick</h3>\n<dl class='registers wide'>"
    )?;
    write!(out, "<div><dt>pending</dt><dd id='pending'>")?;
    write_pending(out, machine)?;
    write!(out, "</dd></div>\n<div><dt>active</dt><dd id='active'>")?;
    write_active(out, machine)?;
    writeln!(
        out,
        "</dd></div>\n<div><dt>clock</dt><dd id='clock' data-number='{ticks}'>{shown} ticks</dd></div>"
    )?;
    write_systick(out, machine)?;
    writeln!(out, "</dl>")
}

/// Writes the registers of SysTick: whether it counts and whether it makes its exception pending in words.
fn write_systick<W: Write>(out: &mut W, machine: &Fast) -> io::Result<()> {
    let systick = machine.systick();
    let csr = systick.csr();
    let counts = if csr % 2 == 1 { "counts" } else { "off" };
    let exception = if csr / 2 % 2 == 1 {
        "its exception is on"
    } else {
        "its exception is off"
    };
    writeln!(
        out,
        "<div><dt>SYST_CSR</dt><dd id='SYST_CSR'><code>{csr:08X}</code> \
         <small>{counts}, {exception}</small></dd></div>"
    )?;
    write_value(out, "SYST_RVR", systick.rvr())?;
    write_value(out, "SYST_CVR", systick.cvr())
}

/// Writes the names of the pending exceptions.
fn write_pending<W: Write>(out: &mut W, machine: &Fast) -> io::Result<()> {
    let mut names = Names::new();
    'exceptions: for number in 0..EXCEPTIONS {
        names.write_if(out, machine.is_pending(number), ExceptionName(number))?;
    }
    names.end(out)
}

/// Writes the names of the active exceptions.
fn write_active<W: Write>(out: &mut W, machine: &Fast) -> io::Result<()> {
    let mut names = Names::new();
    'exceptions: for number in 0..EXCEPTIONS {
        names.write_if(out, machine.is_active(number), ExceptionName(number))?;
    }
    names.end(out)
}
