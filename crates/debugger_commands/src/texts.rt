//! The texts of answers, and the parts of those that show a machine.

ghost use Rattle.std.specs.Prelude.{◌≡◌, ◌+◌, ◌≤◌, [], ◌++◌, codes, decimal, length};
ghost use Rattle.debugger_commands.specs.Texts.{byte_text, decision_text, end_text, error_text, general_lines};
ghost use Rattle.debugger_commands.specs.Texts.{grant_text, region_line, region_name, register_line, spaced};
ghost use Rattle.debugger_commands.specs.Texts.{value_text, words_line};
ghost use Rattle.instruction_set.specs.Words.{word_sum};
ghost use Rattle.platform.specs.Text.{line_feed};

use crate::commands::LineError;
use platform::access::Decision;
use platform::stop::Stop;
use trace::page::Page;

/// Room for the longest answer that isn't a trace.
pub type Reply = Page<1024>;

/// Appends a value after the name of its register.
fn put_value(page: &mut Reply, value: u32)
    requires { length page.old + 10 ≤ 1024 }
    ensures text { page.new ≡ page.old ++ value_text value }
    ensures grown { length page.new ≡ length page.old + 10 }
{
    put_spaced(page, value);
    page.put(b"\n");
}

/// Appends a space and the digits of a word.
fn put_spaced(page: &mut Reply, word: u32)
    requires { length page.old + 9 ≤ 1024 }
    ensures text { page.new ≡ page.old ++ spaced word }
    ensures grown { length page.new ≡ length page.old + 9 }
{
    page.put(b" ");
    page.put_word(word);
}

/// Appends the line of a register, whose name has at most 10 bytes.
pub fn put_register(page: &mut Reply, name: &[u8], value: u32)
    requires name { length name.now ≤ 10 }
    requires room { length page.old + 20 ≤ 1024 }
    ensures text { page.new ≡ page.old ++ register_line name.now value }
    ensures short { length page.new ≤ length page.old + 20 }
{
    page.put_slice(name);
    put_value(page, value);
}

/// Appends the line of a general register.
fn put_general(page: &mut Reply, number: usize, value: u32)
    requires room { length page.old + 31 ≤ 1024 }
    ensures text { page.new ≡ page.old ++ register_line (codes "R" ++ decimal number) value }
    ensures short { length page.new ≤ length page.old + 31 }
{
    page.put(b"R");
    page.put_decimal(number as u64);
    put_value(page, value);
}

/// Appends the lines of R0 to R12.
#[tactic(auto, unfolding(crate::specs::Texts::general_lines))]
pub fn put_generals(page: &mut Reply, values: &[u32; 13])
    requires { page.old ≡ [] }
    ensures text { page.new ≡ general_lines values.now 13 }
    ensures short { length page.new ≤ 403 }
{
    'numbers: for number in 0..13 {
        put_general(page, number, values[number]);
    }
}

/// Returns the address of byte `number` of `mem`, counted from 0. It wraps at 2^32.
pub fn byte_address(address: u32, number: u32) -> u32
    ensures { result ≡ word_sum address number }
{
    address.wrapping_add(number)
}

/// Appends a byte of memory, or that there is none.
pub fn put_byte(page: &mut Reply, byte: Option<u8>)
    requires { length page.old + 3 ≤ 1024 }
    ensures text { page.new ≡ page.old ++ byte_text byte }
    ensures grown { length page.new ≡ length page.old + 3 }
{
    match byte {
        None => page.put(b" --"),
        Some(byte) => {
            page.put(b" ");
            page.put_byte(byte);
        }
    }
}

/// Appends the name of a region.
fn put_region_name(page: &mut Reply, number: u8)
    requires { length page.old + 21 ≤ 1024 }
    ensures text { page.new ≡ page.old ++ region_name number }
    ensures short { length page.new ≤ length page.old + 21 }
{
    page.put(b"r");
    page.put_decimal(number as u64);
}

/// Appends the line of a region by its RBAR and RASR.
#[tactic(auto, using(crate::proofs::Concatenation::in_three))]
fn put_region_words(page: &mut Reply, number: u8, rbar: u32, rasr: u32)
    requires { length page.old + 40 ≤ 1024 }
    ensures text { page.new ≡ page.old ++ words_line number rbar rasr }
    ensures short { length page.new ≤ length page.old + 40 }
{
    put_region_name(page, number);
    put_spaced(page, rbar);
    put_value(page, rasr);
}

/// Appends the line of a region, where there is one of that number.
pub fn put_region(page: &mut Reply, number: u8, words: Option<(u32, u32)>)
    requires { length page.old + 40 ≤ 1024 }
    ensures text { page.new ≡ page.old ++ region_line number words }
    ensures short { length page.new ≤ length page.old + 40 }
{
    match words {
        Some((rbar, rasr)) => put_region_words(page, number, rbar, rasr),
        None => {}
    }
}

/// Returns the line of a decision.
pub fn decision_text(decision: &Decision) -> Reply
    ensures { result ≡ decision_text decision.now }
{
    let mut page = Reply::new();
    page.put_rule_word(decision.rule);
    if decision.granted {
        page.put(b" ok\n");
    } else {
        page.put(b" mpu\n");
    }
    page
}

/// Returns the line of an error.
pub fn error_text(error: LineError) -> Reply
    ensures { result ≡ error_text error }
{
    let mut page = Reply::new();
    match error {
        LineError::Command => page.put(b"error 1\n"),
        LineError::Word => page.put(b"error 2\n"),
    }
    page
}

/// Returns the line of a stop, or of the address of the next instruction.
pub fn end_text(stop: Option<Stop>, pc: u32) -> Reply
    ensures text { result ≡ end_text pc stop }
    ensures short { length result ≤ 64 }
{
    let mut page = Reply::new();
    match stop {
        Some(stop) => page.put_stop(&stop),
        None => {
            page.put(b"at ");
            page.put_word(pc);
            page.put(b"\n");
        }
    }
    page
}
