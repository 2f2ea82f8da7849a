//! The loads and stores: three families, one variant for each shape of operands, and then the operands, one struct for
//! each shape. Offsets are scaled, as the manual's decode pseudocode computes them (`imm32`).

use crate::registers::{Register, RegisterList};
use crate::size::Size;

/// The loads and stores of one register.
#[derive(Clone, Copy)]
pub enum LoadStore {
    /// LDR, LDRB, LDRH, LDRSB and LDRSH at a base register and a number, and their unprivileged
    /// forms.
    LoadImmediate(LoadImmediate),
    /// The same loads at a base register and another, shifted.
    LoadRegister(LoadRegister),
    /// The same loads at the PC and a number.
    LoadLiteral(LoadLiteral),
    /// STR, STRB and STRH at a base register and a number, and their unprivileged forms.
    StoreImmediate(StoreImmediate),
    /// The same stores at a base register and another, shifted.
    StoreRegister(StoreRegister),
}

/// The loads and stores of several registers, a word each.
#[derive(Clone, Copy)]
pub enum LoadStoreMultiple {
    /// LDRD.
    LoadDual(LoadDual),
    /// LDRD at the PC and a number.
    LoadDualLiteral(LoadDualLiteral),
    /// STRD.
    StoreDual(StoreDual),
    /// LDM, LDMDB and POP.
    LoadMultiple(LoadMultiple),
    /// STM, STMDB and PUSH.
    StoreMultiple(StoreMultiple),
}

/// The exclusive loads and stores, and CLREX.
#[derive(Clone, Copy)]
pub enum Exclusive {
    /// LDREX, LDREXB and LDREXH.
    Load(LoadExclusive),
    /// STREX, STREXB and STREXH.
    Store(StoreExclusive),
    /// CLREX.
    Clear,
}

// ---- operands

/// The size of a load, and how its value is extended.
#[derive(Clone, Copy)]
pub struct LoadForm {
    pub size: Size,
    /// Whether a byte or a halfword is extended with its sign.
    pub signed: bool,
}

/// Which address an access has, and what becomes of the base register.
#[derive(Clone, Copy)]
pub enum Indexing {
    /// Base and offset; the base stays.
    Offset,
    /// Base and offset; the base becomes that address.
    PreIndexed,
    /// The address is the base; afterwards the base becomes base + offset.
    PostIndexed,
}

/// The address of a load or a store at a base register and a number.
#[derive(Clone, Copy)]
pub struct ImmediateAddress {
    pub base: Register,
    pub indexing: Indexing,
    /// In bytes. Added modulo 2^32: a negative offset is its two's complement.
    pub offset: u32,
}

/// The address of a load or a store at a base register and another, shifted left.
#[derive(Clone, Copy)]
pub struct RegisterAddress {
    pub base: Register,
    pub index: Register,
    /// From 0 to 3.
    pub shift: u8,
}

/// The operands of LDR and its forms (immediate), and of the unprivileged loads.
#[derive(Clone, Copy)]
pub struct LoadImmediate {
    pub form: LoadForm,
    pub target: Register,
    /// Whether the access is made as by unprivileged code, even where the code is privileged.
    pub unprivileged: bool,
    pub address: ImmediateAddress,
}

/// The operands of LDR and its forms (register).
#[derive(Clone, Copy)]
pub struct LoadRegister {
    pub form: LoadForm,
    pub target: Register,
    pub address: RegisterAddress,
}

/// A load at the PC, rounded down to a word, and an offset.
#[derive(Clone, Copy)]
pub struct LoadLiteral {
    pub form: LoadForm,
    pub target: Register,
    /// In bytes. Added modulo 2^32: a negative offset is its two's complement.
    pub offset: u32,
}

/// The operands of STR and its forms (immediate), and of the unprivileged stores.
#[derive(Clone, Copy)]
pub struct StoreImmediate {
    pub size: Size,
    pub target: Register,
    /// Whether the access is made as by unprivileged code, even where the code is privileged.
    pub unprivileged: bool,
    pub address: ImmediateAddress,
}

/// The operands of STR and its forms (register).
#[derive(Clone, Copy)]
pub struct StoreRegister {
    pub size: Size,
    pub target: Register,
    pub address: RegisterAddress,
}

/// Two registers are loaded from two words, one after the other.
#[derive(Clone, Copy)]
pub struct LoadDual {
    pub first: Register,
    pub second: Register,
    pub address: ImmediateAddress,
}

/// The operands of LDRD (literal).
#[derive(Clone, Copy)]
pub struct LoadDualLiteral {
    pub first: Register,
    pub second: Register,
    /// In bytes. Added modulo 2^32: a negative offset is its two's complement.
    pub offset: u32,
}

/// Two registers are stored to two words, one after the other.
#[derive(Clone, Copy)]
pub struct StoreDual {
    pub first: Register,
    pub second: Register,
    pub address: ImmediateAddress,
}

/// Where the words of a list are.
#[derive(Clone, Copy)]
pub enum ListOrder {
    /// Upward from the base.
    IncrementAfter,
    /// Upward to the word before the base.
    DecrementBefore,
}

/// Registers are loaded from the words at a base register, the lowest from the lowest.
#[derive(Clone, Copy)]
pub struct LoadMultiple {
    pub base: Register,
    pub list: RegisterList,
    pub order: ListOrder,
    /// Whether the base moves past the words.
    pub write_back: bool,
}

/// Registers are stored to the words at a base register, the lowest to the lowest.
#[derive(Clone, Copy)]
pub struct StoreMultiple {
    pub base: Register,
    pub list: RegisterList,
    pub order: ListOrder,
    /// Whether the base moves past the words.
    pub write_back: bool,
}

/// The operands of LDREX, LDREXB and LDREXH.
#[derive(Clone, Copy)]
pub struct LoadExclusive {
    pub size: Size,
    pub target: Register,
    pub base: Register,
    /// In bytes.
    pub offset: u32,
}

/// The operands of STREX, STREXB and STREXH.
#[derive(Clone, Copy)]
pub struct StoreExclusive {
    pub size: Size,
    /// The register that becomes 0 if the store was made, and 1 if not.
    pub status: Register,
    pub target: Register,
    pub base: Register,
    /// In bytes.
    pub offset: u32,
}
