//! An instruction as the numbers of a line of the tables: a function for each family of shapes.

use instruction_set::branch::Branch;
use instruction_set::data_processing::{DataProcessing, ShiftedRegister};
use instruction_set::instruction::Instruction;
use instruction_set::load_store::{
    Exclusive, ImmediateAddress, LoadForm, LoadStore, LoadStoreMultiple, RegisterAddress,
};
use instruction_set::registers::Register;
use instruction_set::system::System;

/// The number of the variant, and then the operands.
pub type Listed = [u32; 8];

fn number(register: Register) -> u32 {
    register.number() as u32
}

fn shifted(operand: ShiftedRegister) -> [u32; 3] {
    [
        number(operand.register),
        operand.shift.shift_type as u32,
        operand.shift.amount as u32,
    ]
}

/// A carry, and 2 for one that stays.
fn carry(operand: Option<bool>) -> u32 {
    match operand {
        Some(carry) => carry as u32,
        None => 2,
    }
}

fn form(operand: LoadForm) -> [u32; 2] {
    [operand.size as u32, operand.signed as u32]
}

fn immediate_address(operand: ImmediateAddress) -> [u32; 3] {
    [
        number(operand.base),
        operand.offset,
        operand.indexing as u32,
    ]
}

fn register_address(operand: RegisterAddress) -> [u32; 3] {
    [
        number(operand.base),
        number(operand.index),
        operand.shift as u32,
    ]
}

/// The operations on two operands.
fn data_operands(instruction: &Instruction) -> Option<Listed> {
    match instruction {
        Instruction::DataProcessing(DataProcessing::DataImmediate(o)) => Some([
            0,
            o.operation as u32,
            o.flags as u32,
            number(o.destination),
            number(o.first),
            o.second.value,
            carry(o.second.carry),
            0,
        ]),
        Instruction::DataProcessing(DataProcessing::DataRegister(o)) => {
            let (d, n, [m, kind, amount]) = (
                number(o.destination),
                number(o.first),
                shifted(o.second),
            );
            let flags = o.flags as u32;
            Some([1, o.operation as u32, flags, d, n, m, kind, amount])
        }
        _ => None,
    }
}

/// The shifts by a register, and ADR.
fn shifts_operands(instruction: &Instruction) -> Option<Listed> {
    match instruction {
        Instruction::DataProcessing(DataProcessing::ShiftByRegister(o)) => Some([
            7,
            o.shift_type as u32,
            o.flags as u32,
            number(o.destination),
            number(o.source),
            number(o.amount),
            0,
            0,
        ]),
        Instruction::DataProcessing(DataProcessing::Address(o)) => Some([
            8,
            number(o.destination),
            o.offset,
            0,
            0,
            0,
            0,
            0,
        ]),
        _ => None,
    }
}

/// The moves.
fn moves_operands(instruction: &Instruction) -> Option<Listed> {
    match instruction {
        Instruction::DataProcessing(DataProcessing::MoveImmediate(o)) => Some([
            2,
            o.operation as u32,
            o.flags as u32,
            number(o.destination),
            o.source.value,
            carry(o.source.carry),
            0,
            0,
        ]),
        Instruction::DataProcessing(DataProcessing::MoveRegister(o)) => {
            let (d, [m, kind, amount]) = (number(o.destination), shifted(o.source));
            Some([3, o.operation as u32, o.flags as u32, d, m, kind, amount, 0])
        }
        Instruction::DataProcessing(DataProcessing::MoveTop(o)) => Some([
            4,
            number(o.destination),
            o.value as u32,
            0,
            0,
            0,
            0,
            0,
        ]),
        _ => None,
    }
}

/// The comparisons.
fn comparisons_operands(instruction: &Instruction) -> Option<Listed> {
    match instruction {
        Instruction::DataProcessing(DataProcessing::CompareImmediate(o)) => Some([
            5,
            o.operation as u32,
            number(o.first),
            o.second.value,
            carry(o.second.carry),
            0,
            0,
            0,
        ]),
        Instruction::DataProcessing(DataProcessing::CompareRegister(o)) => {
            let (n, [m, kind, amount]) = (number(o.first), shifted(o.second));
            Some([6, o.operation as u32, n, m, kind, amount, 0, 0])
        }
        _ => None,
    }
}

/// Products and quotients.
fn products_operands(instruction: &Instruction) -> Option<Listed> {
    match instruction {
        Instruction::DataProcessing(DataProcessing::Multiply(o)) => {
            let (d, n, m) = (number(o.destination), number(o.first), number(o.second));
            Some([9, o.flags as u32, d, n, m, 0, 0, 0])
        }
        Instruction::DataProcessing(DataProcessing::MultiplyAccumulate(o)) => {
            let (d, n, m) = (number(o.destination), number(o.first), number(o.second));
            Some([10, o.operation as u32, d, n, m, number(o.addend), 0, 0])
        }
        Instruction::DataProcessing(DataProcessing::MultiplyLong(o)) => {
            let (low, high) = (number(o.low), number(o.high));
            let (n, m) = (number(o.first), number(o.second));
            Some([
                11,
                o.signed as u32,
                o.accumulates as u32,
                low,
                high,
                n,
                m,
                0,
            ])
        }
        Instruction::DataProcessing(DataProcessing::Divide(o)) => {
            let (d, n, m) = (number(o.destination), number(o.dividend), number(o.divisor));
            Some([12, o.signed as u32, d, n, m, 0, 0, 0])
        }
        _ => None,
    }
}

/// The bit fields.
fn fields_operands(instruction: &Instruction) -> Option<Listed> {
    match instruction {
        Instruction::DataProcessing(DataProcessing::ExtractField(o)) => {
            let (d, n) = (number(o.destination), number(o.source));
            Some([
                14,
                o.signed as u32,
                d,
                n,
                o.low as u32,
                o.width as u32,
                0,
                0,
            ])
        }
        Instruction::DataProcessing(DataProcessing::InsertField(o)) => {
            let (d, n) = (number(o.destination), number(o.source));
            Some([15, d, n, o.low as u32, o.width as u32, 0, 0, 0])
        }
        Instruction::DataProcessing(DataProcessing::ClearField(o)) => {
            Some([
                16,
                number(o.destination),
                o.low as u32,
                o.width as u32,
                0,
                0,
                0,
                0,
            ])
        }
        _ => None,
    }
}

/// Operations on one register: a saturated, an extended or a rearranged word.
fn words_operands(instruction: &Instruction) -> Option<Listed> {
    match instruction {
        Instruction::DataProcessing(DataProcessing::Saturate(o)) => {
            let (d, [n, kind, amount]) = (number(o.destination), shifted(o.source));
            Some([13, o.signed as u32, d, o.bits as u32, n, kind, amount, 0])
        }
        Instruction::DataProcessing(DataProcessing::Extend(o)) => Some([
            17,
            o.signed as u32,
            o.size as u32,
            number(o.destination),
            number(o.source),
            o.rotation as u32,
            0,
            0,
        ]),
        Instruction::DataProcessing(DataProcessing::Rearrange(o)) => Some([
            18,
            o.operation as u32,
            number(o.destination),
            number(o.source),
            0,
            0,
            0,
            0,
        ]),
        _ => None,
    }
}

/// Loads of one register.
fn loads_operands(instruction: &Instruction) -> Option<Listed> {
    match instruction {
        Instruction::LoadStore(LoadStore::LoadImmediate(o)) => {
            let ([size, signed], t) = (form(o.form), number(o.target));
            let [n, offset, indexing] = immediate_address(o.address);
            let unprivileged = o.unprivileged as u32;
            Some([19, size, signed, t, n, offset, indexing, unprivileged])
        }
        Instruction::LoadStore(LoadStore::LoadRegister(o)) => {
            let ([size, signed], t) = (form(o.form), number(o.target));
            let [n, m, shift] = register_address(o.address);
            Some([20, size, signed, t, n, m, shift, 0])
        }
        Instruction::LoadStore(LoadStore::LoadLiteral(o)) => {
            let [size, signed] = form(o.form);
            Some([21, size, signed, number(o.target), o.offset, 0, 0, 0])
        }
        _ => None,
    }
}

/// Stores of one register.
fn stores_operands(instruction: &Instruction) -> Option<Listed> {
    match instruction {
        Instruction::LoadStore(LoadStore::StoreImmediate(o)) => {
            let (size, t) = (o.size as u32, number(o.target));
            let [n, offset, indexing] = immediate_address(o.address);
            Some([22, size, t, n, offset, indexing, o.unprivileged as u32, 0])
        }
        Instruction::LoadStore(LoadStore::StoreRegister(o)) => {
            let [n, m, shift] = register_address(o.address);
            Some([23, o.size as u32, number(o.target), n, m, shift, 0, 0])
        }
        _ => None,
    }
}

/// Loads and stores of two registers.
fn dual_operands(instruction: &Instruction) -> Option<Listed> {
    match instruction {
        Instruction::LoadStoreMultiple(LoadStoreMultiple::LoadDual(o)) => {
            let (t, u) = (number(o.first), number(o.second));
            let [n, offset, indexing] = immediate_address(o.address);
            Some([24, t, u, n, offset, indexing, 0, 0])
        }
        Instruction::LoadStoreMultiple(LoadStoreMultiple::LoadDualLiteral(o)) => {
            Some([25, number(o.first), number(o.second), o.offset, 0, 0, 0, 0])
        }
        Instruction::LoadStoreMultiple(LoadStoreMultiple::StoreDual(o)) => {
            let (t, u) = (number(o.first), number(o.second));
            let [n, offset, indexing] = immediate_address(o.address);
            Some([26, t, u, n, offset, indexing, 0, 0])
        }
        _ => None,
    }
}

/// Loads and stores of several registers.
fn several_operands(instruction: &Instruction) -> Option<Listed> {
    match instruction {
        Instruction::LoadStoreMultiple(LoadStoreMultiple::LoadMultiple(o)) => {
            let (n, list) = (number(o.base), o.list.bits() as u32);
            Some([27, n, list, o.order as u32, o.write_back as u32, 0, 0, 0])
        }
        Instruction::LoadStoreMultiple(LoadStoreMultiple::StoreMultiple(o)) => {
            let (n, list) = (number(o.base), o.list.bits() as u32);
            Some([28, n, list, o.order as u32, o.write_back as u32, 0, 0, 0])
        }
        _ => None,
    }
}

/// The exclusive loads and stores.
fn exclusive_operands(instruction: &Instruction) -> Option<Listed> {
    match instruction {
        Instruction::Exclusive(Exclusive::Load(o)) => {
            let (t, n) = (number(o.target), number(o.base));
            Some([29, o.size as u32, t, n, o.offset, 0, 0, 0])
        }
        Instruction::Exclusive(Exclusive::Store(o)) => {
            let (d, t, n) = (number(o.status), number(o.target), number(o.base));
            Some([30, o.size as u32, d, t, n, o.offset, 0, 0])
        }
        Instruction::Exclusive(Exclusive::Clear) => Some([31, 0, 0, 0, 0, 0, 0, 0]),
        _ => None,
    }
}

/// Branches.
fn branches_operands(instruction: &Instruction) -> Option<Listed> {
    match instruction {
        Instruction::Branch(Branch::Immediate(o)) => Some([32, o.offset, 0, 0, 0, 0, 0, 0]),
        Instruction::Branch(Branch::Conditional(o)) => {
            let condition = o.condition as u32;
            Some([33, condition, o.offset, 0, 0, 0, 0, 0])
        }
        Instruction::Branch(Branch::WithLink(o)) => Some([34, o.offset, 0, 0, 0, 0, 0, 0]),
        Instruction::Branch(Branch::Exchange(o)) => {
            let (links, target) = (o.links as u32, number(o.target));
            Some([35, links, target, 0, 0, 0, 0, 0])
        }
        Instruction::Branch(Branch::CompareAndBranch(o)) => {
            let (nonzero, register) = (o.nonzero as u32, number(o.register));
            Some([36, nonzero, register, o.offset, 0, 0, 0, 0])
        }
        Instruction::Branch(Branch::Table(o)) => {
            let (n, m) = (number(o.base), number(o.index));
            Some([37, o.size as u32, n, m, 0, 0, 0, 0])
        }
        _ => None,
    }
}

/// IT, CPS, MSR and MRS.
fn control_operands(instruction: &Instruction) -> Option<Listed> {
    match instruction {
        Instruction::Branch(Branch::IfThen(o)) => Some([
            38,
            o.condition as u32,
            o.mask as u32,
            0,
            0,
            0,
            0,
            0,
        ]),
        Instruction::System(System::ChangeProcessorState(o)) => {
            let (primask, faultmask) = (o.primask as u32, o.faultmask as u32);
            Some([39, o.disables as u32, primask, faultmask, 0, 0, 0, 0])
        }
        Instruction::System(System::MoveToSpecial(o)) => Some([
            40,
            o.special as u32,
            number(o.source),
            0,
            0,
            0,
            0,
            0,
        ]),
        Instruction::System(System::MoveFromSpecial(o)) => {
            Some([41, o.special as u32, number(o.destination), 0, 0, 0, 0, 0])
        }
        _ => None,
    }
}

/// The hints, SVC and BKPT.
fn calls_operands(instruction: &Instruction) -> Option<Listed> {
    match instruction {
        Instruction::System(System::Hint(hint)) => Some([42, *hint as u32, 0, 0, 0, 0, 0, 0]),
        Instruction::System(System::SupervisorCall(number)) => Some([
            43,
            *number as u32,
            0,
            0,
            0,
            0,
            0,
            0,
        ]),
        Instruction::System(System::Breakpoint(number)) => Some([
            44,
            *number as u32,
            0,
            0,
            0,
            0,
            0,
            0,
        ]),
        _ => None,
    }
}

/// The numbers of an instruction, which is of one family.
pub fn all_operands(instruction: &Instruction) -> Option<Listed> {
    data_operands(instruction)
        .or(shifts_operands(instruction))
        .or(moves_operands(instruction))
        .or(comparisons_operands(instruction))
        .or(products_operands(instruction))
        .or(fields_operands(instruction))
        .or(words_operands(instruction))
        .or(loads_operands(instruction))
        .or(stores_operands(instruction))
        .or(dual_operands(instruction))
        .or(several_operands(instruction))
        .or(exclusive_operands(instruction))
        .or(branches_operands(instruction))
        .or(control_operands(instruction))
        .or(calls_operands(instruction))
}
