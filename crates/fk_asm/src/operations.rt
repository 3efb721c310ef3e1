//! The operations by their names, and the words of lines.
ghost use Rattle.std.specs.Prelude.{◌≡◌, ◌<◌, ◌≤◌, [], ◌∷◌, map, IfSome, IfOk, option_map};
ghost use Rattle.fk_model.specs.Instructions.{IsInstr};
ghost use Rattle.fk_model.specs.declared.instruction.operation.TheConstants.{CALL};
ghost use Rattle.fk_asm.specs.Reasons.{GivesOrReason};
ghost use Rattle.fk_asm.specs.declared.operations.Shape.TheVariants.{Number, RegisterNumber};
ghost use Rattle.fk_asm.specs.Operands as operands;
ghost use Rattle.fk_asm.specs.Operations as definitions;

use crate::operands::{Value, is_label, operand_of, register_of};
use crate::reason::Reason;
use fk_isa::encode;
use fk_model::{Instr, number_up_to, operation};

/// Which operands follow an operation's name.
#[derive(Clone, Copy)]
pub enum Shape {
    Bare,
    Number,
    RegisterNumber,
    TwoRegisters,
    ThreeRegisters,
    TwoRegistersNumber,
}

/// An operation's number, and which operands follow its name.
#[derive(Clone, Copy)]
pub struct Operation {
    pub number: u8,
    pub shape: Shape,
}

/// The word of a line. Where a label is named, its address is still to be put in; these bits are 0.
#[derive(Clone, Copy)]
pub struct Item<'a> {
    pub word: u64,
    pub label: Option<&'a [u8]>,
}

fn with_shape(number: u8, shape: Shape) -> Option<Operation>
    ensures { result ≡ definitions.with_shape number shape }
{
    Some(Operation { number, shape })
}

/// What leads elsewhere: jumps, the call, the end.
#[tactic(auto, unfolding(crate::specs::Operations::jump_of))]
fn jump_of(name: &[u8]) -> Option<Operation>
    ensures value { result ≡ definitions.jump_of name.now }
    ensures known { IfSome result (λ operation. operation.number ≤ CALL) }
{
    match name {
        b"halt" => with_shape(operation::HALT, Shape::Bare),
        b"jmp" => with_shape(operation::JMP, Shape::Number),
        b"jz" => with_shape(operation::JZ, Shape::RegisterNumber),
        b"jnz" => with_shape(operation::JNZ, Shape::RegisterNumber),
        b"jlt" => with_shape(operation::JLT, Shape::TwoRegistersNumber),
        b"call" => with_shape(operation::CALL, Shape::Bare),
        _ => None,
    }
}

/// Bits of two registers.
#[tactic(auto, unfolding(crate::specs::Operations::bits_of))]
fn bits_of(name: &[u8]) -> Option<Operation>
    ensures value { result ≡ definitions.bits_of name.now }
    ensures known { IfSome result (λ operation. operation.number ≤ CALL) }
{
    match name {
        b"and" => with_shape(operation::AND, Shape::ThreeRegisters),
        b"or" => with_shape(operation::OR, Shape::ThreeRegisters),
        b"xor" => with_shape(operation::XOR, Shape::ThreeRegisters),
        b"shl" => with_shape(operation::SHL, Shape::ThreeRegisters),
        b"shr" => with_shape(operation::SHR, Shape::ThreeRegisters),
        _ => jump_of(name),
    }
}

/// Sums, products and quotients of two registers.
#[tactic(auto, unfolding(crate::specs::Operations::arithmetic_of))]
fn arithmetic_of(name: &[u8]) -> Option<Operation>
    ensures value { result ≡ definitions.arithmetic_of name.now }
    ensures known { IfSome result (λ operation. operation.number ≤ CALL) }
{
    match name {
        b"add" => with_shape(operation::ADD, Shape::ThreeRegisters),
        b"sub" => with_shape(operation::SUB, Shape::ThreeRegisters),
        b"mul" => with_shape(operation::MUL, Shape::ThreeRegisters),
        b"div" => with_shape(operation::DIV, Shape::ThreeRegisters),
        b"rem" => with_shape(operation::REM, Shape::ThreeRegisters),
        _ => bits_of(name),
    }
}

/// The operation of a name.
#[tactic(auto, unfolding(crate::specs::Operations::operation_of))]
fn operation_of(name: &[u8]) -> Option<Operation>
    ensures value { result ≡ definitions.operation_of name.now }
    ensures known { IfSome result (λ operation. operation.number ≤ CALL) }
{
    match name {
        b"set" => with_shape(operation::SET, Shape::RegisterNumber),
        b"mov" => with_shape(operation::MOV, Shape::TwoRegisters),
        b"addi" => with_shape(operation::ADDI, Shape::TwoRegistersNumber),
        b"load" => with_shape(operation::LOAD, Shape::TwoRegistersNumber),
        b"store" => with_shape(operation::STORE, Shape::TwoRegistersNumber),
        _ => arithmetic_of(name),
    }
}

/// An instruction whose number is a value.
fn with_value(instr: Instr, value: Value<'_>) -> Item<'_>
    requires { IsInstr instr }
    ensures { definitions.item_view result ≡ definitions.with_value instr (operands.value_view value.entry) }
{
    match value {
        Value::Number(n) => Item {
            word: encode(Instr { n, ..instr }),
            label: None,
        },
        Value::Label(name) => Item {
            word: encode(instr),
            label: Some(name),
        },
    }
}

/// The instruction of an operation without operands.
fn bare(op: u8) -> Instr
    ensures { result ≡ definitions.instr op 0 0 0 }
{
    Instr {
        op,
        a: 0,
        b: 0,
        c: 0,
        n: 0,
    }
}

fn two_registers(op: u8, a: &[u8], b: &[u8]) -> Result<Instr, Reason>
    requires { op ≤ CALL }
    ensures value { GivesOrReason (λ x. x) result (definitions.two_registers op a.now b.now) }
    ensures known { IfOk result IsInstr }
{
    let a = register_of(a)?;
    let b = register_of(b)?;
    Ok(Instr { a, b, ..bare(op) })
}

fn three_registers(op: u8, a: &[u8], b: &[u8], c: &[u8]) -> Result<Instr, Reason>
    requires { op ≤ CALL }
    ensures value { GivesOrReason (λ x. x) result (definitions.three_registers op a.now b.now c.now) }
    ensures known { IfOk result IsInstr }
{
    let instr = two_registers(op, a, b)?;
    let c = register_of(c)?;
    Ok(Instr { c, ..instr })
}

fn two_registers_number<'a>(op: u8, a: &[u8], b: &[u8], n: &'a [u8]) -> Result<Item<'a>, Reason>
    requires { op ≤ CALL }
    ensures { GivesOrReason definitions.item_view result (definitions.two_registers_number op a.now b.now n.now) }
{
    let instr = two_registers(op, a, b)?;
    let n = operand_of(n)?;
    Ok(with_value(instr, n))
}

/// A word of an operation and a number.
#[tactic(auto, unfolding(crate::specs::Operations::instruction))]
fn with_number<'a>(op: u8, n: &'a [u8]) -> Result<Item<'a>, Reason>
    requires { op ≤ CALL }
    ensures { GivesOrReason definitions.item_view result (definitions.instruction op Number (n.now ∷ [])) }
{
    let n = operand_of(n)?;
    Ok(with_value(bare(op), n))
}

/// A word of an operation, a register and a number.
#[tactic(auto, unfolding(crate::specs::Operations::instruction))]
fn register_number<'a>(op: u8, a: &[u8], n: &'a [u8]) -> Result<Item<'a>, Reason>
    requires { op ≤ CALL }
    ensures { GivesOrReason definitions.item_view result (definitions.instruction op RegisterNumber (a.now ∷ n.now ∷ [])) }
{
    let a = register_of(a)?;
    let n = operand_of(n)?;
    Ok(with_value(Instr { a, ..bare(op) }, n))
}

/// The word of an operation with exactly its operands.
#[tactic(auto, unfolding(crate::specs::Operations::instruction))]
fn instruction<'a>(op: u8, shape: Shape, operands: &[&'a [u8]]) -> Result<Item<'a>, Reason>
    requires { op ≤ CALL }
    ensures { GivesOrReason definitions.item_view result (definitions.instruction op shape (map (λ operand. operand.now) operands.now)) }
{
    match (shape, operands) {
        (Shape::Bare, []) => Ok(with_value(bare(op), Value::Number(0))),
        (Shape::Number, [n]) => with_number(op, n),
        (Shape::RegisterNumber, [a, n]) => register_number(op, a, n),
        (Shape::TwoRegisters, [a, b]) => Ok(with_value(two_registers(op, a, b)?, Value::Number(0))),
        (Shape::ThreeRegisters, [a, b, c]) => {
            Ok(with_value(three_registers(op, a, b, c)?, Value::Number(0)))
        }
        (Shape::TwoRegistersNumber, [a, b, n]) => two_registers_number(op, a, b, n),
        _ => Err(Reason::Form),
    }
}

/// A whole word: a number of 64 bits without sign, or the address of a label.
fn whole_word(token: &[u8]) -> Result<Item<'_>, Reason>
    ensures { GivesOrReason definitions.item_view result (definitions.whole_word token.now) }
{
    if is_label(token) {
        return Ok(Item {
            word: 0,
            label: Some(token),
        });
    }
    match number_up_to(u64::MAX, token) {
        Some(word) => Ok(Item { word, label: None }),
        None => Err(Reason::Number),
    }
}

/// The word of an operation by its name.
fn operation_item<'a>(name: &[u8], operands: &[&'a [u8]]) -> Result<Item<'a>, Reason>
    ensures { GivesOrReason definitions.item_view result (definitions.operation_item name.now (map (λ operand. operand.now) operands.now)) }
{
    match operation_of(name) {
        Some(operation) => instruction(operation.number, operation.shape, operands),
        None => Err(Reason::Form),
    }
}

fn is_word_directive(name: &[u8]) -> bool
    ensures { result ≡ definitions.is_word_directive name.now }
{
    matches!(name, b"word")
}

/// The word of a statement by its name: `word` or an operation.
fn statement<'a>(name: &[u8], operands: &[&'a [u8]]) -> Result<Item<'a>, Reason>
    ensures { GivesOrReason definitions.item_view result (definitions.statement name.now (map (λ operand. operand.now) operands.now)) }
{
    if let [n] = operands {
        if is_word_directive(name) {
            return whole_word(n);
        }
    }
    operation_item(name, operands)
}

/// What a statement places: an operation with its operands, or `word` with its one. No tokens place nothing.
///
/// # Errors
///
/// The first reason why the statement is refused.
#[tactic(auto, unfolding(crate::specs::Operations::item_of))]
pub fn item_of<'a>(tokens: &[&'a [u8]]) -> Result<Option<Item<'a>>, Reason>
    ensures { GivesOrReason (option_map definitions.item_view) result (definitions.item_of (map (λ token. token.now) tokens.now)) }
{
    match tokens {
        [] => Ok(None),
        [name, operands @ ..] => {
            let item = statement(name, operands)?;
            Ok(Some(item))
        }
    }
}
