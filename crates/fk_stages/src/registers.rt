//! The registers that stages are written into.
ghost use Rattle.std.specs.Prelude.{◌≡◌, true, slice_set};
ghost use Rattle.fk_model.specs.Calls as calls;
ghost use Rattle.fk_model.specs.Moves.{is_for_porters, is_for_users};

use crate::code::code_of;
use fk_model::{Stage, Todo};

/// Writes values into the registers from the second on.
fn put_two(registers: &mut [u64; 16], a: u64, b: u64)
    ensures { registers.new ≡ slice_set (slice_set registers.old 1 a) 2 b }
{
    registers[1] = a;
    registers[2] = b;
}

fn put_three(registers: &mut [u64; 16], a: u64, b: u64, c: u64)
    ensures { registers.new ≡ slice_set (slice_set (slice_set registers.old 1 a) 2 b) 3 c }
{
    put_two(registers, a, b);
    registers[3] = c;
}

fn put_four(registers: &mut [u64; 16], a: u64, b: u64, c: u64, d: u64)
    ensures { registers.new ≡ slice_set (slice_set (slice_set (slice_set registers.old 1 a) 2 b) 3 c) 4 d }
{
    put_three(registers, a, b, c);
    registers[4] = d;
}

/// Writes the arguments of a stage that porters alone make.
fn write_porters_arguments(stage: &Stage, registers: &mut [u64; 16])
    requires { is_for_porters stage.now ≡ true }
    ensures { registers.new ≡ calls.with_values (calls.arguments stage.now) registers.old }
{
    match *stage {
        Stage::CountIn { base, s, x } => put_three(registers, base, s, x),
        Stage::LinkSet { s, x, port, server } => put_four(registers, s, x, port, server),
        Stage::LinkPark { s, x, port } => put_three(registers, s, x, port),
        Stage::FaultSet { s, x, port, taker } => put_four(registers, s, x, port, taker),
        Stage::FaultPark { s, x, port, taken } => put_four(registers, s, x, port, taken),
        Stage::HoldSet { s, x, thread } => put_three(registers, s, x, thread),
        Stage::SpaceMakeHeld { x } => registers[1] = x,
        _ => unreachable!(),
    }
}

/// Writes the arguments of a stage that users alone make: on mutexes and conditions, or in a talk.
fn write_users_arguments(stage: &Stage, registers: &mut [u64; 16])
    requires { is_for_users stage.now ≡ true }
    ensures { registers.new ≡ calls.with_values (calls.arguments stage.now) registers.old }
{
    match *stage {
        Stage::MutexLock { m: a }
        | Stage::MutexTrylock { m: a }
        | Stage::MutexUnlock { m: a }
        | Stage::CondSignal { c: a }
        | Stage::CondBroadcast { c: a }
        | Stage::Connect { h: a }
        | Stage::ClientOverRef { reference: a }
        | Stage::ServerOverRef { reference: a } => registers[1] = a,
        Stage::CondWait { c, m } | Stage::CondAsleep { c, m } => put_two(registers, c, m),
        Stage::ClientSend { addr, count } | Stage::ServerSend { addr, count } => {
            registers[2] = addr;
            registers[3] = count;
        }
        Stage::ClientReceive { addr, room } | Stage::ServerReceive { addr, room } => {
            registers[4] = addr;
            registers[5] = room;
        }
        Stage::ClientReceiveRef {
            addr,
            room,
            reference,
        }
        | Stage::ServerReceiveRef {
            addr,
            room,
            reference,
        } => {
            registers[4] = addr;
            registers[5] = room;
            registers[6] = reference;
        }
        Stage::ClientOver | Stage::Disconnect | Stage::ServerOver | Stage::ServerEnd => {}
        _ => unreachable!(),
    }
}

/// Writes a stage's arguments into their registers.
fn write_arguments(stage: &Stage, registers: &mut [u64; 16])
    ensures { registers.new ≡ calls.with_values (calls.arguments stage.now) registers.old }
{
    match *stage {
        Stage::FaultDone => {}
        Stage::ThreadStop { h: a } | Stage::ThreadGo { h: a } | Stage::Wait { set: a } => {
            registers[1] = a
        }
        Stage::Destroy { s, x }
        | Stage::Clear { s, x }
        | Stage::SpaceHold { s, x }
        | Stage::SpaceRelease { s, x } => put_two(registers, s, x),
        Stage::Search { s, from } | Stage::PageNext { s, from } => put_two(registers, s, from),
        Stage::Locate { reference, s } => put_two(registers, reference, s),
        Stage::Create { s, x, kind } => put_three(registers, s, x, kind),
        Stage::Rename { s, x, y } => put_three(registers, s, x, y),
        Stage::GetState { s, x, addr } | Stage::SetState { s, x, addr } => {
            put_three(registers, s, x, addr)
        }
        Stage::PageGive { s, page, addr }
        | Stage::PageTake { s, page, addr }
        | Stage::PageRead { s, page, addr } => put_three(registers, s, page, addr),
        Stage::Point { s, x, s2, x2 } => put_four(registers, s, x, s2, x2),
        Stage::GetPtr {
            s,
            x,
            field: n,
            reference: r,
        }
        | Stage::SetPtr {
            s,
            x,
            field: n,
            reference: r,
        } => put_four(registers, s, x, n, r),
        Stage::CountIn { .. }
        | Stage::LinkSet { .. }
        | Stage::LinkPark { .. }
        | Stage::FaultSet { .. }
        | Stage::FaultPark { .. }
        | Stage::HoldSet { .. }
        | Stage::SpaceMakeHeld { .. } => write_porters_arguments(stage, registers),
        _ => write_users_arguments(stage, registers),
    }
}

/// The registers that these stages, and the rest of the registers, are written into.
#[tactic(auto, using(crate::proofs::Parts::words_one, crate::proofs::Parts::words_two, crate::proofs::Parts::words_three, crate::proofs::Parts::words_four))]
pub fn words(todo: &Todo, rest: &[u64; 16]) -> [u64; 16]
    ensures { result ≡ calls.words (calls.stages_of todo.now) rest.now }
{
    let mut registers = *rest;
    registers[0] = code_of(todo);
    match todo {
        Todo::One(first) => write_arguments(first, &mut registers),
        Todo::Two(first, second) => {
            write_arguments(first, &mut registers);
            write_arguments(second, &mut registers);
        }
        Todo::Three(first, second, third) => {
            write_arguments(first, &mut registers);
            write_arguments(second, &mut registers);
            write_arguments(third, &mut registers);
        }
        Todo::Four(first, second, third, fourth) => {
            write_arguments(first, &mut registers);
            write_arguments(second, &mut registers);
            write_arguments(third, &mut registers);
            write_arguments(fourth, &mut registers);
        }
    }
    registers
}
