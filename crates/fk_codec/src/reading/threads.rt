//! Bytes to threads.
ghost use Rattle.std.specs.Prelude.{IfErr};
ghost use Rattle.fk_image.specs.Format.Reading as words;
ghost use Rattle.fk_codec.specs.Reading.Given.{Decodes, IsFault};

use crate::reading::fail::Fail;
use crate::reading::fields::{
    read_below, read_byte, read_link, read_u16, read_u64, read_words, refused,
};
use fk_image::format::{reason, shows_new};
use fk_image::{BoxedThread, FaultRec, Link, Rec, TalkRec, ThreadRec, is_code, is_mode_byte};
use std::alloc::Global;

/// A mode, behind the registers. Only the newer version shows calls with a reference.
#[tactic(auto, unfolding(fk_image::specs::Format::Reading::read_mode))]
fn read_mode<'a>(newer: bool, regs: &[u64; 16], bytes: &'a [u8]) -> Result<(u8, &'a [u8]), Fail>
    ensures read { Decodes (λ x. (x.0, x.1.now)) result (words.read_mode newer regs.now bytes.now) }
    ensures fault { IfErr result (λ fail. IsFault fail) }
{
    let (mode, rest) = read_byte(bytes)?;
    if is_mode_byte(regs, mode) && (newer || !shows_new(regs, mode)) {
        Ok((mode, rest))
    } else {
        Err(refused(bytes, reason::RANGE))
    }
}

/// A halt code, behind the mode.
#[tactic(auto, unfolding(fk_image::specs::Format::Reading::read_code))]
fn read_code(mode: u8, bytes: &[u8]) -> Result<(u8, &[u8]), Fail>
    ensures read { Decodes (λ x. (x.0, x.1.now)) result (words.read_code mode bytes.now) }
    ensures fault { IfErr result (λ fail. IsFault fail) }
{
    let (code, rest) = read_byte(bytes)?;
    if is_code(mode, code) {
        Ok((code, rest))
    } else {
        Err(refused(bytes, reason::RANGE))
    }
}

#[tactic(auto, unfolding(fk_image::specs::Format::Reading::read_open_talk))]
fn read_open_talk(turn: u8, bytes: &[u8]) -> Result<(Option<TalkRec>, &[u8]), Fail>
    ensures read { Decodes (λ x. (x.0, x.1.now)) result (words.read_open_talk turn bytes.now) }
    ensures fault { IfErr result (λ fail. IsFault fail) }
{
    let (moved, rest) = read_u16(bytes)?;
    let (port, rest) = read_link(rest)?;
    let (server, rest) = read_link(rest)?;
    let talk = TalkRec {
        turn,
        moved,
        port,
        server,
    };
    Ok((Some(talk), rest))
}

#[tactic(auto, unfolding(fk_image::specs::Format::Reading::read_talk))]
fn read_talk(bytes: &[u8]) -> Result<(Option<TalkRec>, &[u8]), Fail>
    ensures read { Decodes (λ x. (x.0, x.1.now)) result (words.read_talk bytes.now) }
    ensures fault { IfErr result (λ fail. IsFault fail) }
{
    let (turn, rest) = read_below(3, bytes)?;
    if turn == 0 {
        Ok((None, rest))
    } else {
        read_open_talk(turn, rest)
    }
}

/// The taker of a fault, where it is taken.
#[tactic(auto, unfolding(fk_image::specs::Format::Reading::read_taker))]
fn read_taker(state: u8, bytes: &[u8]) -> Result<(Option<Link>, &[u8]), Fail>
    ensures read { Decodes (λ x. (x.0, x.1.now)) result (words.read_taker state bytes.now) }
    ensures fault { IfErr result (λ fail. IsFault fail) }
{
    if state == 1 {
        Ok((None, bytes))
    } else {
        let (taker, rest) = read_link(bytes)?;
        Ok((Some(taker), rest))
    }
}

#[tactic(auto, unfolding(fk_image::specs::Format::Reading::read_met_fault))]
fn read_met_fault(state: u8, bytes: &[u8]) -> Result<(Option<FaultRec>, &[u8]), Fail>
    ensures read { Decodes (λ x. (x.0, x.1.now)) result (words.read_met_fault state bytes.now) }
    ensures fault { IfErr result (λ fail. IsFault fail) }
{
    let (page, rest) = read_byte(bytes)?;
    let (write, rest) = read_below(2, rest)?;
    let (port, rest) = read_link(rest)?;
    let (taker, rest) = read_taker(state, rest)?;
    let fault = FaultRec {
        page,
        write,
        port,
        taker,
    };
    Ok((Some(fault), rest))
}

#[tactic(auto, unfolding(fk_image::specs::Format::Reading::read_fault))]
fn read_fault(bytes: &[u8]) -> Result<(Option<FaultRec>, &[u8]), Fail>
    ensures read { Decodes (λ x. (x.0, x.1.now)) result (words.read_fault bytes.now) }
    ensures fault { IfErr result (λ fail. IsFault fail) }
{
    let (state, rest) = read_below(3, bytes)?;
    if state == 0 {
        Ok((None, rest))
    } else {
        read_met_fault(state, rest)
    }
}

/// # Errors
///
/// `At`: the first bad field, with its reason. `NoMemory`: there is none for the record.
#[tactic(auto, unfolding(fk_image::specs::Format::Reading::read_thread))]
pub fn read_thread(alloc: Global, newer: bool, bytes: &[u8]) -> Result<(Rec, &[u8]), Fail>
    ensures { Decodes (λ x. (x.0, x.1.now)) result (words.read_thread newer bytes.now) }
{
    let (regs, rest) = read_words::<16>(bytes)?;
    let (pc, rest) = read_u64(rest)?;
    let (mode, rest) = read_mode(newer, &regs, rest)?;
    let (code, rest) = read_code(mode, rest)?;
    let (stops, rest) = read_u16(rest)?;
    let (talk, rest) = read_talk(rest)?;
    let (fault, rest) = read_fault(rest)?;
    let thread = ThreadRec {
        regs,
        pc,
        mode,
        code,
        stops,
        talk,
        fault,
    };
    Ok((Rec::Thread(BoxedThread::new(alloc, thread)?), rest))
}
