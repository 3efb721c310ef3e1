//! A kernel with a porter, and the steps that are made in it.
//!
//! `asks CALL giving WORDS picking SPACE SLOT = STATUS LENGTH WORDS`: the porter asks for the stage of a
//! call, by the registers, and gives words, zeros after them; the status, how many words it is answered,
//! and the first of them. `bars` with the same before `=`: that move isn't ready. `unfit CALL giving
//! WORDS`: that one isn't fit. `makes` with the same as `asks`: that move is ready, and is made by `step`.
//!
//! `goes SLOT picking SPACE SLOT = REGISTERS`: a thread of the root makes a move; its first registers then. `waits SLOT picking
//! SPACE SLOT`: it isn't ready to. `runs SLOT COUNT`: it makes so many moves. `shows SLOT = REGISTERS`: its first registers.
//! `keeps SLOT = WORDS`: its state record from word 21 on, which is its talk's turn, the words moved, its fault, the page, and 1 for a write.
//!
//! `takes PORT picking SPACE SLOT = RESUMED TURN MOVED`: the native server of a port of the root accepts
//! a client, or takes up its talk: 1 where that was parked, whose turn it is, and the words moved. `gives
//! PORT giving WORDS = COUNT`: it gives words, and so many are taken; 99 where there was no room. `hands
//! PORT = 1`: it hands the turn over. `untaken`, `ungiven`, `unhanded`: that act isn't ready. `meets PORT =
//! SPACE SLOT`: whom it may accept, if anybody. `lost = SPACE SLOT`: the port whose server lost its client by the last move; `kept`: none did.
//!
//! `leases SLOT = COUNT`: a lease of a thread of the root is taken and run, and has made so many instructions. `unleased
//! SLOT`: there is none. `commits LEFT`: that lease is committed where so many moves are left; `refused LEFT`: it isn't.
//!
//! `each FIRST LAST COUNT`: the threads in these slots of the root and between them make so many moves each, one thread after another.
//! `queued = COUNT`: so many user threads are queued. `first SLOT = SPACE SLOT`: who is queued first at what stands in a slot of the
//! root, if anybody. `next = SPACE SLOT`: whose move comes next, if anybody's.
use crate::line::Line;
use crate::numbers::Numbers;
use crate::porter::put_porter;
use anyhow::{Context, bail};
use fk_boot::first_store;
use fk_burst::{Leased, commit, count, lease, run};
use fk_kernel::Kernel;
use fk_model::{Answer, Ask, Body, Move, NoMemory, Rule, Said, Todo, Turn, Who};
use fk_scenario::read_scenario;
use fk_stages::todo;
use std::alloc::Global;

/// The verbs, in the order in which `step` has their numbers.
pub const VERBS: &str =
    "asks bars goes waits takes untaken gives ungiven hands unhanded runs each shows keeps meets lost kept leases unleased commits refused unfit makes queued first next";

/// A kernel, and the name of its porter.
#[derive(Drop)]
pub struct World {
    kernel: Kernel,
    porter: Who,
    /// The port whose native server lost its client by the last move.
    ended: Option<Who>,
    /// The lease that was taken last, until it is committed.
    held: Option<Leased>,
}

/// The rules that native servers may have here, by name.
fn server_rules(alloc: Global) -> Result<Vec<(String, Rule)>, NoMemory> {
    let mut rules = Vec::new(alloc);
    rules.push((String::from_str(alloc, "echo")?, Rule::Echo))?;
    rules.push((String::from_str(alloc, "feed")?, Rule::Feed))?;
    rules.push((String::from_str(alloc, "sum")?, Rule::Sum))?;
    Ok(rules)
}

/// The kernel of a scenario, with a porter in a slot.
fn kernel_of(alloc: Global, text: &[u8], porter: Who) -> anyhow::Result<Kernel> {
    let Ok(rules) = server_rules(alloc) else {
        bail!("no memory");
    };
    let Ok(scenario) = read_scenario(alloc, text, &rules) else {
        bail!("no scenario");
    };
    let Ok(mut store) = first_store(alloc, &scenario) else {
        bail!("no memory");
    };
    let Ok(()) = put_porter(&mut store, porter) else {
        bail!("no memory");
    };
    let Ok(kernel) = Kernel::of(alloc, store) else {
        bail!("no memory");
    };
    Ok(kernel)
}

/// What a porter asks for: the stage of a call, by the registers, and the words that it gives.
fn ask_of(call: &[u64], given: &[u64]) -> Option<Ask> {
    let mut registers = [0; 16];
    let n = call.len().min(16);
    registers[..n].copy_from_slice(&call[..n]);
    let Some(Todo::One(stage)) = todo(&registers) else {
        return None;
    };
    let words = filled(given);
    Some(Ask::Call { stage, words })
}

/// These numbers, and zeros after them.
fn filled(numbers: &[u64]) -> [u64; 64] {
    let mut words = [0; 64];
    let n = numbers.len().min(64);
    words[..n].copy_from_slice(&numbers[..n]);
    words
}

/// Says a status, a length and the words.
fn say_answer(found: &mut Numbers, answer: &Answer) {
    found.go_on();
    found.say(u64::from(answer.status));
    found.say(u64::from(answer.len));
    found.say_all(&answer.words);
}

/// Says what an act has told.
fn say_told(found: &mut Numbers, said: &Said) {
    match said {
        Said::Taken {
            resumed,
            turn,
            moved,
            ..
        } => {
            found.say(u64::from(*resumed));
            found.say(match turn {
                Turn::Client => 1,
                Turn::Server => 2,
            });
            found.say(u64::from(*moved));
        }
        Said::Given { len, .. } => found.say(u64::from(*len)),
        Said::Full { .. } => found.say(99),
        Said::Over { .. } => found.say(1),
        _ => found.fail(),
    }
}

impl World {
    /// The world of a scenario, with a porter in a slot of a space.
    ///
    /// # Errors
    ///
    /// Where the text is no scenario, the numbers name nothing, and for want of memory.
    pub fn new(alloc: Global, text: &[u8], porter: Option<Who>) -> anyhow::Result<World> {
        let porter = porter.context("no name")?;
        let kernel = kernel_of(alloc, text, porter)?;
        Ok(World {
            kernel,
            porter,
            ended: None,
            held: None,
        })
    }

    /// What a move tells; nothing where it isn't ready.
    fn tries(&mut self, m: &Move, ask: &Ask, found: &mut Numbers) -> Option<Said> {
        if !self.kernel.is_fit(m, ask) {
            found.fail();
            return None;
        }
        let Ok(tried) = self.kernel.attempt(m, ask) else {
            found.fail();
            return None;
        };
        let told = tried?;
        self.ended = told.ended;
        Some(told.said)
    }

    /// The porter asks for a stage: what it is answered.
    fn asks(&mut self, call: &[u64], given: &[u64], pick: Option<Who>, found: &mut Numbers) {
        let Some(ask) = ask_of(call, given) else {
            return found.fail();
        };
        let who = self.porter;
        let said = self.tries(&Move { who, pick }, &ask, found);
        if let Some(Said::Answer(answer)) = &said {
            say_answer(found, answer);
        }
    }

    /// What the porter asks for is fit.
    fn is_fit(&self, call: &[u64], given: &[u64]) -> bool {
        let Some(ask) = ask_of(call, given) else {
            return true;
        };
        let who = self.porter;
        let pick = None;
        self.kernel.is_fit(&Move { who, pick }, &ask)
    }

    /// What the porter asks for is ready, and this is what it is answered as a step.
    fn makes(&mut self, line: &Line, found: &mut Numbers) {
        let Some(ask) = ask_of(line.subject.list(), line.given.list()) else {
            return found.fail();
        };
        let who = self.porter;
        let pick = line.picked.name_at(0);
        let m = Move { who, pick };
        if !self.kernel.is_fit(&m, &ask) || !self.kernel.ready(&m, &ask) {
            return found.fail();
        }
        let said = self.kernel.step(&m, &ask);
        if let Ok(Said::Answer(answer)) = &said {
            say_answer(found, answer);
        }
    }

    /// A thread moves: its registers then.
    fn goes(&mut self, who: Who, pick: Option<Who>, found: &mut Numbers) {
        if self.tries(&Move { who, pick }, &Ask::Run, found).is_some() {
            self.shows(who, found);
        }
    }

    /// A thread makes so many moves, or fewer, and what it makes is said.
    fn runs(&mut self, who: Who, count: u64, found: &mut Numbers) {
        let pick = None;
        for made in 0..count {
            if self.tries(&Move { who, pick }, &Ask::Run, found).is_none() {
                return found.say(made);
            }
        }
    }

    /// The registers of a thread.
    fn shows(&self, who: Who, found: &mut Numbers) {
        found.go_on();
        if let Some(Body::Thread(thread)) = self.kernel.store().at(who) {
            found.say_all(&thread.regs);
        }
    }

    /// The record of a thread, as the porter reads it, from word 21 on.
    fn keeps(&mut self, who: Who, found: &mut Numbers) {
        let mut record = Numbers::none();
        self.asks(&[9, 256, u64::from(who.slot)], &[], None, &mut record);
        found.go_on();
        let list = record.list();
        if list.len() > 23 {
            found.say_all(&list[23..]);
        } else {
            found.fail();
        }
    }

    /// The native server of a port of the root acts: by the number of the verb it accepts, gives words or hands over.
    fn acts(&mut self, verb: usize, line: &Line, found: &mut Numbers) {
        let given = line.given.list();
        let ask = match verb {
            4 | 5 => Ask::Accept,
            6 | 7 => Ask::Give {
                words: filled(given),
                len: given.len().min(64) as u8,
            },
            _ => Ask::Over,
        };
        let who = line.subject.in_root();
        let pick = line.picked.name_at(0);
        let said = self.tries(&Move { who, pick }, &ask, found);
        if let Some(said) = &said {
            say_told(found, said);
        }
    }

    /// A lease of a thread is taken and run: how many instructions were made.
    fn leases(&mut self, who: Who, found: &mut Numbers) {
        self.held = lease(&self.kernel, who);
        if let Some(taken) = &mut self.held {
            run(taken);
            found.say(count(taken));
        }
    }

    /// The lease that was taken last is committed where so many moves are left; whether that isn't as it is to be is said.
    fn commits(&mut self, left: u64, wanted: bool, found: &mut Numbers) {
        match self.held.take() {
            Some(held) => {
                if commit(&mut self.kernel, held, left) != wanted {
                    found.say(1);
                }
            }
            None => found.fail(),
        }
    }

    /// The threads in some slots of the root make so many moves each.
    fn each(&mut self, first: u64, last: u64, count: u64, found: &mut Numbers) {
        for slot in first..last.saturating_add(1) {
            if let Ok(slot) = u8::try_from(slot) {
                self.runs(Who { space: 0, slot }, count, found);
            }
        }
    }

    /// Where the user threads stand.
    fn stands(&mut self, verb: usize, who: Who, found: &mut Numbers) {
        match verb {
            23 => found.say(self.kernel.waits().len()),
            24 => found.say_name(self.kernel.waits().first(who)),
            _ => {
                if let Some(Move { who, .. }) = self.kernel.next() {
                    found.say_name(Some(who));
                }
            }
        }
    }

    /// Makes the step of a line, by the number of its verb, and says what is found then.
    pub fn step(&mut self, verb: usize, line: &Line, found: &mut Numbers) {
        let who = line.subject.in_root();
        let (call, given) = (line.subject.list(), line.given.list());
        let pick = line.picked.name_at(0);
        match verb {
            0 | 1 => self.asks(call, given, pick, found),
            2 | 3 => self.goes(who, pick, found),
            4..=9 => self.acts(verb, line, found),
            10 => self.runs(who, line.subject.at(1), found),
            11 => self.each(
                line.subject.at(0),
                line.subject.at(1),
                line.subject.at(2),
                found,
            ),
            12 => self.shows(who, found),
            13 => self.keeps(who, found),
            14 => found.say_name(self.kernel.ready_accept(who)),
            15 | 16 => found.say_name(self.ended),
            17 | 18 => self.leases(who, found),
            19 | 20 => self.commits(line.subject.at(0), verb == 19, found),
            21 => {
                if self.is_fit(call, given) {
                    found.say(1);
                }
            }
            22 => self.makes(line, found),
            _ => self.stands(verb, who, found),
        }
    }
}
