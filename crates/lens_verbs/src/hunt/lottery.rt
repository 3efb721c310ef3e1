//! Who moves next, drawn at random.
use crate::hunt::drawing::{Entrant, Run, server_move, thread_move};
use crate::hunt::random::{Random, mixed};
use fk_model::limits::LAST_PORTER_SLOT;
use fk_model::{Mode, Move, Peer, Stage, Who};
use fk_store::Store;
use lens_text::{Sheet, handled, next_stage};

/// So many threads are looked at, those that have waited longest for their turn.
const WIDTH: usize = 8;

/// After so many moves who may move is looked at anew, whatever has happened.
const ROUND: u64 = 16;

/// So many native servers are known at most that may have an act.
const SERVERS: usize = 16;

/// The number of the first native server, above those of all slots, and that of the job.
const FIRST_SERVER: u64 = 281_474_976_710_656;

const JOB: u64 = 562_949_953_421_312;

/// How one of those that may move is chosen.
#[derive(Clone, Copy)]
enum Way {
    /// Each as likely as another.
    Evenly,
    /// The one of the highest priority. All priorities are drawn anew at one move of so many.
    ByPriority { change: u64 },
}

/// Draws the moves of one schedule.
#[derive(Drop)]
pub struct Lottery<'a> {
    pub sheet: &'a Sheet,
    random: Random,
    way: Way,
    /// What priorities are made of, until they change.
    priorities: u64,
    /// Who may move, as far as it was looked at.
    entrants: Vec<Entrant>,
    /// It has to be looked at anew.
    is_old: bool,
    /// The places of native servers that may have an act.
    servers: Vec<usize>,
    /// Who was drawn last.
    drawn: Option<Entrant>,
    /// Who was drawn makes an instruction.
    is_instruction: bool,
    /// Before so many moves the job whose turn it is isn't drawn, since it wasn't ready.
    pause: u64,
}

/// Whether a thread is at an instruction.
fn runs(store: &Store, who: Who) -> bool {
    match store.thread(who) {
        Some(thread) => matches!(thread.mode, Mode::Running),
        None => false,
    }
}

/// The port of the native server that a mover is, or that a thread speaks to or comes to.
fn port_of(store: &Store, who: Who) -> Option<Who> {
    let Some(thread) = store.thread(who) else {
        return Some(who);
    };
    let Mode::Calling = thread.mode else {
        return None;
    };
    match &thread.talk {
        Some(talk) => match talk.peer {
            Peer::Service => Some(talk.port),
            _ => None,
        },
        None => match next_stage(store, who) {
            Some(Stage::Connect { h }) => handled(store, who.space, h),
            _ => None,
        },
    }
}

/// The place of the native server that a mover is, or that a thread speaks to or comes to.
fn server_of(core: &Run, who: Who) -> Option<usize> {
    let Some(port) = port_of(core.kernel().store(), who) else {
        return None;
    };
    for place in 0..core.services().len() {
        if let Some((one, _)) = core.services().get(place) {
            if *one == port {
                return Some(place);
            }
        }
    }
    None
}

impl<'a> Lottery<'a> {
    /// No schedule has begun.
    pub fn new(sheet: &'a Sheet) -> Lottery<'a> {
        Lottery {
            sheet,
            random: Random::new(0),
            way: Way::Evenly,
            priorities: 0,
            entrants: Vec::new(sheet.alloc),
            is_old: true,
            servers: Vec::new(sheet.alloc),
            drawn: None,
            is_instruction: false,
            pause: 0,
        }
    }

    /// Begins the schedule with a number.
    pub fn begin(&mut self, number: u64) {
        self.random = Random::new(number);
        self.way = match self.random.below(8) {
            0..=3 => Way::Evenly,
            4 => Way::ByPriority { change: 4 },
            5 => Way::ByPriority { change: 12 },
            6 => Way::ByPriority { change: 40 },
            _ => Way::ByPriority { change: 1000 },
        };
        self.priorities = self.random.number();
        self.is_old = true;
        self.servers.clear();
        self.pause = 0;
    }

    /// Adds one that may move.
    fn enter(&mut self, entrant: Entrant) {
        if self.entrants.push(entrant).is_err() {
            self.sheet.lacks();
        }
    }

    /// Looks at the threads that may be ready.
    fn look_at_threads(&mut self, core: &Run) {
        let last = core.last_thread();
        let mut is_met = false;
        let mut at = core.next_thread(None);
        for _ in 0..WIDTH {
            let Some(who) = at else {
                return;
            };
            self.enter(Entrant::Thread(who));
            is_met = is_met || last == Some(who);
            at = core.next_thread(at);
        }
        // Who moved last stands behind those, and may go on all the same.
        if let Some(who) = last {
            if at.is_some() && !is_met && runs(core.kernel().store(), who) {
                self.enter(Entrant::Thread(who));
            }
        }
    }

    /// Looks at who may move: threads, native servers that were spoken to, and the job whose turn it is.
    fn look(&mut self, core: &Run) {
        self.entrants.clear();
        self.look_at_threads(core);
        for place in &self.servers {
            if self.entrants.push(Entrant::Server(*place)).is_err() {
                self.sheet.lacks();
            }
        }
        let (events, jobs) = (core.events(), core.jobs());
        match jobs.current() {
            Some(plan) if events >= self.pause && (events >= plan.at || jobs.is_at_work()) => {
                let porter = Who {
                    space: plan.nester,
                    slot: LAST_PORTER_SLOT as u8,
                };
                self.enter(Entrant::Job(porter));
            }
            _ => {}
        }
        self.is_old = false;
    }

    /// The one of the highest priority, which is drawn from its number: the slots of all spaces are counted through, and the native servers and the job behind
    /// them.
    fn highest(&self) -> Option<Entrant> {
        let mut best = None;
        let mut most = 0;
        for entrant in &self.entrants {
            let number = match *entrant {
                Entrant::Thread(who) => u64::from(who.space)
                    .wrapping_mul(256)
                    .wrapping_add(u64::from(who.slot)),
                Entrant::Server(place) => FIRST_SERVER.wrapping_add(place as u64),
                Entrant::Job(_) => JOB,
            };
            let priority = mixed(self.priorities ^ number);
            if best.is_none() || priority > most {
                best = Some(*entrant);
                most = priority;
            }
        }
        best
    }

    /// One of those that may move.
    fn chosen(&mut self) -> Option<Entrant> {
        match self.way {
            Way::Evenly => {
                let place = self.random.below(self.entrants.len() as u64);
                self.entrants.get(place as usize).copied()
            }
            Way::ByPriority { change } => {
                if self.random.below(change) == 0 {
                    self.priorities = self.random.number();
                }
                self.highest()
            }
        }
    }

    /// A move that may be ready; none where nobody is known who could make one.
    pub fn draw(&mut self, core: &Run) -> Option<Move> {
        if self.is_old || core.events() % ROUND == 0 {
            self.look(core);
        }
        self.drawn = self.chosen();
        let Some(entrant) = self.drawn else {
            return None;
        };
        let drawn = match entrant {
            Entrant::Thread(who) => thread_move(core, &mut self.random, who),
            Entrant::Server(place) => server_move(core, &mut self.random, place),
            Entrant::Job(who) => Some(Move { who, pick: None }),
        };
        self.is_instruction = match &drawn {
            Some(one) => runs(core.kernel().store(), one.who),
            None => false,
        };
        drawn
    }

    /// It hears that who was drawn has no ready move.
    pub fn miss(&mut self, core: &Run) {
        self.is_old = true;
        match self.drawn {
            Some(Entrant::Server(place)) => self.servers.retain(|one| *one != place),
            Some(Entrant::Job(_)) => self.pause = core.events().saturating_add(ROUND),
            _ => {}
        }
    }

    /// It hears that a move was made.
    pub fn made(&mut self, core: &Run, one: &Move) {
        // An instruction of a thread that runs on frees nobody.
        if self.is_instruction && !self.is_old && runs(core.kernel().store(), one.who) {
            return;
        }
        self.is_old = true;
        // Its native server may have an act now.
        if let Some(place) = server_of(core, one.who) {
            if self.servers.len() < SERVERS && !self.servers.contains(&place) {
                if self.servers.push(place).is_err() {
                    self.sheet.lacks();
                }
            }
        }
    }
}
