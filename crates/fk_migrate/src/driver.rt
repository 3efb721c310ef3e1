//! A pair driven to its end, by turns that are the same each time.
ghost use Rattle.std.specs.Prelude.{◌≡◌, ◌↔◌, ◌≤◌, IsTrue, IfOk, OnOk, length, map};
ghost use Rattle.fk_migrate.specs.Pairs.{shown, Drives, IsDriven};

use crate::pair::Pair;
use fk_model::limits::LAST_PORTER_SLOT;
use fk_model::{Move, NoMemory, Who};
use fk_natives::Service;
use fk_packets::Event;
use fk_responders::Table;

/// What is left of a budget of moves.
#[derive(Clone, Copy)]
pub struct Budget {
    /// So many moves may still be made.
    pub left: u64,
    /// None was left, and one more was ready.
    pub is_used: bool,
}

/// How many packets of each side have been delivered.
#[derive(Clone, Copy)]
struct Delivered {
    to_far: u64,
    to_near: u64,
}

/// The move of a root's porter.
fn porters_move() -> Move {
    Move {
        who: Who {
            space: 0,
            slot: LAST_PORTER_SLOT as u8,
        },
        pick: None,
    }
}

/// Takes an event where it is ready, and says whether it was.
fn try_event<S: Service + Drop>(
    pair: &mut Pair<S>,
    table: &Table,
    e: &Event,
) -> Result<bool, NoMemory>
    requires driven { IsDriven (map (λ r. r.rule) table.now.list.items) (shown pair.old) }
    ensures drives { OnOk result (Drives (map (λ r. r.rule) table.now.list.items) (shown pair.old) (shown pair.new)) }
{
    let is_ready = pair.ready(e)?;
    if !is_ready {
        return Ok(false);
    }
    pair.step(table, e)?;
    Ok(true)
}

/// Takes each of some events that is ready when its turn comes, and passes over the others.
///
/// # Errors
///
/// There is no memory for an event or a packet.
#[tactic(auto, using(crate::proofs::Driving::drives_on, crate::proofs::Driving::drives_not, crate::proofs::Driving::driven_of))]
pub fn take_ready<S: Service + Drop>(
    pair: &mut Pair<S>,
    table: &Table,
    events: &[Event],
) -> Result<(), NoMemory>
    requires driven { IsDriven (map (λ r. r.rule) table.now.list.items) (shown pair.old) }
    ensures drives { OnOk result (Drives (map (λ r. r.rule) table.now.list.items) (shown pair.old) (shown pair.new)) }
{
    for e in events {
        try_event(pair, table, e)?;
    }
    Ok(())
}

/// Takes a move where it is ready, and says whether it was. A budget counts it.
#[tactic(auto, using(crate::proofs::Driving::drives_equal, crate::proofs::Driving::drives_not))]
fn try_move<S: Service + Drop>(
    pair: &mut Pair<S>,
    table: &Table,
    e: &Event,
    budget: &mut Budget,
) -> Result<bool, NoMemory>
    requires driven { IsDriven (map (λ r. r.rule) table.now.list.items) (shown pair.old) }
    ensures drives { OnOk result (Drives (map (λ r. r.rule) table.now.list.items) (shown pair.old) (shown pair.new)) }
{
    if budget.left == 0 {
        budget.is_used = pair.ready(e)?;
        return Ok(false);
    }
    let made = try_event(pair, table, e)?;
    if made {
        budget.left -= 1;
    }
    Ok(made)
}

// ---- the near kernel before the migration, and the far one after it

/// One move of a user or a server of the near kernel.
#[tactic(auto, using(crate::proofs::Driving::drives_equal, crate::proofs::Driving::drives_from, crate::proofs::Driving::driven_equal))]
fn move_near<S: Service + Drop>(
    pair: &mut Pair<S>,
    table: &Table,
    budget: &mut Budget,
) -> Result<bool, NoMemory>
    requires driven { IsDriven (map (λ r. r.rule) table.now.list.items) (shown pair.old) }
    ensures drives { OnOk result (Drives (map (λ r. r.rule) table.now.list.items) (shown pair.old) (shown pair.new)) }
{
    let Some(m) = pair.choose_near() else {
        return Ok(false);
    };
    let made = try_move(pair, table, &Event::Near(m), budget)?;
    Ok(made)
}

/// So many of them, or fewer where none is ready.
#[tactic(auto, using(crate::proofs::Driving::drives_on, crate::proofs::Driving::drives_not, crate::proofs::Driving::driven_of))]
fn run_near<S: Service + Drop>(
    pair: &mut Pair<S>,
    table: &Table,
    most: u64,
    budget: &mut Budget,
) -> Result<(), NoMemory>
    requires driven { IsDriven (map (λ r. r.rule) table.now.list.items) (shown pair.old) }
    ensures drives { OnOk result (Drives (map (λ r. r.rule) table.now.list.items) (shown pair.old) (shown pair.new)) }
{
    for _ in 0..most {
        if !move_near(pair, table, budget)? {
            return Ok(());
        }
    }
    Ok(())
}

/// One move of a user or a server of the far kernel.
#[tactic(auto, using(crate::proofs::Driving::drives_equal, crate::proofs::Driving::drives_from, crate::proofs::Driving::driven_equal))]
fn move_far<S: Service + Drop>(
    pair: &mut Pair<S>,
    table: &Table,
    budget: &mut Budget,
) -> Result<bool, NoMemory>
    requires driven { IsDriven (map (λ r. r.rule) table.now.list.items) (shown pair.old) }
    ensures drives { OnOk result (Drives (map (λ r. r.rule) table.now.list.items) (shown pair.old) (shown pair.new)) }
{
    let Some(m) = pair.choose_far() else {
        return Ok(false);
    };
    let made = try_move(pair, table, &Event::Far(m), budget)?;
    Ok(made)
}

/// All moves of users and servers of the far kernel.
#[tactic(auto, using(crate::proofs::Driving::drives_on, crate::proofs::Driving::drives_not, crate::proofs::Driving::driven_of))]
fn run_far<S: Service + Drop>(
    pair: &mut Pair<S>,
    table: &Table,
    budget: &mut Budget,
) -> Result<(), NoMemory>
    requires driven { IsDriven (map (λ r. r.rule) table.now.list.items) (shown pair.old) }
    ensures drives { OnOk result (Drives (map (λ r. r.rule) table.now.list.items) (shown pair.old) (shown pair.new)) }
{
    let left = budget.left;
    for _ in 0..left {
        if !move_far(pair, table, budget)? {
            return Ok(());
        }
    }
    // Where the budget is used one more tells whether anything is left.
    move_far(pair, table, budget)?;
    Ok(())
}

// ---- the migration

/// Delivers a packet twice.
#[tactic(auto, using(crate::proofs::Driving::drives_on, crate::proofs::Driving::driven_of))]
fn deliver<S: Service + Drop>(pair: &mut Pair<S>, table: &Table, e: &Event) -> Result<(), NoMemory>
    requires driven { IsDriven (map (λ r. r.rule) table.now.list.items) (shown pair.old) }
    ensures drives { OnOk result (Drives (map (λ r. r.rule) table.now.list.items) (shown pair.old) (shown pair.new)) }
{
    try_event(pair, table, e)?;
    try_event(pair, table, e)?;
    Ok(())
}

/// Delivers the packets of the near side that haven't been, the last one first.
#[tactic(auto, using(crate::proofs::Driving::drives_on, crate::proofs::Driving::drives_not, crate::proofs::Driving::drives_equal, crate::proofs::Driving::driven_equal, crate::proofs::Driving::driven_of))]
fn deliver_to_far<S: Service + Drop>(
    pair: &mut Pair<S>,
    table: &Table,
    from: u64,
) -> Result<u64, NoMemory>
    requires driven { IsDriven (map (λ r. r.rule) table.now.list.items) (shown pair.old) }
    ensures drives { OnOk result (Drives (map (λ r. r.rule) table.now.list.items) (shown pair.old) (shown pair.new)) }
{
    let to = pair.sent_near()?;
    for k in from..to {
        deliver(pair, table, &Event::ToFar(to - 1 - (k - from)))?;
    }
    Ok(to)
}

/// Delivers the packets of the far side that haven't been, the last one first.
#[tactic(auto, using(crate::proofs::Driving::drives_on, crate::proofs::Driving::drives_not, crate::proofs::Driving::driven_of))]
fn deliver_to_near<S: Service + Drop>(
    pair: &mut Pair<S>,
    table: &Table,
    from: u64,
) -> Result<u64, NoMemory>
    requires driven { IsDriven (map (λ r. r.rule) table.now.list.items) (shown pair.old) }
    ensures drives { OnOk result (Drives (map (λ r. r.rule) table.now.list.items) (shown pair.old) (shown pair.new)) }
{
    let to = pair.sent_far();
    for k in from..to {
        deliver(pair, table, &Event::ToNear(to - 1 - (k - from)))?;
    }
    Ok(to)
}

/// Delivers all packets that haven't been. What the far side has to say may have the near one send one packet more.
#[tactic(auto, using(crate::proofs::Driving::drives_on, crate::proofs::Driving::driven_of))]
fn deliver_all<S: Service + Drop>(
    pair: &mut Pair<S>,
    table: &Table,
    delivered: &mut Delivered,
) -> Result<(), NoMemory>
    requires driven { IsDriven (map (λ r. r.rule) table.now.list.items) (shown pair.old) }
    ensures drives { OnOk result (Drives (map (λ r. r.rule) table.now.list.items) (shown pair.old) (shown pair.new)) }
{
    delivered.to_far = deliver_to_far(pair, table, delivered.to_far)?;
    delivered.to_near = deliver_to_near(pair, table, delivered.to_near)?;
    delivered.to_far = deliver_to_far(pair, table, delivered.to_far)?;
    Ok(())
}

/// A call of the near root's porter, or else of the far one's; all packets come before it.
#[tactic(auto, using(crate::proofs::Driving::drives_on, crate::proofs::Driving::driven_of))]
fn go_on<S: Service + Drop>(
    pair: &mut Pair<S>,
    table: &Table,
    delivered: &mut Delivered,
    budget: &mut Budget,
) -> Result<bool, NoMemory>
    requires driven { IsDriven (map (λ r. r.rule) table.now.list.items) (shown pair.old) }
    ensures drives { OnOk result (Drives (map (λ r. r.rule) table.now.list.items) (shown pair.old) (shown pair.new)) }
{
    deliver_all(pair, table, delivered)?;
    if try_move(pair, table, &Event::Near(porters_move()), budget)? {
        return Ok(true);
    }
    if budget.is_used {
        return Ok(false);
    }
    let made = try_move(pair, table, &Event::Far(porters_move()), budget)?;
    Ok(made)
}

/// The migration up to its end.
#[tactic(auto, using(crate::proofs::Driving::drives_on, crate::proofs::Driving::drives_not, crate::proofs::Driving::driven_of))]
fn migrate<S: Service + Drop>(
    pair: &mut Pair<S>,
    table: &Table,
    budget: &mut Budget,
) -> Result<(), NoMemory>
    requires driven { IsDriven (map (λ r. r.rule) table.now.list.items) (shown pair.old) }
    ensures drives { OnOk result (Drives (map (λ r. r.rule) table.now.list.items) (shown pair.old) (shown pair.new)) }
{
    let mut delivered = Delivered {
        to_far: 0,
        to_near: 0,
    };
    let left = budget.left;
    for _ in 0..left {
        if !go_on(pair, table, &mut delivered, budget)? {
            return Ok(());
        }
    }
    go_on(pair, table, &mut delivered, budget)?;
    Ok(())
}

/// The near kernel runs for so many moves, or fewer where none is ready; then the subtree moves, while nobody else does; then the far kernel
/// runs. Of all moves there are no more than the budget has.
///
/// # Errors
///
/// There is no memory for a move or a packet.
#[tactic(auto, using(crate::proofs::Driving::drives_on, crate::proofs::Driving::driven_of))]
pub fn drive<S: Service + Drop>(
    pair: &mut Pair<S>,
    table: &Table,
    moves: u64,
    most: u64,
) -> Result<Budget, NoMemory>
    requires driven { IsDriven (map (λ r. r.rule) table.now.list.items) (shown pair.old) }
    ensures drives { OnOk result (Drives (map (λ r. r.rule) table.now.list.items) (shown pair.old) (shown pair.new)) }
{
    let mut budget = Budget {
        left: most,
        is_used: false,
    };
    run_near(pair, table, moves, &mut budget)?;
    if budget.is_used {
        return Ok(budget);
    }
    migrate(pair, table, &mut budget)?;
    if budget.is_used {
        return Ok(budget);
    }
    run_far(pair, table, &mut budget)?;
    Ok(budget)
}
