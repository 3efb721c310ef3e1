//! The run of one schedule.
ghost use Rattle.std.specs.Prelude.{map};
ghost use Rattle.fk_first.specs.Goings.{IsReachable};
ghost use Rattle.fk_first.specs.Served.{AllFit};

use crate::hunt::drawing::Run;
use crate::hunt::lottery::Lottery;
use fk_model::Move;
use fk_responders::Table;

/// So many that are drawn may turn out not to be ready before the core itself chooses.
const TRIES: u32 = 4;

/// Makes a move that is drawn, or else one that the core chooses, and gives it; none where the run has ended, or where there is no memory for the move,
/// which the sheet notes.
fn go(core: &mut Run, table: &Table, lottery: &mut Lottery<'_>) -> Option<Move>
    requires fits { AllFit (map (λ r. r.rule) table.now.list.items) core.old.services.list }
    requires come { IsReachable core.old }
    ensures fits { AllFit (map (λ r. r.rule) table.now.list.items) core.new.services.list }
    ensures come { IsReachable core.new }
{
    for _ in 0..TRIES {
        if let Some(one) = lottery.draw(core) {
            if core.is_below_budget() {
                match core.go(table, &one) {
                    Ok(true) => return Some(one),
                    Ok(false) => {}
                    Err(_) => lottery.sheet.lacks(),
                }
            }
        }
        lottery.miss(core);
    }
    match core.advance(table) {
        Ok(made) => made,
        Err(_) => {
            lottery.sheet.lacks();
            None
        }
    }
}

/// Makes the moves of a schedule, each of which is added to the list. Where there is no memory for that, the sheet notes it.
pub fn run_by(core: &mut Run, table: &Table, lottery: &mut Lottery<'_>, moves: &mut Vec<Move>)
    requires fits { AllFit (map (λ r. r.rule) table.now.list.items) core.old.services.list }
    requires come { IsReachable core.old }
{
    for _ in 0..u64::MAX {
        let Some(one) = go(core, table, lottery) else {
            break;
        };
        lottery.made(core, &one);
        if moves.push(one).is_err() {
            lottery.sheet.lacks();
        }
    }
}
