//! What a scenario is.
use crate::entries::{ObjectEntry, Program, ServerEntry, SpaceEntry};
use fk_model::{JobSpec, List};

/// A scenario: its entries in the order of the file, the programs in the order of their names.
#[derive(Drop)]
pub struct Scenario {
    /// How many moves may be made, 1 to 1,000,000.
    pub budget: u64,
    /// On how many workers, 1 to 8.
    pub workers: u32,
    pub programs: List<Program>,
    pub spaces: List<SpaceEntry>,
    pub objects: List<ObjectEntry>,
    pub servers: List<ServerEntry>,
    pub jobs: List<JobSpec>,
}
