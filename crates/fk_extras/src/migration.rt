//! A migration.
use fk_model::List;
use fk_packets::{Event, Fate};

/// What a migration came to.
#[derive(Drop)]
pub struct Migration {
    pub events: List<Event>,
    pub fate: Fate,
}
