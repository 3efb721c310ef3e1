//! What stands at a moment of a run, and the programs whose words may stand there.
use crate::programs::reading::Programs;
use fk_store::Store;

/// What stands at a moment of a run, and the programs whose words may stand there.
#[derive(Clone, Copy)]
pub struct Scene<'a> {
    pub store: &'a Store,
    pub programs: &'a Programs,
}
