//! Who makes a stage.
use fk_model::Who;

/// Who makes a stage: a user, or a porter.
#[derive(Clone, Copy)]
pub struct Caller {
    pub who: Who,
    pub is_porter: bool,
}
