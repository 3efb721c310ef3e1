//! What has come of what was asked for.
use crate::problem::Problem;

/// The text that was asked for, or why it isn't shown and the line that says so.
#[derive(Drop)]
pub struct Shown {
    /// Why what was asked for isn't shown, where it isn't.
    pub problem: Option<Problem>,
    /// What was asked for, or the line.
    pub text: String,
    /// What is said besides of what is shown, on standard error.
    pub beside: String,
}

impl Shown {
    /// What is said of a problem.
    pub fn line(&self) -> &str {
        match self.problem {
            Some(Problem::NoMemory) => "no memory",
            _ => self.text.as_str(),
        }
    }
}
