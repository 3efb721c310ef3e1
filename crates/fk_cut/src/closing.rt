//! Whether a subtree of a store is closed, or the first place where it isn't; the walk through it, and who is where.
//!
//! It stands on `fk_store`, on `fk_stack` for its walk, and on `fk_model`, whose definitions of a subtree seen alone its contracts cite. It walks a
//! subtree in preorder without recursion, and changes nothing.

mod above;
mod closing;
mod far;
mod led;
mod points;
mod walk;

pub use above::{has_own_path, is_inside, path_below};
pub use closing::{Place, closed};
pub use far::is_nesters_port;
pub use walk::{birth_of, objects_of};
