//! Taps, which keep notes of what passes at a native server, and replays, which give the replies of a list.
//!
//! It stands on `fk_natives` for what a server is, and on `fk_responders` for notes and their observers. It promises that a tap does what the server
//! in it does and holds the notes that its observer sees; that a replay gives the replies of its list in order, each whole, and empty ones behind the
//! end; that a post does what the one in it does; and what the posts of a run are that is recorded, or replayed (`specs/Posts.antt`). Memory lacks
//! for notes, and for the words of a console in a tap or a post.
#![tactic(auto)]

mod drafts;
mod post;
mod posts;
mod replay;
mod tap;

pub use post::Post;
pub use posts::{replaying_posts, tapped_posts};
pub use replay::Replay;
pub use tap::Tap;
