//! Native servers: what they ask for, and what becomes of them by what they are told.
//!
//! It stands on `fk_responders` for the table of closures by which servers reply, and on `fk_model`. It
//! promises of each service, a console or a server, that its side and what it has left are those of its state, by which it asks for what that calls for, and
//! that its state after what it is told is that of the definition (`specs/Natives.antt`), whatever it is told and
//! whenever: a console keeps each word that it is sent; a server keeps the first 64 words of a request,
//! replies by its rule when its client hands over, gives the reply and hands back; a talk that is taken up
//! has an empty request, and at the server's turn the reply to that without the words that were moved. So one reply is what the
//! server's rule answers, and services that are alike answer alike (`specs/Answers.antt`). Memory lacks for a console's words alone.
//!
//! A service may also be a tap, which keeps notes of what passes at the server in it, or a replay, which gives the replies of a list. The
//! definition says of these too what they ask for and what becomes of them. Their code stands in other crates.
#![tactic(auto)]

mod answers;
mod asking;
mod console;
mod native;
mod server;
mod service;

pub use answers::{alike_services_answer_alike, alike_services_take_up_alike, replies_are_by_rule};
pub use asking::ask;
pub use console::Console;
pub use native::Native;
pub use server::Server;
pub use service::{Heard, Service, Side};
