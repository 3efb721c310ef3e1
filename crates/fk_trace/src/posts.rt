//! The servers with which a run that is recorded begins, and a run that is replayed.
ghost use Rattle.std.specs.Prelude.{◌≡◌, ◌≤◌, map, IfOk};
ghost use Rattle.fk_natives.specs.Both as both;
ghost use Rattle.fk_trace.specs.Posts.{meaning, seen, all_tapped, all_replaying, plain_seen, tapped_as, replaying_as, after_replaying, words_of_all};

use crate::post::Post;
use crate::replay::Replay;
use crate::tap::Tap;
use fk_model::{NoMemory, Reply, Who};
use fk_natives::Native;
use std::alloc::Global;
use std::vec::IntoIter;

/// A tap of a server that is no console, by the observer at a place of the table. A console stays.
fn tapped(alloc: Global, server: Native, watch: u8) -> Post
    requires { watch ≤ 2 }
    ensures { meaning result ≡ tapped_as watch (both.meaning server) }
{
    match server {
        Native::Console(_) => Post::Plain(server),
        Native::Server(_) => Post::Tap(Tap::new(alloc, server, watch)),
    }
}

/// The servers of a run that is recorded: a tap of each that is no console, by the observer at a place of the table.
///
/// # Errors
///
/// There is no memory for the posts.
pub fn tapped_posts(
    alloc: Global,
    services: Vec<(Who, Native)>,
    watch: u8,
) -> Result<Vec<(Who, Post)>, NoMemory>
    requires { watch ≤ 2 }
    ensures { IfOk result (λ posts. seen posts.items ≡ all_tapped watch (plain_seen services.items)) }
{
    let mut posts = Vec::new(alloc);
    for (who, server) in services {
        let Ok(()) = posts.push((who, tapped(alloc, server, watch))) else {
            return Err(NoMemory);
        };
    }
    Ok(posts)
}

/// A replay of the next list, in the place of a server that is no console. A console stays.
fn replaying(alloc: Global, server: Native, lists: &mut IntoIter<Vec<Reply>>) -> Post
    ensures post { meaning result ≡ replaying_as (words_of_all lists.old.rest.items) (both.meaning server) }
    ensures rest { words_of_all lists.new.rest.items ≡ after_replaying (words_of_all lists.old.rest.items) (both.meaning server) }
{
    match server {
        Native::Console(_) => Post::Plain(server),
        Native::Server(_) => match lists.next() {
            Some(replies) => Post::Replay(Replay::new(replies)),
            None => Post::Replay(Replay::new(Vec::new(alloc))),
        },
    }
}

/// The servers of a run that is replayed: a replay in the place of each that is no console, by the lists in order.
///
/// # Errors
///
/// There is no memory for the posts.
pub fn replaying_posts(
    alloc: Global,
    services: Vec<(Who, Native)>,
    lists: Vec<Vec<Reply>>,
) -> Result<Vec<(Who, Post)>, NoMemory>
    ensures { IfOk result (λ posts. seen posts.items ≡ all_replaying (words_of_all lists.items) (plain_seen services.items)) }
{
    let mut posts = Vec::new(alloc);
    let mut lists = lists.into_iter();
    for (who, server) in services {
        let Ok(()) = posts.push((who, replaying(alloc, server, &mut lists))) else {
            return Err(NoMemory);
        };
    }
    Ok(posts)
}
