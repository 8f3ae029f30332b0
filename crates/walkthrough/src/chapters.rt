// The walk, chapter by chapter.
pub mod block;
pub mod book;
pub mod coins;
pub mod damages;
pub mod members;
pub mod messages;
pub mod tags;
pub mod timeouts;

// What an attestor says of a tag.
fn verdict(accepted: bool) -> &'static str {
    if accepted { "accepted" } else { "refused" }
}
