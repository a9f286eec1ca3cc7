// What becomes of a first block.
use crate::reply::Reply;
use crate::running::Running;

/// The design that it makes with the line that accepts it, or the reply that refuses it.
#[derive(Drop)]
pub enum Begun {
    Accepted { running: Running, line: Vec<u8> },
    Refused(Reply),
}
