// The sender: packets in, segments on a line.
#![tactic(auto)]

pub mod sender;

pub use sender::Sender;
