// The receiver: segments off a line, packets and reports out.
#![tactic(auto)]

pub mod receiver;
pub mod report;

pub use receiver::Receiver;
pub use report::PacketReport;
