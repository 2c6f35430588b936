// What is told of a packet that is handed out.
ghost use Rattle.std.specs.Prelude.{◌≡◌};
ghost use Rattle.receiver.specs.Wrong.{wrong_bytes};

use mender::Mending;

// Whether the packet's row was clean, mended or spoiled, and how many of its 207 bytes were marked.
#[derive(Clone, Copy, PartialEq, Eq, Debug)]
pub struct PacketReport {
    pub result: Mending,
    pub marked: u8,
}

impl PacketReport {
    // How many bytes of the row came in other than in the row handed out: none where it is spoiled.
    // A number and no Option: callers are promised it, and `result` has the enum.
    pub fn wrong(self) -> u8
        ensures { result ≡ wrong_bytes self.result }
    {
        match self.result {
            Mending::Mended { wrong } => wrong,
            Mending::Clean | Mending::Spoiled => 0,
        }
    }
}
