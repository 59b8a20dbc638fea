// A stream of bytes that go out.
ghost use Rattle.std.specs.Prelude.{◌≡◌, ◌<◌, ◌≤◌, length, take, IfOk, OnErr};
ghost use Rattle.sv_io.specs.Counts.{Rose};
ghost use Rattle.sv_io.specs.Sink.{SinkState, SentAll};

/// Why bytes weren't taken.
#[derive(Clone, Copy, Debug, PartialEq, Eq)]
pub enum SinkFault {
    /// The write failed. The sink counts it.
    Failed,
}

/// A stream that takes bytes.
pub trait Sink {
    /// What a contract sees: all bytes that were taken (where the sink tells them), and how many
    /// writes failed.
    ghost seen: { Self → SinkState };

    /// Takes from one byte to all of the piece, from its beginning on, and answers how many. A
    /// write that fails takes none.
    fn write(&mut self, piece: &[u8]) -> Result<usize, SinkFault>
        requires { 0 < length piece.now }
        ensures count { IfOk result (λ n. (0 < n) × (n ≤ length piece.now)) }
        ensures wrote { IfOk result (λ n. SentAll (seen self.old).wrote (seen self.new).wrote (take n piece.now)) }
        ensures err { OnErr result ((seen self.new).wrote ≡ (seen self.old).wrote) }
        ensures cause { OnErr result (Rose (seen self.old).faults (seen self.new).faults) }
        ensures later { (seen self.old).faults ≤ (seen self.new).faults };
}
