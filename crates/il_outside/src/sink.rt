ghost use Rattle.std.specs.Prelude.{◌≡◌, ◌<◌, ◌≤◌, length, IfOk, OnOk, OnErr, Ok};
ghost use Rattle.std.specs.Io.KnownBytes.{Appends, WriteAppends};
ghost use Rattle.il_outside.specs.Streams.{SinkState, SinkFaults, AppendsPrefix};

/// Why a sink took nothing.
#[derive(Clone, Copy, Debug, PartialEq, Eq)]
pub enum SinkError {
    Failed,
    NoMemory,
}

/// Where bytes go.
pub trait Sink {
    ghost state: { Self → SinkState };

    /// Takes a prefix of the piece and gives its length, which is 0 for an empty piece alone. After an error it took
    /// nothing.
    fn write(&mut self, bytes: &[u8]) -> Result<usize, SinkError>
        ensures bound { IfOk result (λ n. n ≤ length bytes.now) }
        ensures some { IfOk result (λ n. 0 < length bytes.now → 0 < n) }
        ensures held { WriteAppends (state self.old).held (state self.new).held result bytes.now }
        ensures empty { length bytes.now ≡ 0 → result ≡ Ok 0 }
        ensures faults { SinkFaults (state self.old) (state self.new) result };
}

/// Writes all the bytes, in as many calls as the sink needs. After an error it took a prefix of them.
pub fn write_all<S: Sink>(sink: &mut S, bytes: &[u8]) -> Result<(), SinkError>
    ensures ok { OnOk result (Appends (S.state sink.old).held (S.state sink.new).held bytes.now) }
    ensures err { OnErr result (AppendsPrefix (S.state sink.old).held (S.state sink.new).held bytes.now) }
    ensures faults { SinkFaults (S.state sink.old) (S.state sink.new) result }
{
    let mut at = 0;
    while at < bytes.len() {
        match sink.write(&bytes[at..]) {
            Ok(n) => at += n,
            Err(error) => return Err(error),
        }
    }
    Ok(())
}
