ghost use Rattle.std.specs.Prelude.{◌≡◌, ◌<◌, ◌≤◌, length, take, MatchResult, IfOk, OnOk, OnErr, Ok};
ghost use Rattle.std.specs.Io.KnownBytes.{Consumes, Keeps, IsAtEnd};
ghost use Rattle.il_outside.specs.Faults.{Rose};
ghost use Rattle.il_outside.specs.Streams.{SourceState};

/// The outside failed.
#[derive(Clone, Copy, Debug, PartialEq, Eq)]
pub struct Failed;

/// Bytes that come in.
pub trait Source {
    ghost state: { Self → SourceState };

    /// Fills the front of the buffer with the next bytes, and gives their number. 0 for a buffer that isn't empty is
    /// the end of the input. An empty buffer gets 0, which says nothing of the end. Failed takes nothing.
    fn read(&mut self, buf: &mut [u8]) -> Result<usize, Failed>
        ensures bound { IfOk result (λ n. n ≤ length buf.new) }
        ensures left { MatchResult result (λ n. Consumes (state self.old).left (state self.new).left (take n buf.new)) (λ _. Keeps (state self.old).left (state self.new).left) }
        ensures end { IfOk result (λ n. n ≡ 0 → 0 < length buf.new → IsAtEnd (state self.new).left) }
        ensures empty { length buf.new ≡ 0 → result ≡ Ok 0 }
        ensures failed { OnErr result (Rose (state self.old).faults (state self.new).faults) }
        ensures faults { OnOk result ((state self.new).faults ≡ (state self.old).faults) };
}
