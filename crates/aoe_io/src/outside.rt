//! What the outside gives and takes.
ghost use Rattle.std.specs.Prelude.{◌≡◌, ◌<◌, ◌≤◌, ◌+◌, ℕ, List, Option, length, take, IfOk, OnErr, OnOk};
ghost use Rattle.aoe_base.specs.Faults.{Rose};
ghost use Rattle.aoe_io.specs.Bytes.{Gave, Took, IsEnded};

use aoe_base::Failed;

/// Bytes that come in.
pub trait Source {
    // The bytes that are left, where the source tells them.
    ghost left: { Self → Option (List ℕ) };

    // How many calls of the source have failed.
    ghost faults: { Self → ℕ };

    // The bytes that it has read ahead: the next ones of what is left.
    ghost buffered: { Self → List ℕ };

    /// Fills the front of `buf`, and says how many bytes of it: none only at the end of the input.
    /// A call that fails takes nothing from what is left, and may leave any bytes in `buf`.
    fn read(&mut self, buf: &mut [u8]) -> Result<usize, Failed>
        requires { 0 < length buf.old }
        ensures within { IfOk result (λ n. n ≤ length buf.old) }
        ensures gave { IfOk result (λ n. Gave (left self.old) (left self.new) (take n buf.new)) }
        ensures end { IfOk result (λ n. n ≡ 0 → IsEnded (left self.old)) }
        ensures err { OnErr result (left self.new ≡ left self.old) }
        ensures count { faults self.old ≤ faults self.new }
        ensures cause { OnErr result (Rose (faults self.old) (faults self.new)) }
        ensures no_fault { OnOk result (faults self.new ≡ faults self.old) }
        ensures one_fault { faults self.new ≤ faults self.old + 1 };

    /// The bytes that it has read ahead, where they can be looked at: none of a source that reads none
    /// ahead.
    fn buffer(&self) -> &[u8]
        ensures { result.now ≡ buffered self.now };

    /// Takes so many of the bytes that it has read ahead.
    fn consume(&mut self, count: usize)
        requires { count ≤ length (buffered self.old) }
        ensures gave { Gave (left self.old) (left self.new) (take count (buffered self.old)) }
        ensures no_fault { faults self.new ≡ faults self.old };
}

/// Bytes that go out.
pub trait Sink {
    // The bytes written, where the sink tells them.
    ghost held: { Self → Option (List ℕ) };

    // How many calls of the sink have failed.
    ghost faults: { Self → ℕ };

    /// Takes the front of `piece`, and says how many bytes of it: at least one. A sink that takes
    /// none counts a fault and fails.
    fn write(&mut self, piece: &[u8]) -> Result<usize, Failed>
        requires { 0 < length piece.now }
        ensures some { IfOk result (λ n. 0 < n) }
        ensures within { IfOk result (λ n. n ≤ length piece.now) }
        ensures took { IfOk result (λ n. Took (held self.old) (held self.new) (take n piece.now)) }
        ensures err { OnErr result (held self.new ≡ held self.old) }
        ensures count { faults self.old ≤ faults self.new }
        ensures cause { OnErr result (Rose (faults self.old) (faults self.new)) }
        ensures no_fault { OnOk result (faults self.new ≡ faults self.old) }
        ensures one_fault { faults self.new ≤ faults self.old + 1 };
}
