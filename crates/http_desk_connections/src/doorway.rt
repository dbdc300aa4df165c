//! What a connection asks of the door that it came in at.

/// Says when a connection that asks for nothing is to give way.
pub trait Doorway {
    ghost use Rattle.std.specs.Prelude.{◌≡◌, true};

    // It said that the connection is to give way.
    ghost lets_go: { Self → Type 0 } = { λ _. Unit {0} };

    /// Whether each connection gives way once its requests are answered.
    fn lets_all_go(&self) -> bool
        ensures { result ≡ true → lets_go self.now };

    /// Whether a connection waits to which no other has given way, which has then, or all are to give way.
    fn lets_one_go(&self) -> bool
        ensures { result ≡ true → lets_go self.now };
}
