//! Where connections come in.
ghost use Rattle.std.specs.Prelude.{List, ℕ, Option};
ghost use Rattle.std.specs.declared.net.TcpListener.{TcpListener};

use std::net::TcpListener;

/// Where connections can be listened for.
pub trait Addresses {
    // What came of listening at an address, if it can be listened at.
    ghost listens: { Self → List ℕ → Option TcpListener → Type 0 };

    /// A listener at an address and a port, if it can be listened at.
    fn listen(&self, address: &str) -> Option<TcpListener>
        ensures { listens self.now address.now result };
}
