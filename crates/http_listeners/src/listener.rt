//! What accepts connections.
//!
//! A listener may tell the inputs to come and the connections that were finished, as one in memory does, or tell nothing, as one on a socket.
//! What is promised of inputs and of finished connections holds where they are told; all else holds of every listener.
ghost use Rattle.std.specs.Prelude.{◌≤◌, OnErr, IfOk};
ghost use Rattle.http_edges.specs.Edge.{Counts};
ghost use Rattle.http_listeners.specs.Listener.{ListenerView, Takes, TakesNone, Finishes, ends};

use http_edges::{Failed, Sink, Source};

/// Both ends of a connection: where its request comes from, and where its reply goes.
#[derive(Drop)]
pub struct Conn<I, O> {
    pub input: I,
    pub output: O,
}

/// Where connections come from, and where they go when they are served.
///
/// `view` is all that a listener shows of itself. No call changes whether it tells its inputs to come or its finished connections.
pub trait Listener {
    type In: Source + Drop;

    type Out: Sink + Drop;

    ghost view: { Self → ListenerView };

    /// Accepts the next connection. `Failed` takes none.
    fn accept(&mut self) -> Result<Conn<Self::In, Self::Out>, Failed>
        ensures ok { IfOk result (λ conn.
            Takes (ends (Self.In.view conn.input) (Self.Out.view conn.output)) (view self.old) (view self.new)) }
        ensures none { OnErr result (TakesNone (view self.old) (view self.new)) }
        ensures counts { Counts (view self.old).faults (view self.new).faults result };

    /// Takes back a connection that was served, and closes it. There has to be one that was accepted and not finished.
    fn finish(&mut self, conn: Conn<Self::In, Self::Out>)
        requires { 1 ≤ (view self.old).unfinished }
        ensures { Finishes (ends (Self.In.view conn.input) (Self.Out.view conn.output)) (view self.old) (view self.new) };
}
