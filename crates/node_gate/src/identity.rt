// Which node threads share, for proofs alone. No value of it exists. How a replica starts is decided in `opening`.
use std::marker::Brand;

/// Which node threads share: which start of which replica, over which schema, root and index choice. Whoever has opened
/// a node calls what runs its threads with `Brand`, and the proof of that call picks the identity of the node that was
/// opened.
pub trait NodeIdentity {
    ghost use Rattle.node_gate.specs.Identities.{NodeIdentity};

    // The identity of the node, at each moment.
    ghost own: { NodeIdentity };
}

impl NodeIdentity for Brand {
    ghost use Rattle.std.specs.Prelude.{[]};

    // A call that picks none has that of no node.
    ghost own = { record {
      index = 0;
      count = 0;
      cluster = 0;
      restarts = 0;
      schema = record { types = []; classes = [] };
      suffix = [];
      indexes = [];
    } };
}
