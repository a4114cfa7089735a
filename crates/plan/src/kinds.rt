// The kinds of a fault: 0, 1, 2 name a link, 3 the node. A kind is any byte, since a fault is read before it is judged (`faults_error`).
ghost use Rattle.std.specs.Prelude.{◌≡◌, ◌≤◌};
ghost use Rattle.plan.specs.Kinds.{link_kind, node_kind, kind_dir};

pub fn is_link(kind: u8) -> bool
    ensures { result ≡ link_kind kind }
{
    kind < 3
}

pub fn is_node(kind: u8) -> bool
    ensures { result ≡ node_kind kind }
{
    kind == 3
}

// The direction in which the link of a kind leaves its node.
pub fn dir(kind: u8) -> u8
    ensures value { result ≡ kind_dir kind }
    ensures upper_bound { result ≤ 4 }
{
    match kind {
        0 => 0,
        1 => 2,
        _ => 4,
    }
}
