ghost use Rattle.std.specs.Prelude.{◌≡◌};
ghost use Rattle.tm_ground.specs.Limits.{depth_limit, ref_limit, type_limit};
ghost use Rattle.tm_ground.specs.Occurs.{node_limit};

use tm_base::LimitKind;

/// How many named types there may be.
pub fn type_limit() -> usize
    ensures { result ≡ type_limit }
{
    LimitKind::NamedTypes.number() as usize
}

/// How many reference types there may be.
pub fn ref_limit() -> usize
    ensures { result ≡ ref_limit }
{
    LimitKind::References.number() as usize
}

/// How many types deep a type may be by value.
pub fn depth_limit() -> usize
    ensures { result ≡ depth_limit }
{
    LimitKind::Depth.number() as usize
}

/// How many nodes a type may have.
pub fn node_limit() -> usize
    ensures { result ≡ node_limit }
{
    LimitKind::ClosedNodes.number() as usize
}
