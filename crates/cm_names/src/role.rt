//! How the name of a variable is used.
ghost use Rattle.std.specs.Prelude.{◌≡◌};
ghost use Rattle.cm_syntax.specs.Resolution.{is_fit, value_read};
ghost use Rattle.cm_names.specs.Role.{role_of};

use cm_syntax::Slot;

/// How the name of a variable is used.
#[derive(Clone, Copy, Debug, PartialEq, Eq)]
pub(crate) enum Role {
    /// Its value is read.
    ValueRead,
    /// An element is read.
    ElementRead,
    /// An element is written.
    ElementWrite,
    /// It is in `len`.
    LengthRead,
    /// It is the whole of a split.
    SplitWhole,
    /// It is assigned to.
    ValueWrite,
    /// It stands behind `&`.
    Reference,
    /// It is the destination of a spawn.
    SpawnDestination,
    /// It is an argument, alone.
    BareArgument,
}

/// Whether a variable of this kind may be used so.
pub(crate) fn is_fit(role: Role, kind: Slot) -> bool
    ensures { result ≡ is_fit (role_of role) kind }
{
    match role {
        Role::ValueRead | Role::ValueWrite | Role::Reference | Role::SpawnDestination => {
            is_scalar(kind)
        }
        Role::ElementRead | Role::ElementWrite | Role::LengthRead | Role::SplitWhole => {
            !is_scalar(kind)
        }
        Role::BareArgument => true,
    }
}

/// Whether it is one word.
fn is_scalar(kind: Slot) -> bool
    ensures { result ≡ is_fit value_read kind }
{
    match kind {
        Slot::Scalar => true,
        Slot::Array(_) | Slot::Slice => false,
    }
}
