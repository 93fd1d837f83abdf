ghost use Rattle.std.specs.Prelude.{◌≡◌, not};
ghost use Rattle.pr_model.specs.Conflicts.{conflicts};

use pr_grammar::Class;
use pr_words::{Kind, Role};

/// Whether a command of this class may pass a reservation of this type (SPC-4 and SBC-3, the tables of commands that
/// conflict). `role` is what the nexus that sends it is to the reservation.
pub fn allows(kind: Kind, role: Role, class: Class) -> bool
    ensures { result ≡ not (conflicts kind role class) }
{
    let registered = matches!(role, Role::Registered);
    let reads = matches!(class, Class::Reads);
    if matches!(role, Role::Holder) || matches!(class, Class::Free) {
        return true;
    }
    match kind {
        Kind::WriteExclusive => reads,
        Kind::ExclusiveAccess => false,
        Kind::WriteRegistrants | Kind::WriteAll => registered || reads,
        Kind::ExclusiveRegistrants | Kind::ExclusiveAll => registered,
    }
}
