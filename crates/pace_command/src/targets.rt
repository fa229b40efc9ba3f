//! Assignments that read their own target.

ghost use Rattle.std.specs.Prelude.{◌≡◌};
ghost use Rattle.width_check.specs.View.{process_of};
ghost use Rattle.pace_command.specs.Targets.{reads_target};

use handshake_expand::reads;
use width_check::TStmt;

/// Whether some assignment in the statement reads its own target.
pub(crate) fn reads_target(s: &TStmt) -> bool
    ensures { result ≡ reads_target (process_of s.now) }
{
    match s {
        TStmt::Skip | TStmt::Send { .. } | TStmt::Receive { .. } => false,
        TStmt::Assign { var, value, .. } => reads(value, *var),
        TStmt::Then { parts } | TStmt::Beside { parts } => {
            for part in parts {
                if reads_target(part) {
                    return true;
                }
            }
            false
        }
        TStmt::Select { arms, .. } => {
            for arm in arms {
                if reads_target(&arm.body) {
                    return true;
                }
            }
            false
        }
        TStmt::Repeat { body } => reads_target(body),
    }
}
