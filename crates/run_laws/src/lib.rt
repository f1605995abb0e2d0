//! That compiled code does what its core means, with the checks of any right record.
#![tactic(auto)]

ghost use Rattle.run_laws.specs.RightCode.{right_code_law, kept_code_law};

use code_laws::code_follows;
use kept_laws::all_kept;
use watched_core::watched_shows;

/// The code of a stepped core with the placement of any right record shows what the core means, for
/// every input and number of steps. It holds by the laws of watched cores and of their code, so this
/// function does nothing but call those.
pub fn right_records_run()
    ensures { right_code_law }
{
    code_follows();
    watched_shows();
}

/// The same for the record that keeps everything, which is right.
pub fn kept_records_run()
    ensures { kept_code_law }
{
    all_kept();
    right_records_run();
}
