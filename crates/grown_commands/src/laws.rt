//! Laws of what `grow` answers.

ghost use Rattle.std.specs.Prelude.{ℕ};
ghost use Rattle.command_answers.specs.Answers.{Answer};
ghost use Rattle.command_steps.specs.Orders.{Played};
ghost use Rattle.command_words.specs.GrowWords.{IsGrowable};
ghost use Rattle.command_words.specs.declared.grow_words.Growth.{Growth};
ghost use Rattle.grown_commands.specs.Summing.{IsCalmSummary, SumsUp};

use event_sim::laws::{power_is_powered, safe_moves_bring_no_hazard};
use grown_programs::grown_served;
use net_compose::laws::{carries, whole_nets};
use width_check::laws::form_is_typed;

/// Law: a program that is summed up has at most 20 nodes and 154 for each stage, and its run found no hazard.
pub fn summaries_are_calm()
    ensures { (growth : Growth) (played : Played) (place : ℕ) (answer : Answer) → IsGrowable growth →
        (sums : SumsUp growth played place answer) → IsCalmSummary growth sums.program sums.ran }
{
    grown_served();
    form_is_typed();
    whole_nets();
    carries();
    power_is_powered();
    safe_moves_bring_no_hazard();
}
