//! Laws of steps and rounds.

ghost use Rattle.std.specs.Prelude.{◌≡◌, ℕ, List, Some};
ghost use Rattle.env_script.specs.Scripts.{OfferValue};
ghost use Rattle.width_check.specs.Processes.{TypedProgram};
ghost use Rattle.width_check.specs.Sharing.{MeetsSharing};
ghost use Rattle.chp_meaning.specs.Terms.{Place};
ghost use Rattle.chp_meaning.specs.Steps.{Configuration, Step, Leads};
ghost use Rattle.chp_meaning.specs.Rounds.{step_at};
ghost use Rattle.chp_meaning.specs.Laws.{IsBehind, OneHistory, RoundsHold, OneEnd};
ghost use Rattle.chp_meaning.specs.Halves.{HalvesFollow, HalvesArePlain, HalvesKeepPace};

/// Law: what a round does at a place is a step at that place.
pub fn steps_taken()
    ensures { (c d : Configuration) (at : Place) → step_at c at ≡ Some d → Step c at d }
{}

/// Law: a run only appends to what has passed.
pub fn runs_append()
    ensures { (c d : Configuration) (n : ℕ) → Leads c n d → IsBehind c d }
{}

/// Law: a program that meets the sharing rule has one history. From each configuration that a run of m steps leads to,
/// under whatever script, a run leads on to the configuration after m rounds.
pub fn one_history()
    ensures { (p : TypedProgram) (script : List OfferValue) → MeetsSharing p.body → OneHistory p script }
{}

/// Law: where a run of such a program goes no further after m steps, none of its runs has more steps.
pub fn one_end()
    ensures { (p : TypedProgram) (script : List OfferValue) → MeetsSharing p.body → OneEnd p script }
{}

/// Law: of such a program each number of rounds is a run, and one round more only appends to the histories.
pub fn rounds_hold()
    ensures { (p : TypedProgram) (script : List OfferValue) → MeetsSharing p.body → RoundsHold p script }
{}

/// Law: a typed program that meets the sharing rule may be taken in halves, each `x := e` with x in e as
/// `h := e; x := h`. To each run of it in halves there is one of its own, of no more steps, with the same histories; if
/// it can go on then, so can it in halves; and one of the two has ended exactly where the other has.
pub fn halves_follow()
    ensures { HalvesFollow }
{}

/// Law: to each run of such a program in halves there is one of its own of half as many steps at least, with the same
/// histories.
pub fn halves_keep_pace()
    ensures { HalvesKeepPace }
{}

/// Law: such a program in halves meets the sharing rule too, it is typed except for the names of the variables h; no
/// assignment of it reads its own target.
pub fn halves_are_plain()
    ensures { HalvesArePlain }
{}
