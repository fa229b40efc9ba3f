//! Laws of scripts and of runs.

ghost use Rattle.std.specs.Prelude.{◌≡◌, List, ℕ};
ghost use Rattle.chp_base.specs.declared.channel.Channel.{Channel};
ghost use Rattle.prs_core.specs.Nets.{NetValue, IsNet};
ghost use Rattle.env_script.specs.declared.fault.ScriptFault.{ScriptFault};
ghost use Rattle.env_script.specs.Scripts.{OfferValue};
ghost use Rattle.env_script.specs.ScriptText.{IsScriptText, IsScriptRefused};
ghost use Rattle.env_script.specs.Runs.{RunState, IsRun, IsAtRest, after};
ghost use Rattle.env_script.specs.OneLength.{AllSafe, EndsAll};

/// Law: a text is at most one script of some channels.
pub fn one_script()
    ensures { (channels : List Channel) (text : List ℕ) (s t : List OfferValue)
        → IsScriptText channels text s
        → IsScriptText channels text t
        → s ≡ t }
{}

/// Law: a text that is refused is no script, and is refused for one cause at one line.
pub fn one_refusal()
    ensures none { (channels : List Channel) (text : List ℕ) (s : List OfferValue) (f : ScriptFault) (n : ℕ)
        → IsScriptRefused channels text f n
        → ¬ IsScriptText channels text s }
    ensures only { (channels : List Channel) (text : List ℕ) (f g : ScriptFault) (n m : ℕ)
        → IsScriptRefused channels text f n
        → IsScriptRefused channels text g m
        → (f ≡ g) × (n ≡ m) }
{}

/// Law: where every run of a net under a script from some state is safe, and one of them rests after m moves, no run
/// from that state has more than m moves. Each one that rests has exactly m, moves each node as often, and ends with
/// the same values of the nodes and the same histories.
pub fn one_length()
    ensures { (net : NetValue) (script : List OfferValue) (st : RunState)
        → IsNet net
        → AllSafe net script st
        → (ns : List ℕ)
        → IsRun net script st ns
        → IsAtRest net script (after net st ns)
        → EndsAll net script st ns }
{}
