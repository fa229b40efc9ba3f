//! Laws of the texts of nets.

ghost use Rattle.std.specs.Prelude.{◌≡◌, ℕ, List};
ghost use Rattle.prs_core.specs.Nets.{NetValue, IsNet};
ghost use Rattle.prs_file.specs.declared.fault.NetFault.{NetFault as FaultValue};
ghost use Rattle.prs_file.specs.Reading.{IsRefused};
ghost use Rattle.prs_file.specs.Spelling.{NetText};

/// Law: a text spells at most one net.
pub fn one_net()
    ensures { (text : List ℕ) (a b : NetValue) → IsNet a → IsNet b → NetText text a → NetText text b → a ≡ b }
{}

/// Law: a text is refused for at most one cause at one line, and a text that spells a net for none.
pub fn one_refusal()
    ensures once { (text : List ℕ) (f g : FaultValue) (l m : ℕ) → IsRefused text f l → IsRefused text g m →
        (f ≡ g) × (l ≡ m) }
    ensures never { (text : List ℕ) (net : NetValue) (f : FaultValue) (l : ℕ) → IsNet net → NetText text net →
        ¬ IsRefused text f l }
{}
