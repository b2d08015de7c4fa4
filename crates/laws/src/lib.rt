// What no call can do, whatever the certifier and the store are: laws of the definitions that the
// calls' contracts cite.
#![tactic(auto)]

ghost use Rattle.laws.specs.Keeping.{OthersKept, RefusalsKeep, OnlyAdvanceAppends};

// A call of one transaction leaves the slot of every other as it was; a refusal leaves all as it
// was, but for the note that 15 keeps; and versions come by an advance only.
#[tactic(auto, using(crate::proofs::Kept::answered_others))]
pub fn calls_keep()
    ensures others { OthersKept }
    ensures refusals { RefusalsKeep }
    ensures versions { OnlyAdvanceAppends }
{}
