//! The steps of the fifteen calls, as definitions in specs/.
#![tactic(auto)]

ghost use Rattle.steps.specs.Cases.{CasesHold};

/// The worked cases of the journal come out of the steps by computing.
#[tactic(auto, unfolding(content::specs::Bytes::written, content::specs::Bytes::cut))]
pub fn cases_hold()
    ensures { CasesHold }
{}
