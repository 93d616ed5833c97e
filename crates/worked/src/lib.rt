#![tactic(auto)]

ghost use Rattle.worked.specs.Lines.{WorkedLines};

// Small sheets, and what the seeds read of them: each line is computed from the definitions by the prover.
#[tactic(auto, unfolding(sheet::specs::Tokens::token))]
pub fn worked_lines()
    ensures { WorkedLines }
{}
