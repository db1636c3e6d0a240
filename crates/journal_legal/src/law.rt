ghost use Rattle.std.specs.Prelude.{◌≡◌};
ghost use Rattle.handoff_data.specs.History.{History};
ghost use Rattle.journal_legal.specs.Verdicts.{IsVerdict};
ghost use Rattle.journal_legal.specs.declared.verdict.Verdict.{Verdict as Answer};

/// Journals have no two verdicts. A law: the call does nothing.
pub fn one_verdict()
    ensures { (j : History) (first second : Answer) → IsVerdict j first → IsVerdict j second → first ≡ second }
{}
