// The laws of selection and verdicts. Each function stands for one law: its contract names the statement, and there is nothing to compute.
#![tactic(auto)]

ghost use Rattle.verdicts.specs.Agree.{ShowAndAuditAgree};
ghost use Rattle.verdicts.specs.Laws.{FormulaIsSelection, KindsKeepTheirLaws};
ghost use Rattle.verdicts.specs.Sound.{VerdictsAreSound};

// The formula of a query, asked for yes or no, says what the query selects.
pub fn formula_is_selection()
    ensures { FormulaIsSelection }
{}

// Yes and no, and the three verdicts, keep the laws of a kind of verdict.
pub fn kinds_keep_their_laws()
    ensures { KindsKeepTheirLaws }
{}

// On a lawful receipt what is sure stays selected and what is out stays out, whatever calls follow; nothing is undecided once the receipt has ended, nor ever for a query whose path looks forward and whose filters look back.
pub fn verdicts_are_sound()
    ensures { VerdictsAreSound }
{}

// The selected entries of a show are the audit's list, so counts and points are equal at every rate; what is sure is selected, and what is selected is listed.
pub fn show_and_audit_agree()
    ensures { ShowAndAuditAgree }
{}
