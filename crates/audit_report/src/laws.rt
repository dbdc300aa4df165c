//! A law of the definitions.
ghost use Rattle.audit_report.specs.Laws.{ReportIsOne};

use audit_contiguity::laws::{breaks_are_one_list, rising_lists_are_one};

/// A plan has one report: any two reports that satisfy the definition are equal.
pub fn report_is_one()
    ensures { ReportIsOne }
{
    breaks_are_one_list();
    rising_lists_are_one();
}
