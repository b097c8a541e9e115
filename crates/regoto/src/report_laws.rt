//! What the report of a rewriting does when it is replayed.

ghost use Rattle.regoto.specs.ReportLaws.{ReportLaw};

/// The report of a text that was restructured is accepted with the program of that text, and gives the text that was
/// written.
pub fn report_law()
    ensures { ReportLaw }
{}
