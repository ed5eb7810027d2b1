ghost use Rattle.reports.specs.Worked.{TwoLevelReports};

/// The definitions tried on the worked example.
pub fn two_level_reports()
    ensures { TwoLevelReports }
{}
