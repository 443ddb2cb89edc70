//! What the scripts of `rows/` answer, line by line, and how some end.
ghost use Rattle.rule_scripts.specs.Corners.{CornersAnswer};
ghost use Rattle.rule_scripts.specs.Hostile.{HostileAnswer};
ghost use Rattle.rule_scripts.specs.Large.{LargeAnswer};
ghost use Rattle.rule_scripts.specs.Runs.{RunsTell};
ghost use Rattle.rule_scripts.specs.Worked.{WorkedAnswer};

/// Scripts of rare cases: ends of ranges, objects that come back, calls that meet in one place.
pub fn corners_answer()
    ensures { CornersAnswer }
{}

/// Scripts that try each refusal, and each way past it.
pub fn hostile_answer()
    ensures { HostileAnswer }
{}

/// A script that uses all pages of the largest root.
pub fn large_answer()
    ensures { LargeAnswer }
{}

/// Scripts that show each kind of object in use.
pub fn worked_answer()
    ensures { WorkedAnswer }
{}

/// What the lines of whole runs are told: they show who knows a name when, what a batch is, and who has no thread.
pub fn runs_tell()
    ensures { RunsTell }
{}
