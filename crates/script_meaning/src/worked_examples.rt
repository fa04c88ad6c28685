ghost use Rattle.script_meaning.specs.WorkedExamples.{WorkedPlays, WorkedNexts};

/// What plays of small programs give: transfers, children, options, limits and places.
pub fn worked_plays()
    ensures { WorkedPlays }
{}

/// What units of small programs are missing.
pub fn worked_nexts()
    ensures { WorkedNexts }
{}
