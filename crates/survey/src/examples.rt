// Worked examples of logs and reports.
ghost use Rattle.survey.specs.Examples.{SmallLogsHold};

// States what is printed for two small logs, and that a swim obeys the first. It runs nothing: the reports are computed by the proof, from the definitions.
pub fn small_logs_hold()
    ensures { SmallLogsHold }
{}
