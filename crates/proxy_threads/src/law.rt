//! What follows for the order of jobs.
ghost use Rattle.std.specs.Prelude.{◌≡◌, ◌++◌, List};
ghost use Rattle.proxy_threads.specs.Groups.{GroupState};
ghost use Rattle.proxy_threads.specs.Runs.{IsRun, Step, handed_over, taken};

/// Jobs are taken in the order in which they were handed over, each once: whatever is handed over and taken, what waited at first and what
/// was handed over is what was taken and what waits at last.
pub fn jobs_come_in_order<T>()
    ensures { (old new : GroupState T) (steps : List (Step T)) → IsRun old steps new → old.waiting ++ handed_over steps ≡ taken steps ++ new.waiting }
{}
