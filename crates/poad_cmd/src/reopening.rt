//! The law of the state file over two runs.
ghost use Rattle.std.specs.Prelude.{◌≡◌, ℕ, List, Option, Some};
ghost use Rattle.command_words.specs.Serving.{Serve};
ghost use Rattle.outside.specs.Keeping.{Contents};
ghost use Rattle.poa_history.specs.Life.{Life};
ghost use Rattle.poad_cmd.specs.Beginning.{IsBegun};
ghost use Rattle.poad_cmd.specs.Putting.{Keeps};
ghost use Rattle.poad_cmd.specs.Reopening.{CanBeWritten, OpensAfter};

/// A run that begins by the state file into which an earlier run put what it stored opens with just that: at each path and id
/// the same state, or none. The paths, ids and states that were stored have to be such as can be written.
pub fn a_run_opens_with_what_was_put()
    ensures { (serve next : Serve) (name : List ℕ) (first second : Life) (before now : Contents) (after : Option Contents)
        → serve.state ≡ Some name → next.state ≡ Some name → CanBeWritten first → Keeps serve first before now
        → IsBegun next second (Some now) after → OpensAfter first second }
{}
