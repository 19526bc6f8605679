//! Laws of lines: how the lines of a trace are read.

ghost use Rattle.std.specs.Prelude.{◌≡◌, Some};
ghost use Rattle.qx_types.specs.Configuration.{Configuration, IsConfiguration};
ghost use Rattle.qx_types.specs.declared.step.Step.{Step};
ghost use Rattle.qx_script.specs.declared.command.Command.TheVariants.{Take};
ghost use Rattle.qx_script.specs.Lines.{CanSay};
ghost use Rattle.qx_script.specs.Script.{Reading, after_line, with_command};
ghost use Rattle.qx_script.specs.StepText.{step_text};

/// What `trace` prints of a step that a line can say is a line that takes this step.
pub fn traced_step_read_back()
    ensures read_back { (config : Configuration) (reading : Reading) (step : Step) → IsConfiguration config.users config.workers → reading.users ≡ config.users → CanSay config.users step → after_line reading (step_text config step) ≡ Some (with_command reading (Take step)) }
{}
