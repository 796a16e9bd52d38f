// Reasons for refusals.
ghost use Rattle.cube_model.specs.Reasons.{ReasonRefuses, RefusalsHaveReasons};

/// What has a reason is not answered.
pub fn reason_refuses()
    ensures { ReasonRefuses }
{}

/// Each refusal other than for want of room has a reason with its cell or place.
pub fn refusals_have_reasons()
    ensures { RefusalsHaveReasons }
{}
