//! Laws of plans.

ghost use Rattle.plan_laws.specs.Laws.{StepsDescribeRows};

/// Over one database the steps of each kind describe the same rows.
pub fn steps_describe_rows()
    ensures { StepsDescribeRows }
{}
