// Laws of Block Public Access.
ghost use Rattle.vpc_laws.specs.Access.{ModesStopAlone, ModesStopSteps, OffChangesNothing};

/// Where all modes are off, walks are those of the network in which none is told.
pub fn off_changes_nothing()
    ensures { OffChangesNothing }
{}

/// A step that modes change is stopped by them.
pub fn modes_stop_steps()
    ensures { ModesStopSteps }
{}

/// A verdict that modes change is that they stop the request or its reply.
pub fn modes_stop_alone()
    ensures { ModesStopAlone }
{}
