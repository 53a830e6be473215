// Appliances.
ghost use Rattle.vpc_examples.specs.Middleboxes.{AppliancesForward};

/// What each kind of appliance forwards.
pub fn appliances_forward()
    ensures { AppliancesForward }
{}
