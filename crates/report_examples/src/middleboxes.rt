// Appliances.
ghost use Rattle.report_examples.specs.Middleboxes.{PrintsAppliance, PrintsReplyThroughAppliance};

/// A packet that an appliance forwards, and one that it drops.
pub fn prints_an_appliance()
    ensures { PrintsAppliance }
{}

/// A reply that goes straight back, and one through the appliance.
pub fn prints_a_reply_through_an_appliance()
    ensures { PrintsReplyThroughAppliance }
{}
