// Laws of replays. The function does nothing: its contract says the law.
ghost use Rattle.replay_log.specs.Ports.{AllPortsStayApart};

/// Whatever the list of packets is, no two translations of one gateway, protocol, destination and destination port share
/// a source port, after whichever packet.
pub fn keeps_ports_apart()
    ensures { AllPortsStayApart }
{}
