// What the words of worked commands mean.
ghost use Rattle.text_tests.specs.WorkedPackets as packets;
ghost use Rattle.text_tests.specs.WorkedQueries as queries;

fn worked_packets()
    ensures takes { packets.TakesWords }
    ensures far { packets.TakesFarEnds }
    ensures refuses { packets.RefusesWords }
    ensures ports { packets.RefusesPorts }
{}

fn worked_queries()
    ensures ends { queries.TakesEnds }
    ensures far { queries.TakesFarEnds }
    ensures pairs { queries.TakesPairs }
    ensures refuses { queries.RefusesEnds }
    ensures names { queries.RefusesNames }
    ensures values { queries.RefusesValues }
    ensures addresses { queries.RefusesLackOfAddresses }
{}
