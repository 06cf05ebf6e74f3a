// The law of the ring, as facts that the prover has checked.
ghost use Rattle.ring.specs.Law.{Law};
ghost use Rattle.ring.specs.Laws.{OneToken, AnyTwo, RadioSilent};
ghost use Rattle.ring.specs.Able.{EveryCall, EveryMiss, LongTrip};

/// What holds of every ring of 2 to 8 heads, over every link, after every call of every trip.
pub fn ring_law()
    ensures law { Law }
    ensures one_token { OneToken }
    ensures any_two { AnyTwo }
    ensures radio_silent { RadioSilent }
{}

/// The law is about something: every call can be made in every ring, and a trip leads to deliveries.
pub fn ring_moves()
    ensures every_call { EveryCall }
    ensures every_miss { EveryMiss }
    ensures long_trip { LongTrip }
{}
