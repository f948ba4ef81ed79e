// A stream gives the same requests, however it is cut.
ghost use Rattle.http_stream.specs.Cuts.{CutsAnywhere, FailsForGood, OneReading, RequestsTakeBytes};

/// A stream gives one list of requests and one end; what comes in two pieces gives what the whole gives; a
/// connection that has failed stays so; and a request takes bytes, so that asking for the next one ends.
pub fn any_cutting()
    ensures one { OneReading }
    ensures cuts { CutsAnywhere }
    ensures fails { FailsForGood }
    ensures takes { RequestsTakeBytes }
{}
