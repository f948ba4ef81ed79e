// A stream gives something, and one thing.
ghost use Rattle.http_stream.specs.Answers.{OneAnswer, SomeAnswer, SomeReading};

/// Every list of bytes is judged, by one of the five rules, and has one answer; so every stream can be read to its end.
pub fn one_answer()
    ensures some { SomeAnswer }
    ensures one { OneAnswer }
    ensures read { SomeReading }
{}
