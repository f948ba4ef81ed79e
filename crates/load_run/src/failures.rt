// Answers that tell of a failure.
ghost use Rattle.std.specs.Prelude.{◌≡◌};
ghost use Rattle.load_run.specs.Failures.{begins_failure, tells_failure};

// What an answer of 500 begins with, and one of 503.
const FAILED: &[u8; 6] = b"< 500 ";

const SHORT: &[u8; 6] = b"< 503 ";

// Whether one of these answers is 500 or 503.
pub fn tells_failure(answers: &[u8]) -> bool
    ensures { result ≡ tells_failure answers.now }
{
    let mut at = 0;
    while at < answers.len() {
        if begins_failure(&answers[at..]) {
            return true;
        }
        at += 1;
    }
    false
}

fn begins_failure(text: &[u8]) -> bool
    ensures { result ≡ begins_failure text.now }
{
    let front = &text[..text.len().min(6)];
    front == FAILED.as_slice() || front == SHORT.as_slice()
}
