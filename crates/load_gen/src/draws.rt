// What is drawn for the rounds.
ghost use Rattle.std.specs.Prelude.{◌≡◌, ◌≤◌};
ghost use Rattle.load_gen.specs.Load.{rounds_of, steps_by, turn};

/// How many rounds the script of a number has: 1 to 64.
pub fn rounds_of(number: u32) -> u32
    ensures is { result ≡ rounds_of number }
    ensures few { result ≤ 64 }
{
    1 + number % 64
}

// One turn.
pub fn turn(x: u64) -> u64
    ensures { result ≡ turn x }
{
    x.wrapping_mul(6_364_136_223_846_793_005)
        .wrapping_add(1_442_695_040_888_963_407)
}

// The steps that it gives.
pub fn steps_by(x: u64) -> u64
    ensures { result ≡ steps_by x }
{
    64 + (x >> 33) % 4096
}
